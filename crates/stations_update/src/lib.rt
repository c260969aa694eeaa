// Counting a PDU in the table of stations, and removing a station from it.
#![tactic(auto)]

ghost use Rattle.std.specs.Prelude.{◌≡◌, cond, ◌∷◌, ◌++◌, ◌+◌, ◌*◌, ◌<◌, ◌≤◌, length, take, drop};
ghost use Rattle.octets.specs.Octets.{placed};
ghost use Rattle.stations.specs.Table.{table_in, memory_of, station_words};
ghost use Rattle.stations_update.specs.Counting.{shorter, counted, count_number, memory_after_count};
ghost use Rattle.stations_update.specs.Removing.{without, removal_number, memory_after_removal};

use stations::Station;

// Kept as numbers: C gets them as they are, and `count_number` and `removal_number` of specs/ give them.
const FULL: u8 = 55;

const NOT_HELD: u8 = 56;

// What the table sees of a PDU that was read: its source, whether echo dropped it, and its path count, which counts where the path bit is set.
// Kept: C's struct, so the flag stands beside its value.
#[repr(C)]
#[derive(Clone, Copy)]
pub struct Heard {
    pub source: u16,
    pub echo: bool,
    pub path_bit: bool,
    pub path_count: u8,
}

fn shorter(station: Station, count: u16) -> u16
    ensures { (result ≡ shorter station count) × (result ≤ count) }
{
    if station.has_path {
        station.shortest_path.min(count)
    } else {
        count
    }
}

fn shortest_after(heard: Heard, station: Station) -> u16
    requires { station.shortest_path < 65535 }
    ensures { (result ≡ cond heard.path_bit (shorter station heard.path_count) station.shortest_path) × (result < 65535) }
{
    if heard.path_bit {
        shorter(station, u16::from(heard.path_count))
    } else {
        station.shortest_path
    }
}

fn counted(heard: Heard, station: Station) -> Station
    requires { station.shortest_path < 65535 }
    ensures { (result ≡ counted heard station) × (result.shortest_path < 65535) }
{
    Station {
        reads: station.reads.saturating_add(1),
        echoes: station.echoes.saturating_add(u16::from(heard.echo)),
        has_path: station.has_path || heard.path_bit,
        shortest_path: shortest_after(heard, station),
        ..station
    }
}

fn put_station(table: &mut [u16], place: usize, station: Station)
    requires { (place < 128) × (4 * place + 4 < length table.old) × (station.shortest_path < 65535) }
    ensures { table.new ≡ placed table.old (4 * place + 1) (station_words station) }
{
    let first = 4 * place + 1;
    table[first] = station.address;
    table[first + 1] = station.reads;
    table[first + 2] = station.echoes;
    table[first + 3] = path_word(station);
}

fn path_word(station: Station) -> u16
    requires { station.shortest_path < 65535 }
    ensures { result ≡ cond station.has_path (station.shortest_path + 1) 0 }
{
    if station.has_path {
        station.shortest_path + 1
    } else {
        0
    }
}

// Puts a station in the place of the one that stands there.
fn replace(table: &mut [u16; Station::MEMORY], place: usize, station: Station)
    requires { (place < length (table_in table.old)) × (station.shortest_path < 65535) }
    ensures { table.new
        ≡ memory_of (take place (table_in table.old) ++ station ∷ drop (place + 1) (table_in table.old)) table.old }
{
    let end = stations::held(table);
    put_station(table, place, station);
    table[0] = end as u16;
}

// Puts a station in at a place and moves those from there on by one.
// Kept as loops, here and in `take_out`: `copy_within` would call `memmove`, and the library for C needs `memcpy` and `memset` alone.
fn insert(table: &mut [u16; Station::MEMORY], place: usize, station: Station)
    requires { (place ≤ length (table_in table.old)) × (length (table_in table.old) < 128) × (station.shortest_path < 65535) }
    ensures { table.new
        ≡ memory_of (take place (table_in table.old) ++ station ∷ drop place (table_in table.old)) table.old }
{
    let end = stations::held(table);
    let mut carried = station;
    for i in place..end {
        let next = stations::station_at(table, i);
        put_station(table, i, carried);
        carried = next.station;
    }
    put_station(table, end, carried);
    table[0] = (end + 1) as u16;
}

// Takes the station at a place out and moves those after it by one.
fn take_out(table: &mut [u16; Station::MEMORY], place: usize)
    requires { place < length (table_in table.old) }
    ensures { table.new ≡ memory_of (without place (table_in table.old)) table.old }
{
    let end = stations::held(table);
    for i in place + 1..end {
        let next = stations::station_at(table, i);
        put_station(table, i - 1, next.station);
    }
    table[0] = (end - 1) as u16;
}

// Removes the station of an address: 0, or 56 where it is not held and nothing changes. Heard again later, it starts anew. Document 02, W-201.
pub fn remove(table: &mut [u16; Station::MEMORY], address: u16) -> u8
    ensures { (result ≡ removal_number address (table_in table.old))
        × (table.new ≡ memory_after_removal address table.old) }
{
    match stations::find_place(table, address) {
        Ok(place) => {
            take_out(table, place);
            0
        }
        Err(_) => NOT_HELD,
    }
}

// Counts a PDU that was read: 0, or 55 where its source is new while 128 stations are held, and nothing changes. Document 02, W-201.
pub fn count(table: &mut [u16; Station::MEMORY], heard: Heard) -> u8
    ensures { (result ≡ count_number heard table.old) × (table.new ≡ memory_after_count heard table.old) }
{
    match stations::find_place(table, heard.source) {
        Ok(place) => {
            let known = stations::station_at(table, place);
            replace(table, place, counted(heard, known.station));
            0
        }
        Err(_) if stations::held(table) == Station::LIMIT => FULL,
        Err(place) => {
            let new = Station {
                address: heard.source,
                ..Station::default()
            };
            insert(table, place, counted(heard, new));
            0
        }
    }
}
