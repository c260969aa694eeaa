// The stations that a box has heard: a table in memory that the caller lends, asked by address and by place.
#![tactic(auto)]

ghost use Rattle.std.specs.Prelude.{◌≡◌, false, [], ◌+◌, ◌*◌, ◌/◌, ◌<◌, ◌≤◌, length, drop};
ghost use Rattle.stations.specs.Table.{memory_length, table_in, station_from, addresses, next_place, place_of, is_at};
ghost use Rattle.stations.specs.Asking.{found_place, found_if, station_of, found_at};

impl Station {
    // The most stations that a table holds.
    pub const LIMIT: usize = 128;

    // A table's memory: a word that says how many stations are held, and four words for each.
    pub const MEMORY: usize = 513;
}

// A source address that was heard: how many PDUs were read from it, how many of those were dropped by echo, and the least path count of those that
// have the path bit. `has_path` is false, and the path count 0, while there was none.
// Kept: C's struct, so the flag stands beside its value.
#[repr(C)]
#[derive(Clone, Copy, Default)]
pub struct Station {
    pub address: u16,
    pub reads: u16,
    pub echoes: u16,
    pub has_path: bool,
    pub shortest_path: u16,
}

// The number 0 and a station, or 56 and a station that is all 0.
// Kept: C gets this struct by value, and `found_if` of specs/Asking.antt makes it.
#[repr(C)]
#[derive(Clone, Copy)]
pub struct Found {
    pub number: u8,
    pub station: Station,
}

// How many stations are held; a memory that says more than 128 is a full table, and it is as long as is said of one. Document 02, W-201.
pub fn held(table: &[u16; Station::MEMORY]) -> usize
    ensures { (result ≡ length (table_in table.now)) × (result ≤ 128) × (length table.now ≡ memory_length) }
{
    usize::from(table[0]).min(Station::LIMIT)
}

fn next_place(
    table: &[u16; Station::MEMORY],
    address: u16,
    end: usize,
    place: usize,
    step: usize,
) -> usize
    requires { (end ≡ length (table_in table.now)) × (end ≤ 128) × (place ≤ end) × (0 < step) × (step ≤ 128) }
    ensures { (result ≡ next_place address (addresses (table_in table.now)) place step) × (result ≤ end) }
{
    let next = place + step;
    if next <= end && table[4 * next - 3] < address {
        next
    } else {
        place
    }
}

// Two steps, the second half as long. Both addresses that the second may look at are read with the first's, so that it does not wait for the first.
// Each choice is a value of its own, and so a move: as `if` in `if` they would be branches, and a search would take nearly twice as long.
fn next_two(
    table: &[u16; Station::MEMORY],
    address: u16,
    end: usize,
    place: usize,
    step: usize,
) -> usize
    requires { (end ≡ length (table_in table.now)) × (end ≤ 128) × (place ≤ end) × (1 < step) × (step ≤ 64) }
    ensures { (result ≡ next_place address (addresses (table_in table.now))
        (next_place address (addresses (table_in table.now)) place step) (step / 2)) × (result ≤ end) }
{
    let half = step / 2;
    let near = place + half;
    let middle = place + step;
    let far = middle + half;
    if far <= end {
        let over_near = table[4 * near - 3] < address;
        let over_middle = table[4 * middle - 3] < address;
        let over_far = table[4 * far - 3] < address;
        let behind = if over_far { far } else { middle };
        let before = if over_near { near } else { place };
        return if over_middle { behind } else { before };
    }
    let next = next_place(table, address, end, place, step);
    next_place(table, address, end, next, half)
}

// Kept: std's `binary_search` promises nothing where the addresses do not rise, and `place_of` of specs/Table.antt says what the steps find there too.
fn place_of(table: &[u16; Station::MEMORY], address: u16) -> usize
    ensures { result ≡ place_of address (addresses (table_in table.now)) }
{
    let end = held(table);
    if next_place(table, address, end, 0, 128) == 128 {
        return 128;
    }
    let mut place: usize = 0;
    for step in [64, 16, 4] {
        place = next_two(table, address, end, place, step);
    }
    next_place(table, address, end, place, 1)
}

fn is_at(table: &[u16; Station::MEMORY], address: u16, place: usize) -> bool
    ensures { result ≡ is_at address (addresses (table_in table.now)) place }
{
    place < held(table) && table[4 * place + 1] == address
}

// The place of an address, or the place where it would stand, found in eight halved steps. Document 02, W-201: listing by rising address.
pub fn find_place(table: &[u16; Station::MEMORY], address: u16) -> Result<usize, usize>
    ensures { result ≡ found_place address (addresses (table_in table.now)) }
{
    let place = place_of(table, address);
    if is_at(table, address, place) {
        Ok(place)
    } else {
        Err(place)
    }
}

fn station_from(table: &[u16; Station::MEMORY], place: usize) -> Station
    requires { place < 128 }
    ensures { (result ≡ station_from (drop (4 * place + 1) table.now)) × (result.shortest_path < 65535) }
{
    let first = 4 * place + 1;
    let path = table[first + 3];
    Station {
        address: table[first],
        reads: table[first + 1],
        echoes: table[first + 2],
        has_path: path != 0,
        shortest_path: path.saturating_sub(1),
    }
}

fn refused() -> Found
    ensures { result ≡ found_if false [] 0 }
{
    Found {
        number: 56,
        station: Station::default(),
    }
}

// The station at a place of the rising order, the lowest address at 0; 56 from the number held on. Document 02, W-201.
pub fn station_at(table: &[u16; Station::MEMORY], place: usize) -> Found
    ensures { (result ≡ found_at place (table_in table.now)) × (result.station.shortest_path < 65535) }
{
    if held(table) <= place {
        return refused();
    }
    Found {
        number: 0,
        station: station_from(table, place),
    }
}

// The station of an address, or 56 where it is not held. Document 02, W-201.
pub fn station_of(table: &[u16; Station::MEMORY], address: u16) -> Found
    ensures { result ≡ station_of address (table_in table.now) }
{
    match find_place(table, address) {
        Ok(place) => station_at(table, place),
        Err(_) => refused(),
    }
}
