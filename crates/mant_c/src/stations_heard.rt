// Stations heard: who was heard, how often, and over how short a path.
ghost use Rattle.std.specs.Prelude.{◌≡◌, length};
ghost use Rattle.lists.specs.Lists.{lists_in};
ghost use Rattle.decision.specs.Decision.{node_of};
ghost use Rattle.stations.specs.Table.{table_in};
ghost use Rattle.stations.specs.Asking.{station_of, found_at};
ghost use Rattle.stations_update.specs.Counting.{count_number, memory_after_count};
ghost use Rattle.stations_update.specs.Removing.{removal_number, memory_after_removal};
ghost use Rattle.node_stations.specs.CountedAnswers.{answer_number, memory_after_answer};
ghost use Rattle.boundary.specs.Boundary.{node_from_c, answer_from_c, ListensInC};

use boundary::{MantAnswer, MantListened, MantNode};
use stations::{Found, Station};
use stations_update::Heard;

#[unsafe(no_mangle)]
pub extern "C" fn mant_stations_held(table: &[u16; Station::MEMORY]) -> usize
    ensures { result ≡ length (table_in table.now) }
{
    mant::stations_heard::mant_stations_held(table)
}

#[unsafe(no_mangle)]
pub extern "C" fn mant_station_at(table: &[u16; Station::MEMORY], place: usize) -> Found
    ensures { result ≡ found_at place (table_in table.now) }
{
    mant::stations_heard::mant_station_at(table, place)
}

#[unsafe(no_mangle)]
pub extern "C" fn mant_station_of(table: &[u16; Station::MEMORY], address: u16) -> Found
    ensures { result ≡ station_of address (table_in table.now) }
{
    mant::stations_heard::mant_station_of(table, address)
}

#[unsafe(no_mangle)]
pub extern "C" fn mant_remove_station(table: &mut [u16; Station::MEMORY], address: u16) -> u8
    ensures { (result ≡ removal_number address (table_in table.old))
        × (table.new ≡ memory_after_removal address table.old) }
{
    mant::stations_heard::mant_remove_station(table, address)
}

#[unsafe(no_mangle)]
pub extern "C" fn mant_count_heard(table: &mut [u16; Station::MEMORY], heard: Heard) -> u8
    ensures { (result ≡ count_number heard table.old) × (table.new ≡ memory_after_count heard table.old) }
{
    mant::stations_heard::mant_count_heard(table, heard)
}

#[unsafe(no_mangle)]
pub extern "C" fn mant_count_answer(
    table: &mut [u16; Station::MEMORY],
    received: &[u8],
    answer: MantAnswer,
) -> u8
    ensures { (result ≡ answer_number (answer_from_c answer) received.now table.old)
        × (table.new ≡ memory_after_answer (answer_from_c answer) received.now table.old) }
{
    mant::stations_heard::mant_count_answer(table, received, answer)
}

#[unsafe(no_mangle)]
pub extern "C" fn mant_hear_and_count(
    node: MantNode,
    lists: &[u16],
    received: &[u8],
    output: &mut [u8],
    table: &mut [u16; Station::MEMORY],
) -> MantListened
    ensures { ListensInC (node_of (node_from_c node) (lists_in lists.now))
        received.now output.old table.old result output.new table.new }
{
    mant::stations_heard::mant_hear_and_count(node, lists, received, output, table)
}
