// Stations heard: who was heard, how often, and over how short a path.
ghost use Rattle.std.specs.Prelude.{◌≡◌, length};
ghost use Rattle.lists.specs.Lists.{lists_in};
ghost use Rattle.decision.specs.Decision.{node_of};
ghost use Rattle.stations.specs.Table.{table_in};
ghost use Rattle.stations.specs.Asking.{station_of, found_at};
ghost use Rattle.stations_update.specs.Counting.{count_number, memory_after_count};
ghost use Rattle.stations_update.specs.Removing.{removal_number, memory_after_removal};
ghost use Rattle.node_stations.specs.CountedAnswers.{answer_number, memory_after_answer};
ghost use Rattle.boundary.specs.Boundary.{node_from_c, answer_from_c, ListensInC};

use super::a_node::mant_hear;
use boundary::{MantAnswer, MantListened, MantNode};
use stations::{Found, Station};
use stations_update::Heard;

// How many stations a table holds. A memory that says more than 128 is a full table. Document 02, W-201.
pub fn mant_stations_held(table: &[u16; Station::MEMORY]) -> usize
    ensures { result ≡ length (table_in table.now) }
{
    stations::held(table)
}

// The station at a place of the rising order of addresses, the lowest at 0; 56 from the number held on. Document 02, W-201.
pub fn mant_station_at(table: &[u16; Station::MEMORY], place: usize) -> Found
    ensures { result ≡ found_at place (table_in table.now) }
{
    stations::station_at(table, place)
}

// The station of an address, or 56 where it is not held. Document 02, W-201.
pub fn mant_station_of(table: &[u16; Station::MEMORY], address: u16) -> Found
    ensures { result ≡ station_of address (table_in table.now) }
{
    stations::station_of(table, address)
}

// Removes the station of an address: 0, or 56 where it is not held and the table stays as it was. Document 02, W-201.
pub fn mant_remove_station(table: &mut [u16; Station::MEMORY], address: u16) -> u8
    ensures { (result ≡ removal_number address (table_in table.old))
        × (table.new ≡ memory_after_removal address table.old) }
{
    stations_update::remove(table, address)
}

// Counts a PDU that was read: 0, or 55 where its source is new while 128 stations are held, and the table stays as it was. Document 02, W-201.
pub fn mant_count_heard(table: &mut [u16; Station::MEMORY], heard: Heard) -> u8
    ensures { (result ≡ count_number heard table.old) × (table.new ≡ memory_after_count heard table.old) }
{
    stations_update::count(table, heard)
}

// Counts the PDU at the start of `received` by what a node answered for it, as after a step of a walk; nothing where no PDU was read. Answers the
// table's number, 0 or 55. Of an answer that is not for these bytes, what they hold is counted. Document 02, W-201.
pub fn mant_count_answer(
    table: &mut [u16; Station::MEMORY],
    received: &[u8],
    answer: MantAnswer,
) -> u8
    ensures { (result ≡ answer_number (answer_from_c answer) received.now table.old)
        × (table.new ≡ memory_after_answer (answer_from_c answer) received.now table.old) }
{
    node_stations::count_answer(table, received, boundary::answer_from_c(answer))
}

// What `mant_hear` answers and leaves, whatever the table holds; and the PDU counted in the table as by `mant_count_answer`, if it was read, so nothing with
// 17 or a fault of the lists. The table's number stands beside the answer. Document 02, W-201, W-209 and W-211.
pub fn mant_hear_and_count(
    node: MantNode,
    lists: &[u16],
    received: &[u8],
    output: &mut [u8],
    table: &mut [u16; Station::MEMORY],
) -> MantListened
    ensures { ListensInC (node_of (node_from_c node) (lists_in lists.now))
        received.now output.old table.old result output.new table.new }
{
    let answer = mant_hear(node, &lists[..], &received[..], output);
    MantListened {
        answer,
        table_number: mant_count_answer(table, &received[..], answer),
    }
}
