// A PDU that a node heard, counted in its table of stations.
#![tactic(auto)]

ghost use Rattle.std.specs.Prelude.{◌≡◌};
ghost use Rattle.node_stations.specs.CountedAnswers.{is_echo_number, heard_of, answer_number, memory_after_answer};

use node::Answer;
use stations::Station;
use stations_update::Heard;

// Kept as numbers: `delivery` of node's `Answer` is one, as C gets it.
fn is_echo_number(number: u8) -> bool
    ensures { result ≡ is_echo_number number }
{
    number == 30 || number == 42
}

// The three fields that are counted, each from its bytes; bytes that are not there count as 0.
fn heard_of(received: &[u8], answer: Answer) -> Heard
    ensures { result ≡ heard_of answer received.now }
{
    let byte0 = octets::byte(received, 0);
    Heard {
        source: octets::word(received, 4),
        echo: is_echo_number(answer.delivery),
        path_bit: byte0 / 2 % 2 == 1,
        path_count: pdu::fields::path_count_in(received),
    }
}

// Counts the PDU at the start of `received` by what a node answered for it, as after a step of a walk: nothing where no PDU was read. Answers the
// table's number, 0 or 55. Of an answer that is not for these bytes, what they hold is counted. Document 02, W-201.
pub fn count_answer(table: &mut [u16; Station::MEMORY], received: &[u8], answer: Answer) -> u8
    ensures { (result ≡ answer_number answer received.now table.old)
        × (table.new ≡ memory_after_answer answer received.now table.old) }
{
    if answer.taken == 0 {
        return 0;
    }
    stations_update::count(table, heard_of(received, answer))
}
