// What C sets a node to, and what it sees of the node's answer.
ghost use Rattle.std.specs.Prelude.{◌≡◌};
ghost use Rattle.boundary.specs.Boundary.{choice_from_c, node_from_c, answer_in_c, answer_from_c};

use decision::{Choice, Settings};
use node::Answer;
use retained::Outcome;

// What a node is set to. Edition 11 is 1.1 and 12 is 1.2. Of each kind of list a number chooses: 1 the first of its two lists, 2 the second; 0, and any
// other number, chooses none.
#[repr(C)]
#[derive(Clone, Copy)]
pub struct MantNode {
    pub edition: u64,
    pub own: u16,
    pub echo: bool,
    pub repeating: bool,
    pub source_pass: u8,
    pub source_reject: u8,
    pub destination_pass: u8,
    pub destination_reject: u8,
}

// What a node answers for one PDU. `last_sender` counts where `has_last_sender` is set, and is 0 where not. The delivered payload lies at
// `delivered_place` in the received bytes; place and length are 0 where nothing is delivered. `repeated_length` is 0 where nothing is repeated. `taken`
// is where the next PDU begins in the received bytes, and 0 where the edition is not known, a list is at fault or no PDU can be read.
#[repr(C)]
#[derive(Clone, Copy, Default)]
pub struct MantAnswer {
    pub delivery: u8,
    pub repeat: u8,
    pub has_last_sender: bool,
    pub last_sender: u16,
    pub delivered_place: usize,
    pub delivered_length: usize,
    pub repeated_length: usize,
    pub taken: usize,
}

// The node's answer for a PDU, and the table's number for it: 0, or 55 where its source is new while there is no room for another.
#[repr(C)]
#[derive(Clone, Copy)]
pub struct MantListened {
    pub answer: MantAnswer,
    pub table_number: u8,
}

// The node's answer for a PDU, and what was done by it in a table of retained PDUs and in the output.
#[repr(C)]
#[derive(Clone, Copy)]
pub struct MantHeardReliably {
    pub answer: MantAnswer,
    pub outcome: Outcome,
}

fn choice_from_c(number: u8) -> Choice
    ensures { result ≡ choice_from_c number }
{
    match number {
        1 => Choice::First,
        2 => Choice::Second,
        _ => Choice::Neither,
    }
}

// What C sets a node to, as the layer has it: of each kind by itself, 1 chooses the first list, 2 the second, and any other number none.
// Document 02, W-211.
pub fn node_from_c(node: MantNode) -> Settings
    ensures { result ≡ node_from_c node }
{
    Settings {
        edition: node.edition,
        own: node.own,
        echo: node.echo,
        repeating: node.repeating,
        source_pass: choice_from_c(node.source_pass),
        source_reject: choice_from_c(node.source_reject),
        destination_pass: choice_from_c(node.destination_pass),
        destination_reject: choice_from_c(node.destination_reject),
    }
}

// A node's answer, as C sees it. Document 01, "One PDU at one node"; document 02, W-205.
pub fn answer_in_c(answer: Answer) -> MantAnswer
    ensures { result ≡ answer_in_c answer }
{
    let sender = answer.last_sender;
    MantAnswer {
        delivery: answer.delivery,
        repeat: answer.repeat,
        has_last_sender: sender.is_some(),
        last_sender: sender.unwrap_or(0),
        delivered_place: answer.delivered_place,
        delivered_length: answer.delivered_length,
        repeated_length: answer.repeated_length,
        taken: answer.taken,
    }
}

// An answer that C gives back, as the layer has it. An address without its flag does not count. Document 01, "One PDU at one node"; document 02, W-205.
pub fn answer_from_c(answer: MantAnswer) -> Answer
    ensures { result ≡ answer_from_c answer }
{
    Answer {
        delivery: answer.delivery,
        repeat: answer.repeat,
        delivered_place: answer.delivered_place,
        delivered_length: answer.delivered_length,
        repeated_length: answer.repeated_length,
        taken: answer.taken,
        last_sender: answer.has_last_sender.then_some(answer.last_sender),
    }
}
