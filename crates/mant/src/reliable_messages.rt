// Reliable messages: PDUs that are sent again until they are acknowledged.
ghost use Rattle.std.specs.Prelude.{◌≡◌, length};
ghost use Rattle.retained.specs.Table.{retain, table_retained, retry_step, table_stepped, output_stepped};
ghost use Rattle.lists.specs.Lists.{lists_in};
ghost use Rattle.decision.specs.Decision.{node_of};
ghost use Rattle.node.specs.Answers.{delivery_number, answer_of};
ghost use Rattle.acknowledgements.specs.Delivered.{acknowledge, table_acknowledged, output_acknowledged};
ghost use Rattle.acknowledgements.specs.Hearing.{output_heard};
ghost use Rattle.acknowledgements.specs.Responding.{ask_acknowledge};
ghost use Rattle.boundary.specs.Boundary.{node_from_c, answer_in_c, HearsReliablyInC};

use super::a_node::mant_hear;
use acknowledgements::Sending;
use boundary::{MantAnswer, MantHeardReliably, MantNode};
use retained::{Outcome, Retained};
use retained_operations::Ask;

// Retains a PDU in the first free record of the table, with the time and count 0, and writes nothing. Refusals: 74, 73, 75, 72, 71, 70, in that order.
// `last` is the last accepted time, 0 before the first; the outcome has it for the next call. Document 02, W-210.
pub fn mant_retain(table: &mut [Retained], last: u64, time: u64, pdu: &[u8]) -> Outcome
    ensures { (result ≡ retain table.old last time pdu.now)
        × (table.new ≡ table_retained table.old last time pdu.now) }
{
    let effect = reliable::find_room(table, retained_operations::ask_retain(last, time, pdu));
    reliable::store(table, effect.place, retained::retained_record(time, pdu));
    effect.outcome
}

// One step at a time: the first record in use that was last sent `delay` seconds ago or more is sent again, its bytes written at the start of the output; or,
// where its count is not below `tries`, dropped and reported failed. Where none is due the time is accepted all the same. Refusals: 74, 73, 77, in that
// order. Document 02, W-210.
pub fn mant_retry(
    table: &mut [Retained],
    last: u64,
    time: u64,
    delay: u64,
    tries: u64,
    output: &mut [u8],
) -> Outcome
    ensures { (result ≡ retry_step table.old last time delay tries (length output.old))
        × (table.new ≡ table_stepped table.old last time delay tries (length output.old))
        × (output.new ≡ output_stepped table.old last time delay tries output.old) }
{
    let effect = reliable::find_due(
        table,
        retained_operations::ask_step(last, time, delay, tries, output.len()),
    );
    reliable::resend(table, effect, output);
    effect.outcome
}

// What a PDU that the node with the own address heard does, by the number for delivery in the node's answer and by its bytes: a delivered acknowledgement frees
// the first record that it matches; a delivered PDU of protocol 1 with ACK clear is answered by an acknowledgement, written at the start of the output. Bytes
// that are no PDU, one for another address and one with an added header do nothing, whatever the answer. Refusals: 10 and 11 where an acknowledgement is due,
// 74, 77, in that order. It takes no time. Document 02, W-210.
pub fn mant_acknowledge(
    table: &mut [Retained],
    last: u64,
    own: u16,
    received: &[u8],
    answer: MantAnswer,
    sending: Sending,
    output: &mut [u8],
) -> Outcome
    ensures { (result ≡ acknowledge table.old last own answer.delivery sending (length output.old) received.now)
        × (table.new ≡ table_acknowledged table.old own answer.delivery sending (length output.old) received.now)
        × (output.new ≡ output_acknowledged (length table.old) own answer.delivery sending received.now
        output.old) }
{
    let ask = acknowledgements::respond(
        output,
        table.len(),
        last,
        own,
        received,
        answer.delivery,
        sending,
    );
    reliable::free(table, ask)
}

// What a node answers for a PDU, and what the PDU asks of a table.
#[derive(Clone, Copy)]
struct Heard {
    answer: MantAnswer,
    ask: Ask,
}

fn hear_and_respond(
    output: &mut [u8],
    records: usize,
    last: u64,
    node: MantNode,
    lists: &[u16],
    received: &[u8],
    sending: Sending,
) -> Heard
    ensures { (result.answer ≡ answer_in_c (answer_of (node_of (node_from_c node) (lists_in lists.now)) (length output.old)
        received.now))
        × (result.ask ≡ ask_acknowledge last node.own (delivery_number (node_of (node_from_c node) (lists_in lists.now))
        (length output.old) received.now) sending (length output.old) received.now)
        × (output.new ≡ output_heard (node_of (node_from_c node) (lists_in lists.now)) records sending received.now
        output.old) }
{
    let answer = mant_hear(node, &lists[..], &received[..], output);
    let ask = acknowledgements::respond(
        output,
        records,
        last,
        node.own,
        &received[..],
        answer.delivery,
        sending,
    );
    Heard { answer, ask }
}

// What `mant_hear` answers, whatever the table holds; and what the PDU then does, as by `mant_acknowledge` with the node's own delivery. The output has the
// repeated PDU or the acknowledgement, at its start: one PDU never calls for both. Document 02, W-210.
pub fn mant_hear_reliably(
    node: MantNode,
    lists: &[u16],
    table: &mut [Retained],
    last: u64,
    received: &[u8],
    sending: Sending,
    output: &mut [u8],
) -> MantHeardReliably
    ensures { HearsReliablyInC (node_of (node_from_c node) (lists_in lists.now))
        table.old last sending received.now output.old result table.new output.new }
{
    let heard = hear_and_respond(output, table.len(), last, node, lists, received, sending);
    let outcome = reliable::free(table, heard.ask);
    MantHeardReliably {
        answer: heard.answer,
        outcome,
    }
}
