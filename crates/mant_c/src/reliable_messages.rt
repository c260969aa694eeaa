// Reliable messages: PDUs that are sent again until they are acknowledged.
ghost use Rattle.std.specs.Prelude.{◌≡◌, length};
ghost use Rattle.retained.specs.Table.{retain, table_retained, retry_step, table_stepped, output_stepped};
ghost use Rattle.lists.specs.Lists.{lists_in};
ghost use Rattle.decision.specs.Decision.{node_of};
ghost use Rattle.acknowledgements.specs.Delivered.{acknowledge, table_acknowledged, output_acknowledged};
ghost use Rattle.boundary.specs.Boundary.{node_from_c, HearsReliablyInC};

use acknowledgements::Sending;
use boundary::{MantAnswer, MantHeardReliably, MantNode};
use retained::{Outcome, Retained};

#[unsafe(no_mangle)]
pub extern "C" fn mant_retain(table: &mut [Retained], last: u64, time: u64, pdu: &[u8]) -> Outcome
    ensures { (result ≡ retain table.old last time pdu.now)
        × (table.new ≡ table_retained table.old last time pdu.now) }
{
    mant::reliable_messages::mant_retain(table, last, time, pdu)
}

#[unsafe(no_mangle)]
pub extern "C" fn mant_retry(
    table: &mut [Retained],
    last: u64,
    time: u64,
    delay: u64,
    tries: u64,
    output: &mut [u8],
) -> Outcome
    ensures { (result ≡ retry_step table.old last time delay tries (length output.old))
        × (table.new ≡ table_stepped table.old last time delay tries (length output.old))
        × (output.new ≡ output_stepped table.old last time delay tries output.old) }
{
    mant::reliable_messages::mant_retry(table, last, time, delay, tries, output)
}

#[unsafe(no_mangle)]
pub extern "C" fn mant_acknowledge(
    table: &mut [Retained],
    last: u64,
    own: u16,
    received: &[u8],
    answer: MantAnswer,
    sending: Sending,
    output: &mut [u8],
) -> Outcome
    ensures { (result ≡ acknowledge table.old last own answer.delivery sending (length output.old) received.now)
        × (table.new ≡ table_acknowledged table.old own answer.delivery sending (length output.old) received.now)
        × (output.new ≡ output_acknowledged (length table.old) own answer.delivery sending received.now
        output.old) }
{
    mant::reliable_messages::mant_acknowledge(table, last, own, received, answer, sending, output)
}

#[unsafe(no_mangle)]
pub extern "C" fn mant_hear_reliably(
    node: MantNode,
    lists: &[u16],
    table: &mut [Retained],
    last: u64,
    received: &[u8],
    sending: Sending,
    output: &mut [u8],
) -> MantHeardReliably
    ensures { HearsReliablyInC (node_of (node_from_c node) (lists_in lists.now))
        table.old last sending received.now output.old result table.new output.new }
{
    mant::reliable_messages::mant_hear_reliably(node, lists, table, last, received, sending, output)
}
