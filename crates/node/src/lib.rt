// One PDU at one node: what is delivered, what is repeated, and the repeated PDU.
#![tactic(auto)]

ghost use Rattle.std.specs.Prelude.{◌≡◌, cond, eqb, length, Ok};
ghost use Rattle.octets.specs.Octets.{IsPart};
ghost use Rattle.pdu.specs.Sizes.{header_length, pdu_length};
ghost use Rattle.pdu.specs.Reading.{read_of};
ghost use Rattle.pdu.specs.Parts.{last_sender};
ghost use Rattle.lists.specs.Lists.{Lists, lists_in};
ghost use Rattle.decision.specs.Decision.{node_of, drop_fault};
ghost use Rattle.node.specs.Answers.{node_fault, node_or_reading_fault, given_twice, Hears};

use decision::Settings;
use pdu::Header;

mod repeat;

// What a node returns for one PDU. The delivered payload lies at `delivered_place` in the received bytes; place and length are 0 if nothing is delivered.
// `repeated_length` is 0 if nothing is repeated. `taken` is where the next PDU begins in the received bytes. `last_sender` is who the PDU was heard from.
// If the edition or a list is refused, or no PDU can be read, `taken` is 0 and the last sender unknown.
// Kept: delivery and repeat are document 01's numbers, which the definitions, C and `relay` name.
#[derive(Clone, Copy)]
pub struct Answer {
    pub delivery: u8,
    pub repeat: u8,
    pub delivered_place: usize,
    pub delivered_length: usize,
    pub repeated_length: usize,
    pub taken: usize,
    pub last_sender: Option<u16>,
}

// Hears the PDU at the start of `received`, and returns one number for delivery and one for repeating. It checks in this order: the edition (17); the eight
// lists, chosen or not (20 to 22); reading (1 to 6); echo (30, 42); the lists chosen (31 to 34); the room for a repeat (40). The numbers named here are given
// twice, and nothing is delivered then. Else delivery is 39, 35 or 0, and repeating 41, 36, 37, 38 or 0. The output changes only if the repeat number is 0,
// and then only the bytes of the repeated PDU at its start. Every input gets a result.
// Document 01, "One PDU at one node"; document 02, W-203, W-205, W-209 and W-211.
pub fn hear(settings: Settings, lists: &[u16], received: &[u8], output: &mut [u8]) -> Answer
    ensures { Hears (node_of settings (lists_in lists.now)) received.now output.old result output.new }
{
    let fault = node_fault(settings, lists);
    if fault != 0 {
        return given_twice(fault, 0, None);
    }
    let reading = pdu::read(received);
    let Ok(header) = reading else {
        return given_twice(pdu::reading_number(reading), 0, None);
    };
    let sender = pdu::parts::last_sender(received, header);
    let number = decision::drop_fault(settings, lists, header, received);
    if number != 0 {
        return given_twice(number, header.pdu_length(), sender);
    }
    decide(settings, received, header, sender, output)
}

// What stops every PDU: 17, then the fault of the lists.
fn node_fault(settings: Settings, lists: &[u16]) -> u8
    ensures { result ≡ node_fault (node_of settings (lists_in lists.now)) }
{
    if !editions::is_known(settings.edition) {
        return 17;
    }
    lists::fault(lists).number
}

// Delivery and repeating, of a PDU that no earlier number stopped.
fn decide(
    settings: Settings,
    received: &[u8],
    header: Header,
    sender: Option<u16>,
    output: &mut [u8],
) -> Answer
    requires { (read_of received.now ≡ Ok header) × (sender ≡ last_sender header received.now) }
    ensures { (lists : Lists) → node_or_reading_fault (node_of settings lists) received.now ≡ 0
        → drop_fault (node_of settings lists) header received.now ≡ 0
        → Hears (node_of settings lists) received.now output.old result output.new }
{
    let delivery = decision::delivery_fault(settings, header);
    let repeat = decision::repeat_fault(settings, header);
    if repeat != 0 {
        return answered(header, sender, delivery, repeat, 0);
    }
    let size = repeat::repeated_length(header);
    if output.len() < size {
        return given_twice(40, header.pdu_length(), sender);
    }
    repeat::put_repeat(settings, received, header, output);
    answered(header, sender, delivery, 0, size)
}

// One number given twice: nothing is delivered and nothing repeated. The next PDU begins at `next`.
fn given_twice(number: u8, next: usize, sender: Option<u16>) -> Answer
    ensures { result ≡ given_twice number next sender }
{
    Answer {
        delivery: number,
        repeat: number,
        delivered_place: 0,
        delivered_length: 0,
        repeated_length: 0,
        taken: next,
        last_sender: sender,
    }
}

fn answered(header: Header, sender: Option<u16>, delivery: u8, repeat: u8, size: usize) -> Answer
    ensures { result ≡ record {
      delivery = delivery;
      repeat = repeat;
      delivered_place = cond (eqb delivery 0) (header_length header) 0;
      delivered_length = cond (eqb delivery 0) header.payload_length 0;
      repeated_length = size;
      taken = pdu_length header;
      last_sender = sender;
    } }
{
    let undelivered = Answer {
        delivery,
        repeat,
        delivered_place: 0,
        delivered_length: 0,
        repeated_length: size,
        taken: header.pdu_length(),
        last_sender: sender,
    };
    if delivery != 0 {
        return undelivered;
    }
    Answer {
        delivered_place: header.header_length(),
        delivered_length: usize::from(header.payload_length),
        ..undelivered
    }
}

// The payload that an answer names by place and length, in the caller's own bytes; empty where nothing is delivered. Of an answer that is not for
// these bytes, what they hold at that place, as far as they go. Document 01, "One PDU at one node", 5.
pub fn delivered(received: &[u8], answer: Answer) -> &[u8]
    ensures { IsPart received.entry answer.delivered_place answer.delivered_length result }
{
    octets::part(received, answer.delivered_place, answer.delivered_length)
}
