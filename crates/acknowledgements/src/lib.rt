// What a delivered PDU asks of the table, and the acknowledgement that answers it.
#![tactic(auto)]

ghost use Rattle.std.specs.Prelude.{◌≡◌, cond, ◌&&◌, ◌≤◌, length};
ghost use Rattle.pdu.specs.Sizes.{pdu_length};
ghost use Rattle.decision.specs.Decision.{is_for_own};
ghost use Rattle.retained_operations.specs.declared.Kind.TheVariants.{Search, Answer, Nothing};
ghost use Rattle.retained.specs.Records.{exchanged};
ghost use Rattle.acknowledgements.specs.Delivered.{is_for_this, is_delivered_here, ack_header, output_acknowledged};
ghost use Rattle.acknowledgements.specs.Responding.{early_number, late_number, ask_for, ask_acknowledge, is_written};

use pdu::{Destination, Header};
use retained::Names;
use retained_operations::{Ask, Kind};

// What an acknowledgement is sent with. Hop limit and port are wider than their bits, so that a number too large arrives whole and is refused.
#[repr(C)]
#[derive(Clone, Copy)]
pub struct Sending {
    pub hop_limit: u64,
    pub port: u64,
    pub time_stamp_request: bool,
    pub with_path: bool,
}

fn is_for_own(own: u16, destination: Destination) -> bool
    ensures { result ≡ is_for_own own destination }
{
    match destination {
        Destination::Everyone => false,
        Destination::Address(address) => address == own,
    }
}

fn is_for_this(own: u16, header: Header) -> bool
    ensures { result ≡ is_for_this own header }
{
    header.protocol == 1 && is_for_own(own, header.destination) && !header.added_header
}

// Whether a PDU of protocol 1 was delivered at the node with this own address, by the number that the node gave and by the bytes.
#[tactic(auto, unfolding(crate::specs::Delivered::is_delivered_here))]
fn is_delivered(own: u16, delivery: u8, received: &[u8]) -> bool
    ensures { result ≡ is_delivered_here own delivery received.now }
{
    delivery == 0 && pdu::fault(received) == 0 && is_for_this(own, pdu::header_of(received))
}

fn kind_for(due: bool, frees: bool) -> Kind
    ensures { result ≡ cond due Answer (cond frees Search Nothing) }
{
    if due {
        Kind::Answer
    } else if frees {
        Kind::Search
    } else {
        Kind::Nothing
    }
}

fn names_for(due: bool, names: Names) -> Names
    ensures { result ≡ cond due names (exchanged names) }
{
    if due {
        names
    } else {
        retained::exchange(names)
    }
}

fn early_number(due: bool, sending: Sending) -> u8
    ensures { result ≡ early_number due sending }
{
    if due && 7 < sending.hop_limit {
        10
    } else if due && 15 < sending.port {
        11
    } else {
        0
    }
}

fn late_number(due: bool, room: usize, size: usize) -> u8
    ensures { result ≡ late_number due room size }
{
    if due && room < size { 77 } else { 0 }
}

// The length of an acknowledgement: 9 received, and the path count with the path bit.
fn ack_length(sending: Sending, names: Names) -> usize
    ensures { result ≡ pdu_length (ack_header sending names) }
{
    if sending.with_path { 10 } else { 9 }
}

fn ask_for(due: bool, frees: bool, last: u64, sending: Sending, room: usize, names: Names) -> Ask
    ensures { result ≡ ask_for due frees last sending room names }
{
    let length = ack_length(sending, names);
    Ask {
        kind: kind_for(due, frees),
        early: early_number(due, sending),
        late: late_number(due, room, length),
        last,
        time: last,
        names: names_for(due, names),
        length,
        ..Ask::default()
    }
}

// Kept: every field is written, so that all of an acknowledgement stands here.
fn ack_header(sending: Sending, names: Names) -> Header
    requires { (sending.hop_limit ≤ 7) × (sending.port ≤ 15) }
    ensures { result ≡ ack_header sending names }
{
    Header {
        protocol: 1,
        time_stamp_request: sending.time_stamp_request,
        path_bit: sending.with_path,
        port: sending.port as u8,
        encrypted: false,
        reserved: 0,
        ack: true,
        added_header: false,
        hop_limit: sending.hop_limit as u8,
        payload_length: 0,
        source: names.destination,
        destination: Destination::Address(names.source),
        pdu_id: names.pdu_id,
        path_count: 0,
    }
}

fn is_written(records: usize, due: bool, early: u8, late: u8) -> bool
    ensures { result ≡ is_written records due early late }
{
    due && early == 0 && records == 16 && late == 0
}

// What a PDU that a node heard asks of a table of so many records: that the record which it acknowledges is freed, that it is said to be answered, or nothing.
// Its acknowledgement is written where one is due and nothing is refused, at the start of the output. Document 02, W-210.
pub fn respond(
    output: &mut [u8],
    records: usize,
    last: u64,
    own: u16,
    received: &[u8],
    delivery: u8,
    sending: Sending,
) -> Ask
    ensures { (result ≡ ask_acknowledge last own delivery sending (length output.old) received.now)
        × (output.new ≡ output_acknowledged records own delivery sending received.now output.old) }
{
    let here = is_delivered(own, delivery, received);
    let header = pdu::header_of(received);
    let names = retained::names_of(received);
    let due = here && !header.ack;
    let frees = here && header.ack;
    let ask = ask_for(due, frees, last, sending, output.len(), names);
    if is_written(records, due, ask.early, ask.late) {
        writing::put_header(output, ack_header(sending, names));
    }
    ask
}
