// A record of a retained PDU, by value.
#![tactic(auto)]

pub mod in_use;

ghost use Rattle.std.specs.Prelude.{◌≡◌};
ghost use Rattle.retained.specs.Records.{is_first_sending, is_retainable, retain_fault, address_of, names_of, exchanged, retained_record, freed_record};

use pdu::{Destination, Header};

// The PDU in its first `length` bytes, when it was last sent, in seconds, and how often it was sent again.
#[repr(C)]
#[derive(Clone, Copy)]
pub struct Retained {
    pub pdu: [u8; 256],
    pub length: usize,
    pub sent_at: u64,
    pub count: u64,
}

// What a retained PDU is known by.
#[repr(C)]
#[derive(Clone, Copy, Default, PartialEq, Eq)]
pub struct Names {
    pub source: u16,
    pub destination: u16,
    pub pdu_id: u8,
}

// What an operation answers: its number, the last accepted time, what was done and to which place, the PDU's names, and the bytes written.
#[repr(C)]
#[derive(Clone, Copy, Default)]
pub struct Outcome {
    pub number: u8,
    pub deed: u8,
    pub last: u64,
    pub place: usize,
    pub names: Names,
    pub length: usize,
}

// Why bytes can't be retained: 75, then 72; 0 where they can. Document 02, W-210.
// Kept: a number, as in C and in definition `retain_fault`.
pub fn retain_fault(bytes: &[u8]) -> u8
    ensures { result ≡ retain_fault bytes.now }
{
    if !is_retainable(bytes) {
        return 75;
    }
    if 256 < bytes.len() { 72 } else { 0 }
}

#[tactic(auto, unfolding(crate::specs::Records::is_retainable, pdu::specs::Reading::exactly_one))]
fn is_retainable(bytes: &[u8]) -> bool
    ensures { result ≡ is_retainable bytes.now }
{
    pdu::fault(bytes) == 0
        && pdu::pdu_length_in(bytes) == bytes.len()
        && is_first_sending(pdu::header_of(bytes))
}

fn is_first_sending(header: Header) -> bool
    ensures { result ≡ is_first_sending header }
{
    header.protocol == 1 && !header.ack && header.path_entries() == 0
}

// What a PDU is known by: source, destination and ID, of any bytes as its header shows them; without a destination, 0. Document 02, W-210.
#[tactic(auto, unfolding(crate::specs::Records::names_of))]
pub fn names_of(bytes: &[u8]) -> Names
    ensures { result ≡ names_of bytes.now }
{
    let header = pdu::header_of(bytes);
    let destination = header.destination;
    Names {
        source: header.source,
        destination: address_of(destination),
        pdu_id: header.pdu_id,
    }
}

fn address_of(destination: Destination) -> u16
    ensures { result ≡ address_of destination }
{
    match destination {
        Destination::Everyone => 0,
        Destination::Address(address) => address,
    }
}

// The same with the addresses exchanged: what its acknowledgement is known by. Document 02, W-210.
pub fn exchange(names: Names) -> Names
    ensures { result ≡ exchanged names }
{
    Names {
        source: names.destination,
        destination: names.source,
        pdu_id: names.pdu_id,
    }
}

// The record of a PDU retained at a time. Document 02, W-210.
pub fn retained_record(time: u64, bytes: &[u8]) -> Retained
    ensures { result ≡ retained_record time bytes.now }
{
    let mut pdu = [0u8; 256];
    octets::put(&mut pdu, 0, bytes);
    Retained {
        pdu,
        length: bytes.len(),
        sent_at: time,
        count: 0,
    }
}

// A record that was dropped or freed: all zeros. Document 02, W-210.
pub fn freed_record() -> Retained
    ensures { result ≡ freed_record }
{
    Retained {
        pdu: [0u8; 256],
        length: 0,
        sent_at: 0,
        count: 0,
    }
}
