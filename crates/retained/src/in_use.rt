// A record in use: whether it is, the names of the PDU that it holds, and whether that is due.
ghost use Rattle.std.specs.Prelude.{◌≡◌, cond, ◌&&◌, ◌+◌, ◌/◌, ◌%◌, eqb, leb};
ghost use Rattle.pdu.specs.Header.{is_set, path_bit};
ghost use Rattle.retained.specs.Records.{is_used, placed_names, is_named, is_due};

use super::{Names, Retained};

// Whether a record is in use, by the bytes that the header of every retained PDU has. Any memory has an answer.
pub fn is_used(r: Retained) -> bool
    ensures { result ≡ is_used r }
{
    let bytes = r.pdu;
    let payload = pdu::fields::payload_length(bytes[2], bytes[3]);
    is_whole(r.length, bytes[0], bytes[1], bytes[9], payload)
}

// Version 0, protocol 1, a destination, ACK clear; at most 256 bytes; no path address; as long as header and payload.
fn is_whole(size: usize, byte0: u8, byte1: u8, count: u8, payload: u16) -> bool
    ensures { result ≡ (eqb (byte0 / 8) 1 && (eqb (byte0 % 2) 1 && (eqb (byte1 % 2) 0 && (leb size 256
        && (eqb (cond (is_set (path_bit byte0)) count 0) 0 && eqb (9 + path_bit byte0 + payload) size))))) }
{
    byte0 / 8 == 1
        && byte0 % 2 == 1
        && byte1 % 2 == 0
        && size <= 256
        && (byte0 / 2 % 2 == 0 || count == 0)
        && 9 + usize::from(byte0 / 2 % 2) + usize::from(payload) == size
}

// The names of the PDU that a record in use holds, by their places. Any memory has an answer.
pub fn names_in(r: Retained) -> Names
    ensures { result ≡ placed_names r }
{
    let bytes = r.pdu;
    Names {
        source: octets::word_of(bytes[4], bytes[5]),
        destination: octets::word_of(bytes[6], bytes[7]),
        pdu_id: bytes[8],
    }
}

// Whether a record is in use and has these names.
#[tactic(auto, unfolding(crate::specs::Records::is_named), using(crate::proofs::Used::names_are))]
pub fn is_named(r: Retained, names: Names) -> bool
    ensures { result ≡ is_named names r }
{
    // The ID first: it is what differs among the commands of one base to one gate.
    let held = names_in(r);
    held.pdu_id == names.pdu_id && held == names && is_used(r)
}

// Whether a record is in use and was last sent at least the delay ago.
#[tactic(auto, unfolding(crate::specs::Records::is_due))]
pub fn is_due(r: Retained, time: u64, delay: u64) -> bool
    ensures { result ≡ is_due time delay r }
{
    r.sent_at <= time && delay <= time - r.sent_at && is_used(r)
}
