// Header and payload of a PDU, each in bytes of its own, read as if they were joined.
#![tactic(auto)]

ghost use Rattle.std.specs.Prelude.{◌≡◌, ◌++◌};
ghost use Rattle.octets.specs.Octets.{at};
ghost use Rattle.pdu.specs.Header.{path_count_in};
ghost use Rattle.split_pdu.specs.SplitPdu.{joined_number};

use pdu::fields;

// Byte `i` of the two joined, and 0 past the end.
fn joined_byte(header: &[u8], payload: &[u8], i: usize) -> u8
    ensures { result ≡ at (header.now ++ payload.now) i }
{
    if i < header.len() {
        header[i]
    } else {
        octets::byte(payload, i - header.len())
    }
}

// The path count that the two joined show.
fn joined_count(header: &[u8], payload: &[u8], byte0: u8) -> u8
    requires { byte0 ≡ at (header.now ++ payload.now) 0 }
    ensures { result ≡ path_count_in (header.now ++ payload.now) }
{
    if byte0 / 2 % 2 == 1 {
        joined_byte(header, payload, fields::path_count_place(byte0))
    } else {
        0
    }
}

// The number of the first thing wrong with the two joined as one PDU: 1 to 6, then 63 for bytes after the PDU or a split not at the header's end, or 0.
// They are not put together, and no more than four bytes of them are looked at. Document 02, W-202, "on the two joined".
pub fn joined_number(header: &[u8], payload: &[u8]) -> u8
    ensures { result ≡ joined_number header.now payload.now }
{
    let total = header.len() + payload.len();
    let byte0 = joined_byte(header, payload, 0);
    if let Err(refusal) = fields::start_fault(total, byte0) {
        return refusal.number();
    }
    let path_count = joined_count(header, payload, byte0);
    let payload_length = fields::payload_length(
        joined_byte(header, payload, 2),
        joined_byte(header, payload, 3),
    );
    let header_length = fields::header_length_in(byte0, path_count);
    let pdu_length = header_length + octets::word_value(payload_length);
    if let Err(refusal) = fields::end_fault(total, header_length, pdu_length) {
        return refusal.number();
    }
    if header_length != header.len() {
        return 63;
    }
    if pdu_length != total {
        return 63;
    }
    0
}
