// The fields of a header, each at its place in the bytes; a byte that is not there counts as 0.
ghost use Rattle.std.specs.Prelude.{◌≡◌, ◌+◌, ◌*◌, ◌≤◌, not, ◌&&◌, eqb};
ghost use Rattle.pdu.specs.Header.{is_set, protocol, path_bit, destination_bit, payload_length};
ghost use Rattle.pdu.specs.Header.{pdu_id_place, path_count_place, destination_in, pdu_id_in, path_count_in, header_with};
ghost use Rattle.pdu.specs.Sizes.{header_limit};
ghost use Rattle.pdu.specs.Reading.{start_fault, end_fault};

use super::{Destination, Header, Refusal};
use octets::byte_value;

// What so many bytes that begin with `byte0` are refused for before their header is looked at.
// Document 01, "Numbers answered", 1 to 4.
pub fn start_fault(there: usize, byte0: u8) -> Result<(), Refusal>
    ensures { result ≡ start_fault there byte0 }
{
    if there < Header::FIXED_LENGTH {
        return Err(Refusal::TooShort);
    }
    if byte0 / 64 != 0 {
        return Err(Refusal::WrongVersion);
    }
    if 1 < byte0 / 8 % 8 {
        return Err(Refusal::UnknownProtocol);
    }
    if no_destination(byte0) {
        return Err(Refusal::NoDestination);
    }
    Ok(())
}

// What so many bytes are refused for as a PDU of those lengths. Document 01, "Numbers answered", 5 and 6.
pub fn end_fault(there: usize, header_length: usize, pdu_length: usize) -> Result<(), Refusal>
    ensures { result ≡ end_fault there header_length pdu_length }
{
    if there < header_length {
        return Err(Refusal::HeaderCut);
    }
    if there < pdu_length {
        return Err(Refusal::PayloadCut);
    }
    Ok(())
}

// Reliable service without a destination.
fn no_destination(byte0: u8) -> bool
    ensures { result ≡ (eqb (protocol byte0) 1 && not (is_set (destination_bit byte0))) }
{
    byte0 / 8 % 8 == 1 && byte0 % 2 != 1
}

// A header: the fields that every header has as bytes show them, and these in the fields that byte 0 calls for, found before.
// Document 01, "Header, byte by byte".
pub fn header_from(bytes: &[u8], destination: Destination, pdu_id: u8, path_count: u8) -> Header
    ensures { result ≡ header_with bytes.now destination pdu_id path_count }
{
    let byte0 = octets::byte(bytes, 0);
    let byte1 = octets::byte(bytes, 1);
    let byte2 = octets::byte(bytes, 2);
    Header {
        protocol: byte0 / 8 % 8,
        time_stamp_request: byte0 / 4 % 2 == 1,
        path_bit: byte0 / 2 % 2 == 1,
        port: byte1 / 16,
        encrypted: byte1 / 8 % 2 == 1,
        reserved: byte1 / 2 % 4,
        ack: byte1 % 2 == 1,
        added_header: byte2 / 128 == 1,
        hop_limit: byte2 / 16 % 8,
        payload_length: payload_length(byte2, octets::byte(bytes, 3)),
        source: octets::word(bytes, 4),
        destination,
        pdu_id,
        path_count,
    }
}

// The payload's length by the bytes that hold it, 12 bits. Document 01, "Header, byte by byte": bytes 2 and 3.
pub fn payload_length(byte2: u8, byte3: u8) -> u16
    ensures { result ≡ payload_length byte2 byte3 }
{
    u16::from(byte2 % 16) * 256 + u16::from(byte3)
}

// The header's length by byte 0 and the path count: up to the count, its own byte if the path bit is set, and 2 bytes for each address.
// Document 01, "Header, byte by byte", the fields called for.
pub fn header_length_in(byte0: u8, path_count: u8) -> usize
    ensures { (result ≡ path_count_place byte0 + path_bit byte0 + 2 * path_count) × (result ≤ header_limit) }
{
    path_count_place(byte0) + byte_value(byte0 / 2 % 2) + 2 * byte_value(path_count)
}

// Who the bytes are for, by byte 0: the address after byte 5, or everyone. Document 01, "Header, byte by byte", the first field called for.
pub fn destination_in(bytes: &[u8]) -> Destination
    ensures { result ≡ destination_in bytes.now }
{
    let byte0 = octets::byte(bytes, 0);
    if byte0 % 2 == 1 {
        Destination::Address(octets::word(bytes, Header::FIXED_LENGTH))
    } else {
        Destination::Everyone
    }
}

// The PDU ID at its place; 0 where byte 0 calls for none. Document 01, "Header, byte by byte", the second field called for.
pub fn pdu_id_in(bytes: &[u8]) -> u8
    ensures { result ≡ pdu_id_in bytes.now }
{
    let byte0 = octets::byte(bytes, 0);
    if byte0 / 8 % 8 == 1 {
        octets::byte(bytes, pdu_id_place(byte0))
    } else {
        0
    }
}

// The path count at its place; 0 where byte 0 calls for none. Document 01, "Header, byte by byte", the third field called for.
pub fn path_count_in(bytes: &[u8]) -> u8
    ensures { result ≡ path_count_in bytes.now }
{
    let byte0 = octets::byte(bytes, 0);
    if byte0 / 2 % 2 == 1 {
        octets::byte(bytes, path_count_place(byte0))
    } else {
        0
    }
}

// Where the PDU ID stands, if there is one. Document 01, "Header, byte by byte", after the destination.
pub fn pdu_id_place(byte0: u8) -> usize
    ensures { result ≡ pdu_id_place byte0 }
{
    Header::FIXED_LENGTH + 2 * byte_value(byte0 % 2)
}

// Where the path count stands, if there is one. Document 01, "Header, byte by byte", after destination and PDU ID.
pub fn path_count_place(byte0: u8) -> usize
    ensures { (result ≡ path_count_place byte0) × (6 ≤ result) × (result ≤ 9) }
{
    pdu_id_place(byte0) + byte_value(octets::flag(byte0 / 8 % 8 == 1))
}
