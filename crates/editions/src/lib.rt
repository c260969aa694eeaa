// A PDU as an edition of the protocol shows it, over what the wire says.
#![tactic(auto)]

ghost use Rattle.std.specs.Prelude.{◌≡◌, length};
ghost use Rattle.editions.specs.Editions.{known, bits_under, shown_with};
ghost use Rattle.editions.specs.Editions.{write_again_under, written_again_under};

use pdu::{Destination, Header, Written};

// The three bits after the port: in edition 1.1 one reserved number, 0 to 7; in 1.2 the encrypted flag and a reserved number, 0 to 3.
#[derive(Clone, Copy)]
pub enum Bits {
    Reserved(u8),
    Flagged { encrypted: bool, reserved: u8 },
}

// The fields of a header as an edition shows them, in the order of document 01's table. A PDU ID or path count that the PDU does not have is 0.
#[derive(Clone, Copy)]
pub struct Shown {
    pub protocol: u8,
    pub time_stamp_request: bool,
    pub path_bit: bool,
    pub port: u8,
    pub bits: Bits,
    pub ack: bool,
    pub added_header: bool,
    pub hop_limit: u8,
    pub payload_length: u16,
    pub source: u16,
    pub destination: Destination,
    pub pdu_id: u8,
    pub path_count: u8,
}

// Whether a number names an edition: 11 is 1.1 and 12 is 1.2. Document 02, W-209.
pub fn is_known(edition: u64) -> bool
    ensures { result ≡ known edition }
{
    edition == 11 || edition == 12
}

// The three bits after the port as an edition shows them, by the byte that holds them; under any number but 11 as 1.2 does.
// Document 02, W-209.
pub fn bits_under(edition: u64, byte1: u8) -> Bits
    ensures { result ≡ bits_under edition byte1 }
{
    if edition == 11 {
        Bits::Reserved(byte1 / 2 % 8)
    } else {
        Bits::Flagged {
            encrypted: byte1 / 8 % 2 == 1,
            reserved: byte1 / 2 % 4,
        }
    }
}

// Kept: `..header` copies fields between values of one type, and a header is of another.
// A header as it is shown with these bits in place of the wire's flag and reserved number. Document 02, W-209.
pub fn shown_with(bits: Bits, header: Header) -> Shown
    ensures { result ≡ shown_with bits header }
{
    let destination = header.destination;
    Shown {
        protocol: header.protocol,
        time_stamp_request: header.time_stamp_request,
        path_bit: header.path_bit,
        port: header.port,
        bits,
        ack: header.ack,
        added_header: header.added_header,
        hop_limit: header.hop_limit,
        payload_length: header.payload_length,
        source: header.source,
        destination,
        pdu_id: header.pdu_id,
        path_count: header.path_count,
    }
}

// Writes the PDU at the start of `bytes` again, from what the edition shows of it, at the start of the output: the same bytes, answered with 0 and their
// number. Answers 17 for an edition that is not known, 1 to 6 where there is no PDU and 14 where the output is too short, each with length 0 and the
// output as it was. Output past the PDU keeps its bytes. Document 01, "Numbers answered", a PDU written again; document 02, W-209.
pub fn write_again(edition: u64, bytes: &[u8], output: &mut [u8]) -> Written
    ensures { (result ≡ write_again_under edition bytes.now (length output.old))
        × (output.new ≡ written_again_under edition bytes.now output.old) }
{
    if !is_known(edition) {
        return Written {
            number: 17,
            length: 0,
        };
    }
    writing::write_again(bytes, output)
}
