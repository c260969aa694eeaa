// The serial exchange of document 02, W-202: a PDU as elements in an element, read and written.
#![tactic(auto)]

mod put;

ghost use Rattle.std.specs.Prelude.{◌≡◌, ◌≤◌, length};
ghost use Rattle.elements.specs.Elements.{value_at};
ghost use Rattle.split_pdu.specs.SplitPdu.{joined_number};
ghost use Rattle.exchange.specs.Exchange.{refused_by, exchange_answer, exchange_of};
ghost use Rattle.exchange.specs.Encoding.{exchange_bytes, room_number, written_by, output_by, written_exchange, exchange_output};

use pdu::Written;

// What reading an exchange answers: 0 with place and length of header and payload in the input, or a refusal's number with zeros.
// Kept: C gets this struct by value, with its number.
#[repr(C)]
#[derive(Clone, Copy, Default)]
pub struct Exchange {
    pub number: u8,
    pub header_place: usize,
    pub header_length: usize,
    pub payload_place: usize,
    pub payload_length: usize,
}

fn refused(number: u8) -> Exchange
    ensures { result ≡ refused_by number }
{
    Exchange {
        number,
        ..Exchange::default()
    }
}

// Reads an exchange: 57 or 58, 59, 1 to 6, 63, or 0 with its two parts. Any bytes get an answer. Document 02, W-202.
pub fn read_exchange(bytes: &[u8]) -> Exchange
    ensures { result ≡ exchange_of bytes.now }
{
    let number = elements::fault(bytes);
    if number != 0 {
        return refused(number);
    }
    let outer = elements::head_at(bytes, 0);
    if outer.type_number != 20 || outer.end != bytes.len() {
        return refused(59);
    }
    let pair = elements::pair_from(bytes, outer.value_place, 1024, 1025);
    match (pair.first, pair.second) {
        (Some(header), Some(payload)) => show(bytes, header, payload),
        _ => refused(59),
    }
}

// The answer for the header's and the payload's element, once they are found.
fn show(bytes: &[u8], header: usize, payload: usize) -> Exchange
    requires { (header ≤ length bytes.now) × (payload ≤ length bytes.now) }
    ensures { result ≡ exchange_answer (joined_number (value_at bytes.now header) (value_at bytes.now payload))
        bytes.now header payload }
{
    let header_head = elements::head_at(bytes, header);
    let payload_head = elements::head_at(bytes, payload);
    let header_place = header_head.value_place;
    let header_length = header_head.end - header_head.value_place;
    let payload_place = payload_head.value_place;
    let payload_length = payload_head.end - payload_head.value_place;
    let number = split_pdu::joined_number(
        octets::part(bytes, header_place, header_length),
        octets::part(bytes, payload_place, payload_length),
    );
    if number != 0 {
        return refused(number);
    }
    Exchange {
        number: 0,
        header_place,
        header_length,
        payload_place,
        payload_length,
    }
}

// Writes the PDU at the start of `bytes` as an exchange at the start of the output: 1 to 6, then 14, both with length 0 and the output as it was, or 0
// and the exchange's length. Output past the exchange keeps its bytes. Document 02, W-202.
pub fn write_exchange(bytes: &[u8], output: &mut [u8]) -> Written
    ensures { (result ≡ written_exchange bytes.now (length output.old))
        × (output.new ≡ exchange_output bytes.now output.old) }
{
    let number = pdu::fault(bytes);
    if number != 0 {
        return Written { number, length: 0 };
    }
    let header = pdu::header_of(bytes);
    write_parts(
        octets::part(bytes, 0, header.header_length()),
        pdu::parts::payload(bytes, header),
        output,
    )
}

fn write_parts(header: &[u8], payload: &[u8], output: &mut [u8]) -> Written
    requires { (length header.now ≤ 520) × (length payload.now ≤ 4095) }
    ensures { (result ≡ written_by (room_number (exchange_bytes header.now payload.now) (length output.old))
        (exchange_bytes header.now payload.now))
        × (output.new ≡ output_by (room_number (exchange_bytes header.now payload.now) (length output.old))
        (exchange_bytes header.now payload.now) output.old) }
{
    let inside = put::element_size(1024, header.len() as u16)
        + put::element_size(1025, payload.len() as u16);
    let length = put::element_size(20, inside as u16);
    if output.len() < length {
        return Written {
            number: 14,
            length: 0,
        };
    }
    let length_place = put::put_number(output, 0, 20);
    let header_place = put::put_number(output, length_place, inside as u16);
    let payload_place = put::put_element(output, header_place, 1024, header);
    put::put_element(output, payload_place, 1025, payload);
    Written { number: 0, length }
}
