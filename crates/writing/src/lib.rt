// Writing a PDU from its fields.
#![tactic(auto)]

ghost use Rattle.std.specs.Prelude.{◌≡◌, true, [], ◌∷◌, ◌+◌, ◌*◌, ◌/◌, ◌<◌, ◌≤◌, length, Ok};
ghost use Rattle.octets.specs.Numbers.{flag};
ghost use Rattle.octets.specs.Octets.{word_bytes, over, Puts};
ghost use Rattle.pdu.specs.Sizes.{destination_flag, path_entries, path_start};
ghost use Rattle.pdu.specs.Reading.{read_of};
ghost use Rattle.pdu.specs.Parts.{path_in};
ghost use Rattle.writing.specs.Writing.{fixed_part, destination_bytes, only_if, header_bytes, path_bytes};
ghost use Rattle.writing.specs.Writing.{writable, header_written, header_output, written_of, output_of, write_again, written_again};

use pdu::{Destination, Header, Written};

// Writes the PDU at the start of `bytes` again, from what reading shows of it, at the start of the output: the same bytes, answered with 0 and their
// number. Answers 1 to 6 where there is no PDU and 14 where the output is too short, both with length 0 and the output as it was. Output past the
// PDU keeps its bytes. Document 01, "Numbers answered", a PDU written again.
pub fn write_again(bytes: &[u8], output: &mut [u8]) -> Written
    ensures { (result ≡ write_again bytes.now (length output.old))
        × (output.new ≡ written_again bytes.now output.old) }
{
    // Kept: `Written` is C's, and carries the number as `fault` answers it.
    let number = pdu::fault(bytes);
    if number != 0 {
        return Written { number, length: 0 };
    }
    write_shown(bytes, pdu::header_of(bytes), output)
}

fn write_shown(bytes: &[u8], header: Header, output: &mut [u8]) -> Written
    requires { read_of bytes.now ≡ Ok header }
    ensures { (result ≡ written_of (Ok header) (length output.old))
        × (output.new ≡ output_of (Ok header) bytes.now output.old) }
{
    let length = header.pdu_length();
    if output.len() < length {
        return Written {
            number: 14,
            length: 0,
        };
    }
    let path = put_fields(output, header);
    let payload = put_path(output, path, bytes, header);
    octets::put(output, payload, pdu::parts::payload(bytes, header));
    Written { number: 0, length }
}

// Puts a header, up to its path's addresses, at the start of the output and returns its length. If no PDU can have this header, or the output is too short
// for it, returns 0 and leaves the output as it was. A PDU ID or path count that is not called for is left out. Output past the header keeps its bytes.
// Document 01, "Header, byte by byte".
pub fn put_header(output: &mut [u8], header: Header) -> usize
    ensures { (result ≡ header_written header (length output.old))
        × (output.new ≡ header_output header output.old) }
{
    if !is_writable(header) {
        return 0;
    }
    if output.len() < header.path_start() {
        return 0;
    }
    put_fields(output, header)
}

#[tactic(auto, unfolding(crate::specs::Writing::writable))]
fn is_writable(header: Header) -> bool
    ensures { result ≡ writable header }
{
    let destination = header.destination;
    header.protocol <= pdu::destination_flag(destination)
        && header.hop_limit <= 7
        && header.port <= 15
        && header.reserved <= 3
        && header.payload_length as usize <= Header::PAYLOAD_LIMIT
}

// Puts a header's fields one after the other, and answers the place after them.
fn put_fields(output: &mut [u8], header: Header) -> usize
    requires { (writable header ≡ true) × (path_start header ≤ length output.old) }
    ensures { (result ≡ path_start header) × (output.new ≡ over (header_bytes header) output.old) }
{
    let destination = header.destination;
    let destination_place = put_fixed(output, header);
    let pdu_id_place = put_destination(output, destination_place, destination);
    let path_count_place = put_if(output, pdu_id_place, header.protocol == 1, header.pdu_id);
    put_if(output, path_count_place, header.path_bit, header.path_count)
}

fn put_fixed(output: &mut [u8], header: Header) -> usize
    requires { writable header ≡ true }
    ensures { Puts output.old 0 (fixed_part header) result output.new }
{
    let destination = header.destination;
    let part = [
        byte_0(
            header.protocol,
            header.time_stamp_request,
            header.path_bit,
            destination,
        ),
        byte_1(header.port, header.encrypted, header.reserved, header.ack),
        byte_2(header.added_header, header.hop_limit, header.payload_length),
        octets::low(header.payload_length),
        octets::high(header.source),
        octets::low(header.source),
    ];
    octets::put(output, 0, &part)
}

fn byte_0(protocol: u8, time_stamp_request: bool, path_bit: bool, destination: Destination) -> u8
    requires { protocol ≤ 1 }
    ensures { result ≡ protocol * 8 + flag time_stamp_request * 4 + flag path_bit * 2 + destination_flag destination }
{
    protocol * 8
        + octets::flag(time_stamp_request) * 4
        + octets::flag(path_bit) * 2
        + pdu::destination_flag(destination)
}

fn byte_1(port: u8, encrypted: bool, reserved: u8, ack: bool) -> u8
    requires { (port ≤ 15) × (reserved ≤ 3) }
    ensures { result ≡ port * 16 + flag encrypted * 8 + reserved * 2 + flag ack }
{
    port * 16 + octets::flag(encrypted) * 8 + reserved * 2 + octets::flag(ack)
}

fn byte_2(added_header: bool, hop_limit: u8, payload_length: u16) -> u8
    requires { (hop_limit ≤ 7) × (payload_length ≤ 4095) }
    ensures { result ≡ flag added_header * 128 + hop_limit * 16 + payload_length / 256 }
{
    octets::flag(added_header) * 128 + hop_limit * 16 + octets::high(payload_length)
}

fn put_destination(output: &mut [u8], place: usize, destination: Destination) -> usize
    requires { place + 2 * destination_flag destination ≤ length output.old }
    ensures { Puts output.old place (destination_bytes destination) result output.new }
{
    match destination {
        Destination::Everyone => place,
        Destination::Address(address) => put_address(output, place, address),
    }
}

fn put_address(output: &mut [u8], place: usize, address: u16) -> usize
    requires { place + 2 ≤ length output.old }
    ensures { Puts output.old place (word_bytes address) result output.new }
{
    let low_place = put_byte(output, place, octets::high(address));
    put_byte(output, low_place, octets::low(address))
}

fn put_if(output: &mut [u8], place: usize, called: bool, byte: u8) -> usize
    requires { place + flag called ≤ length output.old }
    ensures { Puts output.old place (only_if called (byte ∷ [])) result output.new }
{
    if called {
        put_byte(output, place, byte)
    } else {
        place
    }
}

// Puts a byte at a place that is in the output: the room for the header was looked at once, for all its parts.
fn put_byte(output: &mut [u8], place: usize, byte: u8) -> usize
    requires { place < length output.old }
    ensures { Puts output.old place (byte ∷ []) result output.new }
{
    output[place] = byte;
    place + 1
}

fn put_path(output: &mut [u8], place: usize, bytes: &[u8], header: Header) -> usize
    requires { place + 2 * path_entries header ≤ length output.old }
    ensures { Puts output.old place (path_bytes (path_in header bytes.now)) result output.new }
{
    let start = header.path_start();
    let entries = header.path_entries();
    for i in 0..entries {
        octets::put_word(output, place + 2 * i, octets::word(bytes, start + 2 * i));
    }
    place + 2 * entries
}
