// Sealing a PDU.
#![tactic(auto)]

ghost use Rattle.std.specs.Prelude.{◌≡◌, ◌++◌, ◌+◌, ◌-◌, ◌≤◌, length, take, drop, Ok};
ghost use Rattle.octets.specs.Octets.{over};
ghost use Rattle.ctr.specs.Ctr.{counter_mode};
ghost use Rattle.pdu.specs.Header.{header_of};
ghost use Rattle.pdu.specs.Sizes.{header_length, pdu_length};
ghost use Rattle.pdu.specs.Reading.{read_of};
ghost use Rattle.pdu.specs.Parts.{path_in};
ghost use Rattle.writing.specs.Writing.{header_bytes, path_bytes};
ghost use Rattle.message.specs.Protection.{added_length};
ghost use Rattle.message.specs.Sealable.{sealed_length};
ghost use Rattle.sealing.specs.Sealing.{sealed_header, sealed_pdu, seal_written, seal_output};

use message::Key;
use pdu::{Header, Written};

#[tactic(auto, unfolding(crate::specs::Sealing::sealed_header))]
fn sealed_header(header: Header) -> Header
    requires { header.payload_length ≤ 4088 }
    ensures { result ≡ sealed_header header }
{
    Header {
        time_stamp_request: false,
        encrypted: true,
        payload_length: header.payload_length + Key::ADDED_LENGTH as u16,
        ..header
    }
}

// Puts the header as it is sent and the path, and answers the place after them.
fn put_head(output: &mut [u8], pdu: &[u8], header: Header) -> usize
    requires { (read_of pdu.now ≡ Ok header) × (header.payload_length ≤ 4088) × (pdu_length header + 7 ≤ length output.old) }
    ensures { (result ≡ header_length header)
        × (output.new ≡ over (header_bytes (sealed_header header) ++ path_bytes (path_in header pdu.now)) output.old) }
{
    let path = writing::put_header(output, sealed_header(header));
    octets::put(
        output,
        path,
        octets::part(pdu, path, 2 * header.path_entries()),
    )
}

// Puts a part of an output, from `place` to `end`, through the key stream. SP 800-38A, 6.5.
fn encipher(key: [u8; 16], nonce: [u8; 5], output: &mut [u8], place: usize, end: usize)
    requires { (place ≤ end) × (end ≤ length output.old) }
    ensures { output.new ≡ take place output.old
        ++ (counter_mode key nonce (take (end - place) (drop place output.old)) ++ drop (end - place) (drop place output.old)) }
{
    let keys = aes::expand(key);
    ctr::add_stream(&keys, nonce, 0, &mut output[place..end]);
}

// Seals the PDU at the start of `pdu` under a key, with a message number: writes the sealed PDU at the start of the output and answers 0 and its
// length. Answers 1 to 6 where there is no PDU, 88 where it is encrypted already, 85 where its payload has no room for number and hash, 86 for a number
// above 16,777,215 and 87 where the output is too short; each with length 0 and the output as it was. Output past the PDU keeps its bytes.
// Document 02, W-212; document 000, 3.5.3.
pub fn seal(key: [u8; 16], number: u64, pdu: &[u8], output: &mut [u8]) -> Written
    ensures { (result ≡ seal_written number pdu.now (length output.old))
        × (output.new ≡ seal_output key number pdu.now output.old) }
{
    let refused = message::seal_fault(number, pdu, output.len());
    if refused != 0 {
        return message::refused(refused);
    }
    let length = put_sealed(key, number as u32, pdu, output);
    Written { number: 0, length }
}

fn put_sealed(key: [u8; 16], number: u32, pdu: &[u8], output: &mut [u8]) -> usize
    requires { (read_of pdu.now ≡ Ok (header_of pdu.now)) × ((header_of pdu.now).payload_length ≤ 4088)
        × (sealed_length pdu.now ≤ length output.old) }
    ensures { (result ≡ sealed_length pdu.now)
        × (output.new ≡ over (sealed_pdu key number pdu.now) output.old) }
{
    let header = pdu::header_of(pdu);
    let number_place = put_head(output, pdu, header);
    let digits = message::number_bytes(number);
    let place = octets::put(output, number_place, &digits);
    let hash_place = octets::put(output, place, pdu::parts::payload(pdu, header));
    let hash = message::hash_of(output, number, pdu);
    let end = octets::put(output, hash_place, &hash);
    let nonce = message::nonce(header.source, number);
    encipher(key, nonce, output, place, end);
    end
}
