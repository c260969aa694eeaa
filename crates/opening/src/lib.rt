// Opening a sealed PDU against the record of the numbers last accepted.
#![tactic(auto)]

ghost use Rattle.std.specs.Prelude.{◌≡◌, not, cond, ◌-◌, ◌≤◌, eqb, ltb, length, take, drop};
ghost use Rattle.octets.specs.Numbers.{◌gives◌, ◌or_else◌};
ghost use Rattle.octets.specs.Octets.{over};
ghost use Rattle.ctr.specs.Ctr.{stream, added};
ghost use Rattle.pdu.specs.Header.{header_of, source_of};
ghost use Rattle.sources.specs.Sources.{source_fault, memory_accepted};
ghost use Rattle.verify.specs.Verify.{plain_length, genuine_under};
ghost use Rattle.opening.specs.Opening.{sealed_fault, numbered_as, keyless_fault, open_written, open_output, memory_after_opening};

use message::Key;
use pdu::{Header, Written};

// The message number of a sealed PDU, or why there is none.
#[repr(C)]
#[derive(Clone, Copy)]
pub struct Numbered {
    pub number: u8,
    pub message: u32,
}

// The first thing that keeps bytes from being a sealed PDU: 1 to 6, 80, 81, or 0.
// Kept, here and in the two below: the documents number the refusals and C answers the number, so a `Result` would be turned back into one.
fn sealed_fault(pdu: &[u8]) -> u8
    ensures { result ≡ sealed_fault pdu.now }
{
    let reading = pdu::fault(pdu);
    if reading != 0 {
        return reading;
    }
    let header = pdu::header_of(pdu);
    if !header.encrypted {
        return 80;
    }
    if usize::from(header.payload_length) < Key::ADDED_LENGTH {
        81
    } else {
        0
    }
}

// The message number of the sealed PDU at the start of `pdu`, which lies in clear: 0 and the number, or 1 to 6, 80 or 81 and 0. Document 000, 3.5.3.
pub fn message_number(pdu: &[u8]) -> Numbered
    ensures { result ≡ numbered_as pdu.now }
{
    let wrong = sealed_fault(pdu);
    if wrong != 0 {
        return Numbered {
            number: wrong,
            message: 0,
        };
    }
    let header = pdu::header_of(pdu);
    let message = message::number_in(pdu::parts::payload(pdu, header));
    Numbered { number: 0, message }
}

// The first thing that keeps the PDU from being opened whatever the key is: 1 to 6, 80, 81, 82, or 0.
fn keyless_fault(memory: &[u32; sources::MEMORY], pdu: &[u8]) -> u8
    ensures { result ≡ keyless_fault memory.now pdu.now }
{
    let early = sealed_fault(pdu);
    if early != 0 {
        return early;
    }
    let header = pdu::header_of(pdu);
    let number = message::number_in(pdu::parts::payload(pdu, header));
    sources::number_fault(memory, header.source, number)
}

// What is refused once the key is used: 83, 84, 87, or 0.
fn keyed_fault(
    keys: &[u8; 176],
    memory: &[u32; sources::MEMORY],
    pdu: &[u8],
    header: Header,
    room: usize,
) -> u8
    requires { header ≡ header_of pdu.now }
    ensures { result ≡ (not (genuine_under keys.now pdu.now) gives 83
        or_else source_fault (source_of pdu.now) memory.now
        or_else ltb room (plain_length pdu.now) gives 87) }
{
    if !verify::is_genuine(keys, pdu) {
        return 83;
    }
    let full = sources::source_fault(memory, header.source);
    if full != 0 {
        return full;
    }
    if room < message::plain_length(header) {
        87
    } else {
        0
    }
}

// Puts the plain payload at the start of the output, and answers its length.
fn put_plain(keys: &[u8; 176], nonce: [u8; 5], sealed: &[u8], output: &mut [u8]) -> usize
    requires { (7 ≤ length sealed.now) × (length sealed.now - 7 ≤ length output.old) }
    ensures { (result ≡ length sealed.now - 7) × (output.new
        ≡ over (added (stream keys.now nonce) 0 (take (length sealed.now - 7) (drop 3 sealed.now))) output.old) }
{
    let size = sealed.len() - Key::ADDED_LENGTH;
    octets::put(output, 0, octets::part(sealed, 3, size));
    ctr::add_stream(keys, nonce, 0, &mut output[0..size]);
    size
}

// Opens, as `open` does, a PDU that nothing refuses before the key is used. By itself, so that the expanded key lies on the stack once and not twice.
fn open_with_key(
    key: [u8; 16],
    memory: &mut [u32; sources::MEMORY],
    pdu: &[u8],
    output: &mut [u8],
) -> Written
    requires { keyless_fault memory.old pdu.now ≡ 0 }
    ensures { (result ≡ open_written key memory.old pdu.now (length output.old))
        × (output.new ≡ open_output key memory.old pdu.now output.old)
        × (memory.new ≡ memory_after_opening key memory.old pdu.now (length output.old)) }
{
    let keys = aes::expand(key);
    let header = pdu::header_of(pdu);
    let late = keyed_fault(&keys, memory, pdu, header, output.len());
    if late != 0 {
        return message::refused(late);
    }
    let sealed = pdu::parts::payload(pdu, header);
    let number = message::number_in(sealed);
    let nonce = message::nonce(header.source, number);
    let length = put_plain(&keys, nonce, sealed, output);
    sources::accept(memory, header.source, number);
    Written { number: 0, length }
}

// Opens the sealed PDU at the start of `pdu` under a key, against the record in `memory`: writes the plain payload at the start of the output, notes
// the message number as the last accepted from the source, and answers 0 and the payload's length. Answers 1 to 6 where there is no PDU, 80 where it is
// not encrypted, 81 where its payload is too short for number and hash, 82 where the number is not greater than the last accepted from the source, 83
// where the hash differs, 84 where the source is new and 64 are held, and 87 where the output is too short; each with length 0, output and record
// as they were. Output past the payload keeps its bytes. Document 02, W-212; document 000, 3.5.3.
pub fn open(
    key: [u8; 16],
    memory: &mut [u32; sources::MEMORY],
    pdu: &[u8],
    output: &mut [u8],
) -> Written
    ensures { (result ≡ open_written key memory.old pdu.now (length output.old))
        × (output.new ≡ open_output key memory.old pdu.now output.old)
        × (memory.new ≡ memory_after_opening key memory.old pdu.now (length output.old)) }
{
    let early = keyless_fault(memory, pdu);
    if early != 0 {
        return message::refused(early);
    }
    open_with_key(key, memory, pdu, output)
}
