// A message that is sealed: its number, its nonce, its plain length, its hash, and what keeps a PDU from being sealed.
#![tactic(auto)]

ghost use Rattle.std.specs.Prelude.{◌≡◌, ◌++◌, ◌-◌, ◌<◌, ◌≤◌, take};
ghost use Rattle.sha1_digest.specs.Sha1.{hash_begun, fed, finished};
ghost use Rattle.pdu.specs.Header.{header_of};
ghost use Rattle.pdu.specs.Parts.{payload_in};
ghost use Rattle.message.specs.Protection.{message_number_bytes, number_in, added_length, masked_byte, hashed_header, hash_bytes, nonce_of};
ghost use Rattle.message.specs.Sealable.{seal_number, refused_with};

use pdu::{Header, Written, fields};
use sha1_digest::Running;

// What C hands over as a key.
#[repr(C)]
#[derive(Clone, Copy)]
pub struct Key {
    pub bytes: [u8; 16],
}

impl Key {
    // Number and hash: what a sealed payload has more than the plain one.
    pub const ADDED_LENGTH: usize = 7;

    // The longest plain payload: with number and hash it is as long as a payload may be.
    pub const PLAIN_LIMIT: u16 = 4088;

    // The greatest message number, in three bytes.
    pub const NUMBER_LIMIT: u64 = 16777215;
}

// The three bytes of a message number, the most significant first. Document 000, 3.5.3.
pub fn number_bytes(value: u32) -> [u8; 3]
    ensures { result ≡ message_number_bytes value }
{
    let [_, first, second, third] = value.to_be_bytes();
    [first, second, third]
}

// The message number that a sealed payload begins with; a byte that is not there counts as 0. Document 000, 3.5.3.
pub fn number_in(sealed: &[u8]) -> u32
    ensures { result ≡ number_in sealed.now }
{
    let first = octets::byte(sealed, 0);
    let second = octets::byte(sealed, 1);
    let third = octets::byte(sealed, 2);
    u32::from_be_bytes([0, first, second, third])
}

// What every counter block of a message begins with: its source and its number, of which three bytes count. Document 000, 3.5.3.
pub fn nonce(source: u16, number: u32) -> [u8; 5]
    ensures { result ≡ nonce_of source number }
{
    let [high, low] = source.to_be_bytes();
    let [first, second, third] = number_bytes(number);
    [high, low, first, second, third]
}

fn masked(byte2: u8) -> u8
    ensures { result ≡ masked_byte byte2 }
{
    byte2 - 16 * (byte2 / 16 % 8)
}

// The hash begun: the header at the start of `bytes`, with its hop limit's bits 0 and without path count and path, and the number's bytes are fed.
// A byte of bytes 0 to 3 that is not there counts as 0. Document 002, the table of a header's bytes.
pub fn begin_hash(bytes: &[u8], number: u32) -> Running
    ensures { result ≡ fed hash_begun (hashed_header bytes.now ++ message_number_bytes number) }
{
    let byte0 = octets::byte(bytes, 0);
    let first = [
        byte0,
        octets::byte(bytes, 1),
        masked(octets::byte(bytes, 2)),
        octets::byte(bytes, 3),
    ];
    let fixed = sha1_digest::feed(sha1_digest::begin(), &first);
    let header = sha1_digest::feed(
        fixed,
        octets::part(bytes, 4, fields::path_count_place(byte0) - 4),
    );
    let digits = number_bytes(number);
    sha1_digest::feed(header, &digits)
}

// The hash's most significant 4 bytes, once all was fed: those of the hash value's first word. Document 000, 3.5.3.
#[tactic(auto, unfolding(sha1_digest::specs::Sha1::finished))]
fn finish_hash(running: Running) -> [u8; 4]
    ensures { result ≡ take 4 (finished running) }
{
    sha1_digest::finish(running).a.to_be_bytes()
}

// The hash's 4 bytes: of the header at the start of `sent`, the number, and the payload of the PDU at the start of `pdu`. Document 000, 3.5.3.
pub fn hash_of(sent: &[u8], number: u32, pdu: &[u8]) -> [u8; 4]
    ensures { result ≡ hash_bytes sent.now number (payload_in (header_of pdu.now) pdu.now) }
{
    let begun = begin_hash(sent, number);
    let header = pdu::header_of(pdu);
    finish_hash(sha1_digest::feed(begun, pdu::parts::payload(pdu, header)))
}

// The length of the plain payload under a header: 0 where there is no room for number and hash. Document 000, 3.5.3.
pub fn plain_length(header: Header) -> usize
    ensures { (result ≡ header.payload_length - added_length) × (result ≤ 65528) }
{
    usize::from(header.payload_length).saturating_sub(Key::ADDED_LENGTH)
}

// The first thing that keeps a PDU from being sealed into so many bytes: 1 to 6, 88, 85, 86, 87, or 0. Document 02, W-212.
// Kept: the documents number the refusals and C answers the number, so a `Result` here would be made from a number and turned back into one.
pub fn seal_fault(number: u64, pdu: &[u8], room: usize) -> u8
    ensures { result ≡ seal_number number pdu.now room }
{
    let reading = pdu::fault(pdu);
    if reading != 0 {
        return reading;
    }
    let header = pdu::header_of(pdu);
    if header.encrypted {
        return 88;
    }
    if Key::PLAIN_LIMIT < header.payload_length {
        return 85;
    }
    if Key::NUMBER_LIMIT < number {
        return 86;
    }
    if room < header.pdu_length() + Key::ADDED_LENGTH {
        87
    } else {
        0
    }
}

// What is answered with a refusal: its number, and length 0. Document 01, "Numbers answered".
pub fn refused(number: u8) -> Written
    ensures { result ≡ refused_with number }
{
    Written { number, length: 0 }
}
