// Whether a sealed PDU is genuine.
#![tactic(auto)]

ghost use Rattle.std.specs.Prelude.{◌≡◌, ◌++◌, ◌≤◌, ◌<◌, length, replicate};
ghost use Rattle.octets.specs.Octets.{over};
ghost use Rattle.ctr.specs.Ctr.{stream, added};
ghost use Rattle.sha1_digest.specs.Sha1.{four_bytes, hash_begun, fed, final_hash};
ghost use Rattle.message.specs.Protection.{message_number_bytes, hashed_header};
ghost use Rattle.verify.specs.Verify.{same_four, genuine_under};

use sha1_digest::Running;

// Up to 16 bytes deciphered, the first of which stands at a place of the key stream; zeros behind them. SP 800-38A, 6.5.
fn opened_block(keys: &[u8; 176], nonce: [u8; 5], place: usize, part: &[u8]) -> [u8; 16]
    requires { (length part.now ≤ 16) × (place ≤ 65535) }
    ensures { result ≡ over (added (stream keys.now nonce) place part.now) (replicate 16 0) }
{
    let mut block = [0u8; 16];
    let size = octets::put(&mut block, 0, part);
    ctr::add_stream(keys, nonce, place as u32, &mut block[0..size]);
    block
}

// The hash fed with the bytes deciphered, 16 at a time: the plain payload is nowhere whole.
fn feed_opened(running: Running, keys: &[u8; 176], nonce: [u8; 5], enciphered: &[u8]) -> Running
    requires { length enciphered.now ≤ 65535 }
    ensures { result ≡ fed running (added (stream keys.now nonce) 0 enciphered.now) }
{
    let mut hash = running;
    let mut place: usize = 0;
    for part in enciphered.chunks(16) {
        let block = opened_block(keys, nonce, place, part);
        let next = sha1_digest::feed(hash, &block[0..part.len()]);
        hash = next;
        place += part.len();
    }
    hash
}

// The first word of the hash value over header, number and plain payload: the hash's most significant 4 bytes as one number. Document 000, 3.5.3.
fn expected(keys: &[u8; 176], nonce: [u8; 5], number: u32, pdu: &[u8], enciphered: &[u8]) -> u32
    requires { length enciphered.now ≤ 65535 }
    ensures { result ≡ (final_hash (fed hash_begun (hashed_header pdu.now ++ message_number_bytes number
        ++ added (stream keys.now nonce) 0 enciphered.now))).a }
{
    let begun = message::begin_hash(pdu, number);
    sha1_digest::finish(feed_opened(begun, keys, nonce, enciphered)).a
}

// Whether a block begins with the 4 bytes of a word: all four are compared at once, as one number.
fn begins_with(word: u32, block: [u8; 16]) -> bool
    ensures { result ≡ same_four (four_bytes word) block }
{
    word == u32::from_be_bytes([block[0], block[1], block[2], block[3]])
}

// Whether the hash that the sealed PDU at the start of `pdu` ends with is that of its header, its number and its plain payload, under an expanded key.
// Document 02, W-212; document 000, 3.5.3.
pub fn is_genuine(keys: &[u8; 176], pdu: &[u8]) -> bool
    ensures { result ≡ genuine_under keys.now pdu.now }
{
    let header = pdu::header_of(pdu);
    let sealed = pdu::parts::payload(pdu, header);
    let number = message::number_in(sealed);
    let nonce = message::nonce(header.source, number);
    let size = message::plain_length(header);
    let hash = expected(keys, nonce, number, pdu, octets::part(sealed, 3, size));
    let sent = opened_block(keys, nonce, size, octets::part(sealed, size + 3, 4));
    begins_with(hash, sent)
}
