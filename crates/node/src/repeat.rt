// The repeated PDU, each part written straight to its place in the output.
ghost use Rattle.std.specs.Prelude.{◌≡◌, true, cond, ◌+◌, ◌-◌, ◌<◌, ◌≤◌, length, set, Ok};
ghost use Rattle.octets.specs.Octets.{word_bytes, over, placed, place_after};
ghost use Rattle.pdu.specs.Header.{hop_limit};
ghost use Rattle.pdu.specs.Sizes.{path_limit, path_start, header_length};
ghost use Rattle.pdu.specs.Reading.{read_of};
ghost use Rattle.node.specs.Repeat.{lowered_byte, lowered_header, repeated, repeated_length};
ghost use Rattle.decision.specs.Decision.{repeat_fault};

use decision::Settings;
use pdu::Header;

// Writes the repeat of the received PDU at the start of an output that has room for it.
pub(crate) fn put_repeat(settings: Settings, received: &[u8], header: Header, output: &mut [u8])
    requires { (read_of received.now ≡ Ok header) × (repeat_fault settings header ≡ 0) × (repeated_length header ≤ length output.old) }
    ensures { output.new ≡ over (repeated settings.own received.now) output.old }
{
    let own_place = put_lowered(output, received, header);
    let payload_place = put_own(output, own_place, settings.own, header);
    octets::put(output, payload_place, pdu::parts::payload(received, header));
}

pub(crate) fn repeated_length(header: Header) -> usize
    ensures { result ≡ repeated_length header }
{
    let size = header.pdu_length();
    if header.path_bit { size + 2 } else { size }
}

// The received header with its hop limit lowered.
fn put_lowered(output: &mut [u8], received: &[u8], header: Header) -> usize
    requires { (read_of received.now ≡ Ok header) × (header.hop_limit ≡ 0 → ⊥) × (header_length header ≤ length output.old) }
    ensures { (result ≡ header_length header) × (output.new ≡ over (lowered_header received.now) output.old) }
{
    let end = header.header_length();
    octets::put(output, 0, &received[..end]);
    set_byte(output, 2, lowered_byte(received[2]));
    end
}

fn lowered_byte(byte2: u8) -> u8
    requires { hop_limit byte2 ≡ 0 → ⊥ }
    ensures { result ≡ lowered_byte byte2 }
{
    if byte2 / 16 % 8 == 7 {
        byte2
    } else {
        byte2 - 16
    }
}

fn set_byte(output: &mut [u8], place: usize, byte: u8)
    requires { place < length output.old }
    ensures { output.new ≡ set output.old place byte }
{
    output[place] = byte;
}

// With the path bit: the count one higher, and the own address after the last path entry.
fn put_own(output: &mut [u8], place: usize, own: u16, header: Header) -> usize
    requires { header.path_bit ≡ true → (header.path_count < path_limit) × (path_start header ≤ length output.old) }
    ensures { (result ≡ cond header.path_bit
        (place_after (set output.old (path_start header - 1) (header.path_count + 1)) place (word_bytes own)) place)
        × (output.new ≡ cond header.path_bit
        (placed (set output.old (path_start header - 1) (header.path_count + 1)) place (word_bytes own)) output.old) }
{
    if header.path_bit {
        let count_place = header.path_start() - 1;
        set_byte(output, count_place, header.path_count + 1);
        octets::put_word(output, place, own)
    } else {
        place
    }
}
