// The lines that the program `relay` prints, put into an output one at a time.
#![tactic(auto)]

ghost use Rattle.std.specs.Prelude.{◌≡◌, cond, [], ◌∷◌, ◌++◌, ◌+◌, ◌*◌, ◌≤◌, leb, eqb, length};
ghost use Rattle.octets.specs.Octets.{Puts};
ghost use Rattle.text.specs.Text.{text, decimal};
ghost use Rattle.lines.specs.Lines.{shown, sender_shown, first_line, pdu_line, last_line, refused_line};

use octets::put;
use text::{put_decimal, put_hex};

// Puts the start of a line, a number and the character after it; nothing where they do not all fit.
fn put_ended(output: &mut [u8], place: usize, start: &[u8], n: u64, end: u8) -> usize
    requires { length start.now ≤ 40 }
    ensures { Puts output.old place (start.now ++ decimal n ++ end ∷ []) result output.new }
{
    let mut line = [0u8; 64];
    let next = put(&mut line, 0, start);
    let next = put_decimal(&mut line, next, n);
    let last = [end];
    let next = put(&mut line, next, &last);
    put(output, place, &line[0..next])
}

// Kept: `as u64`, here and below; with `u64::from` five proofs would need a step more.
// Puts the line `relay` and the own address, and answers the place after it.
// Where the line does not fit, nothing is written and the place stays. Document 01, "The program `relay`", the first line.
pub fn put_first_line(output: &mut [u8], place: usize, own: u16) -> usize
    ensures { Puts output.old place (first_line own) result output.new }
{
    put_ended(output, place, b"relay ", own as u64, b'\n')
}

// Puts the line `refused` and the number of a bad job, and answers the place after it.
// Where the line does not fit, nothing is written and the place stays. Document 01, "The program `relay`", a bad job.
pub fn put_refused_line(output: &mut [u8], place: usize, number: u8) -> usize
    ensures { Puts output.old place (refused_line number) result output.new }
{
    put_ended(output, place, b"refused ", number as u64, b'\n')
}

// Puts the line `end`, the PDU lines printed and the bytes taken, and answers the place after it.
// Where the line does not fit, nothing is written and the place stays. Document 01, "The program `relay`", the last line.
pub fn put_last_line(output: &mut [u8], place: usize, lines: u64, taken: u64) -> usize
    ensures { Puts output.old place (last_line lines taken) result output.new }
{
    let mut start = [0u8; 32];
    let next = put_ended(&mut start, 0, b"end ", lines, b' ');
    put_ended(output, place, &start[0..next], taken, b'\n')
}

// Puts the repeated PDU in hex, or `-` where there is none.
fn put_shown(output: &mut [u8], place: usize, repeated: &[u8]) -> usize
    ensures { Puts output.old place (shown repeated.now) result output.new }
{
    if repeated.len() == 0 {
        return put(output, place, b"-");
    }
    put_hex(output, place, repeated)
}

// Puts the end of a PDU line: the last sender, or `-` where it is unknown, between a space and the line's end; nothing where they do not all fit.
fn put_sender(output: &mut [u8], place: usize, sender: Option<u16>) -> usize
    ensures { (length (sender_shown sender) ≤ 5)
        × Puts output.old place (text " " ++ sender_shown sender ++ text "\n") result output.new }
{
    match sender {
        None => put(output, place, b" -\n"),
        Some(address) => put_ended(output, place, b" ", address as u64, b'\n'),
    }
}

// Puts the start of a PDU line, the repeated PDU and the line's end; nothing where they do not all fit.
fn put_between(output: &mut [u8], place: usize, start: &[u8], repeated: &[u8], end: &[u8]) -> usize
    ensures { Puts output.old place (start.now ++ shown repeated.now ++ end.now)
        result output.new }
{
    if !has_room(output.len(), place, start.len(), repeated.len(), end.len()) {
        return place;
    }
    let next = put(output, place, start);
    let next = put_shown(output, next, repeated);
    put(output, next, end)
}

// Whether `start` characters, the hex of `repeated` bytes or `-`, and `end` characters fit behind `place`.
// Differences and a half, since a sum or a double could be more than a `usize` holds.
fn has_room(output: usize, place: usize, start: usize, repeated: usize, end: usize) -> bool
    ensures { result ≡ leb (place + (start + end) + cond (eqb repeated 0) 1 (2 * repeated)) output }
{
    if output < place || output - place < start {
        return false;
    }
    let behind = output - place - start;
    end < behind && repeated <= (behind - end) / 2
}

// Puts the line of one PDU and answers the place after it: which PDU it is, where it begins, what was answered for delivery and for repeating, the
// bytes of the repeat in hex, with no such bytes `-`, and the last sender, `-` where it is unknown. Where the line does not fit, nothing is written and
// the place stays. Document 01, "The program `relay`", a PDU line; document 02, W-205.
pub fn put_pdu_line(
    output: &mut [u8],
    place: usize,
    number: u64,
    offset: u64,
    delivery: u8,
    repeat: u8,
    repeated: &[u8],
    sender: Option<u16>,
) -> usize
    ensures { Puts output.old place (pdu_line number offset delivery repeat repeated.now sender)
        result output.new }
{
    let mut start = [0u8; 64];
    let next = put_decimal(&mut start, 0, number);
    let next = put_ended(&mut start, next, b" ", offset, b' ');
    let next = put_decimal(&mut start, next, delivery as u64);
    let next = put_ended(&mut start, next, b" ", repeat as u64, b' ');
    let mut end = [0u8; 8];
    let size = put_sender(&mut end, 0, sender);
    put_between(output, place, &start[0..next], repeated, &end[0..size])
}
