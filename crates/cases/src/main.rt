// Runs the cases that document 01 checks by hand and does not mark P, and an input for each number of its table and of document 02's W-201 to
// W-203. A case is a line of `stdin`. For each a line is printed: its name, the numbers answered, and `ok`, or `WRONG` where a number or a byte of the
// output is not what it should be, or where the line can't be read, with the character from which it can't.
//
// `NAME: VERB .. = ..` has what is asked before the `=`, and what is expected after it. The first letter of the first word is the verb's; all other
// words, in small letters, are for the reader. Numbers are decimal and at most 65,535; of a setting, 0 is off. Brackets hold bytes in hex, in order: the
// input, the output before, and after the `=` the whole output after. Parentheses hold the values of a list. `5A*4095` stands for an item so many times.
// An empty line is no case.
//
// | Verb      | What is asked                                                                            | Numbers answered                         |
// |-----------|------------------------------------------------------------------------------------------|------------------------------------------|
// | pack      | [PDU] [output]                                                                           | number, length of the exchange           |
// | read      | [PDU]                                                                                    | number                                   |
// | write     | [PDU] [output]                                                                           | number, length                           |
// | view      | [PDU]                                                                                    | number, size, source, PDU ID, path count,|
// |           |                                                                                          | last sender known, last sender           |
// | originate | source, hop limit, port, time stamp request, with path, reliable, PDU ID, and the        | number, length                           |
// |           | destination if it is not everyone [payload] [output]                                     |                                          |
// | lists     | (first list) (last list), those between being empty                                      | number                                   |
// | hear      | own, echo, repeating, source pass, source reject, destination pass, destination reject   | delivery, repeat, repeated length        |
// |           | (the list that is the first of each kind) [PDU] [output]                                 |                                          |
// | deliver   | as for hear; the payload is put into the output                                          | the payload's length                     |
// | step      | as for hear, with a batch for the PDU                                                    | those of the first step: two, one, none  |
// | job       | [job]                                                                                    | number                                   |
// | bound     | nodes, hop limit                                                                         | most transmissions, or 0 without a bound |
// | count     | source, echo, path bit, path count (a table's words)                                     | number, stations held, and of the source |
// |           |                                                                                          | reads, echoes, has path, shortest path   |
// | exchange  | [exchange]                                                                               | number, place and length of its header,  |
// |           |                                                                                          | place and length of its payload          |
// | forget    | address (a table's words)                                                                | number, stations held                    |
#![tactic(auto)]

mod line;
mod reading_verbs;
mod table_verbs;
mod telling;
mod verb;
mod writing_verbs;

use input::read_full;
use line::{Line, ROOM};
use std::io;

// A text has fewer bytes; the rest of the room is empty lines.
const TEXT_ROOM: usize = 16384;

fn main(rt: HostRuntime) -> io::Result<()> {
    let mut text = [b'\n'; TEXT_ROOM];
    let count = read_full(&mut rt.reader(), &mut text)?;
    let last = cases(&rt, &text)?;
    tell_end(&rt, last, count == TEXT_ROOM)
}

// A text that was cut is wrong, whatever its lines say.
fn tell_end(rt: &impl Print, last: Line, cut: bool) -> io::Result<()> {
    let cases = last.cases;
    let wrong = last.wrong;
    print!(rt; "{cases} cases, {wrong} wrong")?;
    if cut {
        println!(rt; ", and the text is too long: WRONG")
    } else {
        println!(rt; "")
    }
}

fn cases(rt: &impl Print, text: &[u8]) -> io::Result<Line> {
    let mut bytes = [0u8; ROOM];
    let mut values = [0u16; ROOM];
    let mut line = Line::new(0, 0, 0);
    for byte in text {
        let longer = line.with(*byte);
        store(
            &mut bytes,
            &mut values,
            longer.place,
            longer.times,
            longer.item,
        );
        line = judge(rt, longer, *byte, text, &bytes, &values)?;
    }
    Ok(line)
}

// Puts an item so many times before a place.
fn store(
    bytes: &mut [u8; ROOM],
    values: &mut [u16; ROOM],
    place: usize,
    times: usize,
    item: usize,
) {
    let byte = (item % 256) as u8;
    let value = (item % 65536) as u16;
    for i in 0..times {
        let at = std::num::wrapping_sub_usize(std::num::wrapping_sub_usize(place, i), 1) % ROOM;
        bytes[at] = byte;
        values[at] = value;
    }
}

// At the end of a line prints its case, and begins the next line.
fn judge(
    rt: &impl Print,
    line: Line,
    byte: u8,
    text: &[u8],
    bytes: &[u8; ROOM],
    values: &[u16; ROOM],
) -> io::Result<Line> {
    if byte != b'\n' {
        return Ok(line);
    }
    if line.length == 1 {
        return Ok(line.next(false, false));
    }
    rt.write_all(octets::part(text, line.start, line.shown()))?;
    let right = is_right(rt, line, bytes, values)?;
    tell_verdict(rt, right)?;
    Ok(line.next(true, !right))
}

fn tell_verdict(rt: &impl Print, right: bool) -> io::Result<()> {
    if right {
        println!(rt; " ok")
    } else {
        println!(rt; " WRONG")
    }
}

fn is_right(
    rt: &impl Print,
    line: Line,
    bytes: &[u8; ROOM],
    values: &[u16; ROOM],
) -> io::Result<bool> {
    if !line.is_read() {
        return tell_unreadable(rt, line.refused_at());
    }
    let asked = section(bytes, line.output, line.end);
    if line.gives_output() {
        let input = section(bytes, line.input, line.output);
        let after = section(bytes, line.after, line.place);
        return writing_verbs::ask(rt, line, input, values, asked, after);
    }
    reading_verbs::ask(rt, line, asked, values)
}

fn section(bytes: &[u8], start: usize, end: usize) -> &[u8] {
    octets::part(bytes, start, std::num::wrapping_sub_usize(end, start))
}

fn tell_unreadable(rt: &impl Print, place: usize) -> io::Result<bool> {
    print!(rt; " can't be read at character")?;
    telling::print_number(rt, place as u64)?;
    Ok(false)
}
