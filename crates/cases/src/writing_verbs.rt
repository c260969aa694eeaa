// The verbs with an output, all of which is compared. Each function prints the numbers answered, and answers whether they are those expected.
use crate::line::{Line, ROOM};
use crate::telling::{list, tell, tell_all};
use crate::verb::Verb;
use batch::{Cursor, Numbers};
use decision::{Choice, Settings};
use node::Answer;
use pdu::{Destination, Written};
use std::io;

pub(crate) fn ask(
    rt: &impl Print,
    line: Line,
    input: &[u8],
    values: &[u16],
    before: &[u8],
    after: &[u8],
) -> io::Result<bool> {
    let mut output = [0u8; ROOM];
    octets::put(&mut output, 0, before);
    let size = before.len().min(ROOM);
    let room = &mut output[0..size];
    let right = by_verb(rt, line, input, values, room)?;
    Ok(right & (&room[..] == after))
}

fn by_verb(
    rt: &impl Print,
    line: Line,
    input: &[u8],
    values: &[u16],
    output: &mut [u8],
) -> io::Result<bool> {
    match line.verb() {
        Some(Verb::Write) => tells_written(rt, line, writing::write_again(input, output)),
        Some(Verb::Pack) => tells_written(rt, line, exchange::write_exchange(input, output)),
        Some(Verb::Originate) => {
            tells_written(rt, line, origin::originate(origin_of(line), input, output))
        }
        _ => hears_by_lists(rt, line, input, values, output),
    }
}

// The first list of each kind is the line's, and the last of each kind is empty.
fn hears_by_lists(
    rt: &impl Print,
    line: Line,
    input: &[u8],
    values: &[u16],
    output: &mut [u8],
) -> io::Result<bool> {
    let mut block = [0u16; list_block::BLOCK_LIMIT];
    let one = list(values, line.list, line.input);
    let none = list(values, 0, 0);
    list_block::lay(&mut block, one, none, one, none, one, none, one, none);
    hears(rt, line, node_of(line), input, &block, output)
}

fn tells_written(rt: &impl Print, line: Line, written: Written) -> io::Result<bool> {
    let numbers = [u64::from(written.number), written.length as u64];
    tell_all(rt, line, 0o22_13, &numbers)
}

fn hears(
    rt: &impl Print,
    line: Line,
    settings: Settings,
    input: &[u8],
    lists: &[u16; list_block::BLOCK_LIMIT],
    output: &mut [u8],
) -> io::Result<bool> {
    match line.verb() {
        Some(Verb::Step) => {
            let stepped = batch::step(settings, lists, input, Cursor::start(), output);
            tells_step(rt, line, batch::numbers_of(stepped))
        }
        Some(Verb::Hear) => tells_answer(rt, line, node::hear(settings, lists, input, output)),
        _ => delivers(rt, line, settings, input, lists, output),
    }
}

// The payload delivered is put into the output.
fn delivers(
    rt: &impl Print,
    line: Line,
    settings: Settings,
    input: &[u8],
    lists: &[u16],
    output: &mut [u8],
) -> io::Result<bool> {
    let mut none = [0u8; 0];
    let answer = node::hear(settings, lists, input, &mut none);
    let payload = node::delivered(input, answer);
    octets::put(output, 0, payload);
    tell(rt, line, 0o2_13, 0, payload.len() as u64)
}

fn tells_answer(rt: &impl Print, line: Line, answer: Answer) -> io::Result<bool> {
    let numbers = [
        u64::from(answer.delivery),
        u64::from(answer.repeat),
        answer.repeated_length as u64,
    ];
    tell_all(rt, line, 0o222_13, &numbers)
}

fn tells_step(rt: &impl Print, line: Line, numbers: Numbers) -> io::Result<bool> {
    match numbers {
        Numbers::Two { delivery, repeat } => {
            let two = [u64::from(delivery), u64::from(repeat)];
            tell_all(rt, line, 0o22_13, &two)
        }
        Numbers::Alone(number) => tell(rt, line, 0o2_13, 0, u64::from(number)),
        Numbers::NoAnswer => Ok(line.shape == 0o13),
    }
}

fn node_of(line: Line) -> Settings {
    Settings {
        edition: 12,
        own: (line.asked(0) % 65536) as u16,
        echo: line.asked(1) != 0,
        repeating: line.asked(2) != 0,
        source_pass: chosen(line.asked(3)),
        source_reject: chosen(line.asked(4)),
        destination_pass: chosen(line.asked(5)),
        destination_reject: chosen(line.asked(6)),
    }
}

// The first list of a kind is on, or none.
fn chosen(setting: usize) -> Choice {
    if setting == 0 {
        Choice::Neither
    } else {
        Choice::First
    }
}

fn origin_of(line: Line) -> origin::FreshSettings {
    origin::FreshSettings {
        edition: 12,
        source: (line.asked(0) % 65536) as u16,
        destination: destination_of(line),
        hop_limit: line.asked(1) as u64,
        port: line.asked(2) as u64,
        time_stamp_request: line.asked(3) != 0,
        with_path: line.asked(4) != 0,
        reliable: line.asked(5) != 0,
        pdu_id: (line.asked(6) % 256) as u8,
        encrypted: false,
    }
}

fn destination_of(line: Line) -> Destination {
    if line.asked == 8 {
        Destination::Address((line.asked(7) % 65536) as u16)
    } else {
        Destination::Everyone
    }
}
