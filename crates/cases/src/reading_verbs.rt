// The verbs without an output. Each function prints the numbers answered, and answers whether they are those expected.
use crate::line::Line;
use crate::table_verbs;
use crate::telling::{list, tell, tell_all};
use crate::verb::Verb;
use std::io;
use view::Summary;

pub(crate) fn ask(rt: &impl Print, line: Line, input: &[u8], values: &[u16]) -> io::Result<bool> {
    match line.verb() {
        Some(Verb::View) => views(rt, line, input),
        Some(Verb::Bound) => bounds(rt, line),
        Some(Verb::Lists) => finds_fault(rt, line, values),
        Some(Verb::Count | Verb::Forget) => table_verbs::ask(rt, line, values),
        Some(Verb::Exchange) => unpacks(rt, line, input),
        _ => reads(rt, line, input),
    }
}

fn unpacks(rt: &impl Print, line: Line, input: &[u8]) -> io::Result<bool> {
    let read = exchange::read_exchange(input);
    let numbers = [
        u64::from(read.number),
        read.header_place as u64,
        read.header_length as u64,
        read.payload_place as u64,
        read.payload_length as u64,
    ];
    tell_all(rt, line, 0o22222, &numbers)
}

fn reads(rt: &impl Print, line: Line, input: &[u8]) -> io::Result<bool> {
    if line.verb() == Some(Verb::Read) {
        return tell(
            rt,
            line,
            0o2,
            0,
            pdu::reading_number(pdu::read(input)) as u64,
        );
    }
    let reading = job::read(input).map_err(|refusal| refusal.number());
    tell(rt, line, 0o2, 0, u64::from(job::job_number(reading)))
}

fn views(rt: &impl Print, line: Line, input: &[u8]) -> io::Result<bool> {
    let numbers = match view::summary_of(input, 12) {
        Ok(summary) => shown(summary),
        Err(number) => [u64::from(number), 0, 0, 0, 0, 0, 0],
    };
    tell_all(rt, line, 0o2222222, &numbers)
}

// Of a PDU 0, the fields, and 1 and the last sender, or 0 and 0 where it is unknown.
fn shown(summary: Summary) -> [u64; 7] {
    let header = summary.header;
    let sender = summary.last_sender;
    [
        0,
        summary.pdu_length as u64,
        u64::from(header.source),
        u64::from(header.pdu_id),
        u64::from(header.path_count),
        u64::from(sender.is_some()),
        u64::from(sender.unwrap_or(0)),
    ]
}

// The bound is never 0, so that 0 stands for an answer without one.
fn bounds(rt: &impl Print, line: Line) -> io::Result<bool> {
    let bound = bound::most_transmissions(line.asked(0) as u64, line.asked(1) as u64);
    tell(rt, line, 0o2, 0, bound.unwrap_or(0))
}

// The first list and the last; those between are empty.
fn finds_fault(rt: &impl Print, line: Line, values: &[u16]) -> io::Result<bool> {
    let mut block = [0u16; list_block::BLOCK_LIMIT];
    let first = list(values, 0, line.list);
    let last = list(values, line.list, line.end);
    let none = list(values, 0, 0);
    let fault = list_block::lay(&mut block, first, none, none, none, none, none, none, last);
    tell(rt, line, 0o2, 0, u64::from(fault.number))
}
