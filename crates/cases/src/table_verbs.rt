// The verbs of the table of stations. A list's values are copied to the start of its memory, so that it can change.
use crate::line::Line;
use crate::telling::{list, tell_all};
use crate::verb::Verb;
use stations::Station;
use stations_update::Heard;
use std::io;

pub(crate) fn ask(rt: &impl Print, line: Line, values: &[u16]) -> io::Result<bool> {
    let mut memory = [0u16; Station::MEMORY];
    copy(&mut memory, list(values, line.list, line.end));
    match line.verb() {
        Some(Verb::Count) => counts(rt, line, &mut memory),
        _ => forgets(rt, line, &mut memory),
    }
}

// As many as there is room for.
fn copy(room: &mut [u16], given: &[u16]) {
    for (place, value) in room.iter_mut().zip(given) {
        *place = *value;
    }
}

fn counts(rt: &impl Print, line: Line, memory: &mut [u16; Station::MEMORY]) -> io::Result<bool> {
    let heard = Heard {
        source: (line.asked(0) % 65536) as u16,
        echo: line.asked(1) != 0,
        path_bit: line.asked(2) != 0,
        path_count: (line.asked(3) % 256) as u8,
    };
    let number = stations_update::count(memory, heard);
    let station = stations::station_of(memory, heard.source).station;
    let held = stations::held(memory);
    let numbers = [
        u64::from(number),
        held as u64,
        u64::from(station.reads),
        u64::from(station.echoes),
        u64::from(station.has_path),
        u64::from(station.shortest_path),
    ];
    tell_all(rt, line, 0o222222, &numbers)
}

fn forgets(rt: &impl Print, line: Line, memory: &mut [u16; Station::MEMORY]) -> io::Result<bool> {
    let number = stations_update::remove(memory, (line.asked(0) % 65536) as u16);
    let held = stations::held(memory);
    tell_all(rt, line, 0o22, &[u64::from(number), held as u64])
}
