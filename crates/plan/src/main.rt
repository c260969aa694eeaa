// How many times one report can go out on the air at most.
//
// plan             prints a table for up to 12 repeating nodes
// plan N H         answers for N repeating nodes and hop limit H; the report's originator and its destination do not count
// plan N H BYTES   gives the bytes on the air too, for a fresh PDU of that length, 7 to 4,105
// plan command TRIES N H [N2 H2]
//                  answers for one command, sent again at most TRIES times, with its acknowledgements; N2 and H2 are theirs, else N and H
#![tactic(auto)]

mod argument;
mod command;
mod refusal;
mod report;
mod table;
mod words;

use command::Command;
use refusal::{Refusal, complain};
use report::Report;
use std::env::{Env, FillError};
use std::io;
use table::print_table;

// No question has so many words, the program's name counted.
const TOO_MANY_WORDS: usize = 8;

#[derive(Clone, Copy)]
enum Question {
    Table,
    Report(Report),
    Command(Command),
}

// All arguments are read before anything is printed.
fn main(rt: HostRuntime) -> io::Result<()> {
    match asked(&rt) {
        Ok(Question::Table) => print_table(&rt),
        Ok(Question::Report(report)) => report.print(&rt),
        Ok(Question::Command(command)) => command.print(&rt),
        Err(refusal) => complain(&rt, refusal),
    }
}

fn asked(rt: &impl Env) -> Result<Question, Refusal> {
    let words = count_words(rt);
    if words < 2 {
        Ok(Question::Table)
    } else if command::is_asked(rt) {
        Ok(Question::Command(Command::read(rt, words)?))
    } else if words == 3 || words == 4 {
        Ok(Question::Report(Report::read(rt, words == 4)?))
    } else {
        Err(Refusal::Words)
    }
}

// How many words there are, the program's name counted; of too many only so many are counted.
fn count_words(rt: &impl Env) -> usize {
    for place in 0..TOO_MANY_WORDS {
        if let Err(FillError::NotPresent) = rt.arg(place, &mut [0u8; 0]) {
            return place;
        }
    }
    TOO_MANY_WORDS
}
