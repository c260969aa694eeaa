// Who is delivered a report, over how many hearings; how often it goes out on the network; and which failures cut a node off.
//
// reach         reads a network on standard input and answers for a report of its first node, the originator, with the network's hop limit. Document 02,
//               W-208, and crate `planning_own_network`.
// reach SIZE    says the bytes on the air too, for a fresh report of that length, 7 to 4,105
#![tactic(auto)]

mod airtime;
mod failures;
mod network;
mod report;
mod size;
mod words;

use input::read_full;
use network::read_network;
use report::print_report;
use size::read_size;
use std::env::{Env, FillError};
use std::io;

// The text may have one byte less.
const TEXT_ROOM: usize = 65536;

fn main(rt: HostRuntime) -> io::Result<()> {
    if !has_size(&rt) {
        return answer(&rt, None);
    }
    let Some(size) = size_asked(&rt) else {
        return eprintln!(rt; "reach: SIZE, the length of the fresh report, is 7 to 4105");
    };
    answer(&rt, Some(size))
}

fn has_size(rt: &impl Env) -> bool {
    !matches!(&rt.arg(1, &mut [0u8; 0]), Err(FillError::NotPresent))
}

// An argument of more than 64 bytes is none, whatever it says.
fn size_asked(rt: &impl Env) -> Option<u16> {
    let mut word = [0u8; 64];
    match rt.arg(1, &mut word) {
        Ok(count) => read_size(&word[..count]),
        Err(_) => None,
    }
}

fn answer(rt: &(impl Input + Print + Eprint), size: Option<u16>) -> io::Result<()> {
    let mut text = [0u8; TEXT_ROOM];
    let count = read_full(&mut rt.reader(), &mut text)?;
    if count >= TEXT_ROOM {
        return eprintln!(rt; "reach: the text has more than 65535 bytes");
    }
    match read_network(&text[..count]) {
        Ok(network) => print_report(rt, &network, size),
        Err(refusal) => {
            let line = refusal.line;
            let fault = refusal.fault;
            eprintln!(rt; "reach: line {line}: {fault}")
        }
    }
}
