// How often one report can go out, and how many bytes that is.
use crate::refusal::{Refusal, complain, hop_limit_at, number_at};
use crate::words::{Count, advise, say_once};
use bound::BoundError;
use std::env::Env;
use std::io;

// No more nodes have addresses that differ from each other and from the originator's.
const NODES: u64 = 65535;

// A fresh PDU with a path: the fixed part and the path count; with a destination, a PDU ID and the longest payload too.
const SHORTEST: u64 = 7;

const LONGEST: u64 = 4105;

// What is asked: `N H`, or `N H BYTES`.
#[derive(Clone, Copy)]
pub(crate) struct Report {
    nodes: u64,
    hop_limit: u64,
    length: Option<u64>,
}

impl Report {
    pub(crate) fn read(rt: &impl Env, with_bytes: bool) -> Result<Report, Refusal> {
        let nodes = number_at(rt, 1, "N, the number of repeating nodes, 0 to 65535,")?;
        if nodes > NODES {
            return Err(Refusal::Number(
                "N: besides the originator's there are only 65535 addresses, so no more nodes of different ones",
            ));
        }
        let hop_limit = hop_limit_at(rt, 2)?;
        let length = if with_bytes {
            Some(length_at(rt, 3)?)
        } else {
            None
        };
        Ok(Report {
            nodes,
            hop_limit,
            length,
        })
    }

    pub(crate) fn print(self, rt: &(impl Print + Eprint)) -> io::Result<()> {
        let times = bound::most_transmissions(self.nodes, self.hop_limit);
        if times == Err(BoundError::HopRefused) {
            return complain(rt, Refusal::HopLimit);
        }
        self.print_times(rt, times)?;
        let Some(length) = self.length else {
            return advise_past(rt, times);
        };
        let octets = bound::most_bytes(self.nodes, self.hop_limit, length);
        print_bytes(rt, length, octets)?;
        advise_past(rt, octets)
    }

    fn print_times(self, rt: &impl Print, times: Result<u64, BoundError>) -> io::Result<()> {
        let nodes = Count(self.nodes, "repeating node");
        let hop_limit = self.hop_limit;
        print!(rt; "Among {nodes} besides the originator, with hop limit {hop_limit}, ")?;
        match times {
            Ok(number) => {
                let times = Count(number, "time");
                println!(rt; "one report goes out at most {times},")?;
                print!(rt; "if ")?;
            }
            Err(_) => {
                println!(rt; "one report can go out more than 18,446,744,073,709,551,615 times,")?;
                print!(rt; "even if ")?;
            }
        }
        println!(rt;
            "it was originated with a path, every node has echo suppression on, the originator too, no two nodes have the same address,\nand no node takes a transmission twice."
        )?;
        say_once(rt)
    }
}

fn length_at(rt: &impl Env, place: usize) -> Result<u64, Refusal> {
    let length = number_at(rt, place, "BYTES, the fresh PDU's length, 7 to 4105,")?;
    if length < SHORTEST {
        return Err(Refusal::Number("BYTES: a fresh PDU with a path has at least 7 bytes"));
    }
    if length > LONGEST {
        return Err(Refusal::Number("BYTES: a fresh PDU has at most 4105 bytes"));
    }
    Ok(length)
}

fn print_bytes(rt: &impl Print, length: u64, octets: Result<u64, BoundError>) -> io::Result<()> {
    let fresh = Count(length, "byte");
    match octets {
        Ok(number) => {
            let most = Count(number, "byte");
            println!(rt; "If it has {fresh} when fresh, that is at most {most} on the air.")
        }
        Err(_) => println!(rt;
            "If it has {fresh} when fresh, that can be more than 18,446,744,073,709,551,615 bytes on the air."
        ),
    }
}

fn advise_past(rt: &impl Print, most: Result<u64, BoundError>) -> io::Result<()> {
    match most {
        Ok(_) => Ok(()),
        Err(_) => advise(rt),
    }
}
