// What one command can put on the air, its acknowledgements counted.
ghost use Rattle.std.specs.Prelude.{◌<◌};

use crate::refusal::{Refusal, complain, hop_limit_at, number_at};
use crate::words::{Count, advise, say_once};
use bound::BoundError;
use std::env::Env;
use std::io;

// No more nodes have addresses that differ from each other, from the originator's and from the destination's.
const NODES: u64 = 65534;

// The nodes that repeat a message, and its hop limit.
#[derive(Clone, Copy)]
struct Network {
    nodes: u64,
    hop_limit: u64,
}

// What is asked: `command TRIES N H`, and `command TRIES N H N2 H2` where the acknowledgement has other nodes or another hop limit.
#[derive(Clone, Copy)]
pub(crate) struct Command {
    tries: u64,
    sent: Network,
    answered: Network,
}

// Whether the first argument asks for this.
pub(crate) fn is_asked(rt: &impl Env) -> bool {
    let mut text = [0u8; 64];
    match rt.arg(1, &mut text) {
        Ok(n) => &text[..n] == b"command".as_slice(),
        Err(_) => false,
    }
}

impl Network {
    // N stands at this place, and H behind it.
    fn read(rt: &impl Env, place: usize) -> Result<Network, Refusal>
        requires { place < 8 }
    {
        let nodes = number_at(rt, place, "N, the number of repeating nodes, 0 to 65534,")?;
        if nodes > NODES {
            return Err(Refusal::Number(
                "N: besides the originator's and the destination's there are only 65534 addresses, so no more nodes of different ones",
            ));
        }
        let hop_limit = hop_limit_at(rt, place + 1)?;
        Ok(Network { nodes, hop_limit })
    }

    fn print(self, rt: &impl Print) -> io::Result<()> {
        let nodes = Count(self.nodes, "repeating node");
        let hop_limit = self.hop_limit;
        println!(rt;
            ", among {nodes} besides originator and destination, with hop limit {hop_limit}."
        )
    }
}

impl Command {
    pub(crate) fn read(rt: &impl Env, words: usize) -> Result<Command, Refusal> {
        if words != 5 && words != 7 {
            return Err(Refusal::Words);
        }
        let tries = number_at(rt, 2, "TRIES, how many times it is sent again,")?;
        let sent = Network::read(rt, 3)?;
        let answered = if words == 5 {
            sent
        } else {
            Network::read(rt, 5)?
        };
        Ok(Command {
            tries,
            sent,
            answered,
        })
    }

    pub(crate) fn print(self, rt: &(impl Print + Eprint)) -> io::Result<()> {
        let tries = Count(self.tries, "time");
        match bound::most_for_command(
            self.tries,
            self.sent.nodes,
            self.sent.hop_limit,
            self.answered.nodes,
            self.answered.hop_limit,
        ) {
            Ok(number) => {
                let most = Count(number, "transmission");
                print!(rt;
                    "Sent once and again at most {tries}, one command causes at most {most}, if "
                )?;
                print_conditions(rt)?;
                self.print_parts(rt)
            }
            Err(BoundError::TooLarge) => {
                print!(rt;
                    "Sent once and again at most {tries}, one command can cause more than 18,446,744,073,709,551,615 transmissions, even if "
                )?;
                print_conditions(rt)?;
                advise(rt)
            }
            Err(BoundError::HopRefused) => complain(rt, Refusal::HopLimit),
        }
    }

    // Where all of it is counted, so is each part.
    fn print_parts(self, rt: &impl Print) -> io::Result<()> {
        let Network { nodes, hop_limit } = self.sent;
        if let Ok(number) = bound::most_sendings(self.tries, nodes, hop_limit) {
            let times = Count(number, "time");
            print!(rt; "The command goes out at most {times}")?;
            self.sent.print(rt)?;
        }
        println!(rt; "Its destination acknowledges every copy that arrives.")?;
        let Network { nodes, hop_limit } = self.answered;
        if let Ok(number) = bound::most_transmissions(nodes, hop_limit) {
            let times = Count(number, "time");
            print!(rt; "Each acknowledgement goes out at most {times}")?;
            self.answered.print(rt)?;
        }
        println!(rt;
            "A lower hop limit helps most, then fewer tries. A repeater that need not carry the command does not count,\nif its destination pass list is on and leaves out the destination and the originator."
        )
    }
}

fn print_conditions(rt: &impl Print) -> io::Result<()> {
    println!(rt;
        "command and acknowledgement have a path,\nevery node has echo suppression on, no two nodes have the same address, and no node takes a transmission twice."
    )?;
    say_once(rt)
}
