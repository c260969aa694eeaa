// Why a question is not answered.
use crate::argument::{ArgumentError, argument_at};
use bound::BoundError::HopRefused;
use std::env::Env;
use std::{fmt, io};

#[derive(Clone, Copy)]
pub(crate) enum Refusal {
    // The words are those of no question.
    Words,
    // What an argument stands for, and why it is not that.
    Argument(&'static str, ArgumentError),
    // A number that is not served, and why.
    Number(&'static str),
    HopLimit,
}

impl fmt::Display for Refusal {
    fn fmt<W: fmt::Write>(&self, f: &mut fmt::Formatter<W>) -> fmt::Result {
        match self {
            Refusal::Words => write!(
                f,
                "give no argument, N H, N H BYTES, or command TRIES N H [N2 H2]"
            ),
            Refusal::Argument(what, error) => write!(f, "{what} {error}"),
            Refusal::Number(why) => write!(f, "{why}"),
            Refusal::HopLimit => {
                let number = bound::refusal(Err(HopRefused));
                write!(
                    f,
                    "H is refused with {number}: the hop limit asked for is above 7"
                )
            }
        }
    }
}

pub(crate) fn number_at(rt: &impl Env, place: usize, what: &'static str) -> Result<u64, Refusal> {
    argument_at(rt, place).map_err(|error| Refusal::Argument(what, error))
}

pub(crate) fn hop_limit_at(rt: &impl Env, place: usize) -> Result<u64, Refusal> {
    number_at(rt, place, "H, the hop limit, 0 to 7,")
}

pub(crate) fn complain(rt: &impl Eprint, refusal: Refusal) -> io::Result<()> {
    eprintln!(rt; "plan: {refusal}")
}
