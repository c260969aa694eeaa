// Words that several answers have.
use std::{fmt, io};

// So many of a thing, with an `s` for more than one and for none.
#[derive(Clone, Copy)]
pub(crate) struct Count<'a>(pub(crate) u64, pub(crate) &'a str);

impl fmt::Display for Count<'_> {
    fn fmt<W: fmt::Write>(&self, f: &mut fmt::Formatter<W>) -> fmt::Result {
        let Count(number, what) = self;
        let ending = if *number == 1 { "" } else { "s" };
        write!(f, "{number} {what}{ending}")
    }
}

// Beside the condition that no node takes a transmission twice.
pub(crate) fn say_once(rt: &impl Print) -> io::Result<()> {
    println!(rt;
        "A radio hears each transmission once; a decoder that hands a frame over twice breaks this."
    )
}

// What a bound that 64 bits do not hold means for a network.
pub(crate) fn advise(rt: &impl Print) -> io::Result<()> {
    println!(rt;
        "This program counts no further; at a thousand a second so many take over 500 million years.\nSet a lower hop limit, or let fewer nodes repeat."
    )
}
