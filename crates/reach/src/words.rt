// A number of things, in words.
use std::fmt;

// So many of a thing, with an `s` for more than one and for none.
#[derive(Clone, Copy)]
pub(crate) struct Count<'a>(pub(crate) u64, pub(crate) &'a str);

impl fmt::Display for Count<'_> {
    fn fmt<W: fmt::Write>(&self, f: &mut fmt::Formatter<W>) -> fmt::Result {
        let Count(number, what) = self;
        let ending = if *number == 1 { "" } else { "s" };
        write!(f, "{number} {what}{ending}")
    }
}
