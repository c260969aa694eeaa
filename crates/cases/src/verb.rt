// The verbs, each known by its first letter.
#[derive(Clone, Copy, Debug, PartialEq, Eq)]
pub(crate) enum Verb {
    Bound,
    Count,
    Deliver,
    Exchange,
    Forget,
    Hear,
    Job,
    Lists,
    Originate,
    Pack,
    Read,
    Step,
    View,
    Write,
}

impl Verb {
    pub(crate) fn of(letter: u8) -> Option<Verb> {
        match letter {
            b'b' => Some(Verb::Bound),
            b'c' => Some(Verb::Count),
            b'd' => Some(Verb::Deliver),
            b'e' => Some(Verb::Exchange),
            b'f' => Some(Verb::Forget),
            b'h' => Some(Verb::Hear),
            b'j' => Some(Verb::Job),
            b'l' => Some(Verb::Lists),
            b'o' => Some(Verb::Originate),
            b'p' => Some(Verb::Pack),
            b'r' => Some(Verb::Read),
            b's' => Some(Verb::Step),
            b'v' => Some(Verb::View),
            b'w' => Some(Verb::Write),
            _ => None,
        }
    }
}
