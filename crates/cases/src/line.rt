// A line of the text, read a character at a time. What can be is done without branches: the checker's time goes by them.
use crate::verb::Verb;

// How many items a line has room for: its numbers, and the values and bytes of its sections.
pub(crate) const ROOM: usize = 40960;

// A shape has an octal digit for each number outside of sections, 2, and for each mark: 1 for `[`, 3 for `]`, 4 for `(`, 5 for `)` and 7 for `=`, which
// are the remainders of these characters by 9. No shape has a 6.
// Kept: a shape is written and compared as one octal numeral; as an array of an enum each shape below would be longer and say no more.
const OPEN_BYTES: usize = 1;

const NUMBER: usize = 2;

const OPEN_LIST: usize = 4;

const NO_SHAPE: usize = 6;

// A line that begins at `start`, of which `length` characters were read, `name` of them its name, which begins with `letter`. `fault` is the first at which it
// can't be read, and 0 where it can. `asked_shape` is the shape up to the `=`, `shape` that after it. All items stand in one row: the last list begins at `list`, the last
// bracket before the `=` at `output` and the one before that at `input`, the `=` is at `end`, and the last bracket of all at `after`. Of the `count`
// numbers the first `asked` stand before the `=`. Of the items up to `place`, the last `times` are `item` and still to be put there. `cases` lines were
// judged before, and `wrong` of them wrong.
#[derive(Clone, Copy, Default)]
pub(crate) struct Line {
    pub start: usize,
    pub length: usize,
    pub name: usize,
    pub fault: usize,
    pub letter: u8,
    pub shape: usize,
    pub asked_shape: usize,
    pub list: usize,
    pub input: usize,
    pub output: usize,
    pub end: usize,
    pub after: usize,
    pub asked: usize,
    pub count: usize,
    pub numbers: [usize; 16],
    pub number: bool,
    pub starred: bool,
    pub value: usize,
    pub item: usize,
    pub place: usize,
    pub times: usize,
    pub cases: u64,
    pub wrong: u64,
}

impl Line {
    pub(crate) fn new(start: usize, cases: u64, wrong: u64) -> Line {
        Line {
            start,
            cases,
            wrong,
            ..Line::default()
        }
    }

    // The line with one character more.
    pub(crate) fn with(mut self, byte: u8) -> Line {
        self.times = 0;
        self.length = std::num::wrapping_add_usize(self.length, 1);
        if self.name == 0 {
            self.name = pick(byte == b':', self.length, 0);
            return self;
        }
        let hex = (self.shape % 8 == OPEN_BYTES) & !self.starred;
        let digit = digit_of(byte, hex);
        if digit < 16 {
            self.grow(digit, hex)
        } else {
            self.put().mark(byte)
        }
    }

    fn refused(mut self, refused: bool) -> Line {
        self.fault = pick(refused & (self.fault == 0), self.length, self.fault);
        self
    }

    fn outside(self) -> bool {
        let last = self.shape % 8;
        (last != OPEN_BYTES) & (last != OPEN_LIST)
    }

    fn grow(mut self, digit: usize, hex: bool) -> Line {
        let value = self.value % 65536;
        self.number = true;
        self.value = pick(hex, value * 16, value * 10) % 1048576 + digit % 16;
        self.refused(65535 < self.value)
    }

    // Ends a number. One after a `*` says how often the item before it stands there.
    fn put(mut self) -> Line {
        let outside = self.outside();
        let place = pick(
            self.starred,
            std::num::wrapping_sub_usize(self.place, 1),
            self.place,
        );
        self.times = pick(self.number, pick(self.starred, self.value, 1), 0);
        self.item = pick(self.starred, self.item, self.value);
        self.place = std::num::wrapping_add_usize(place, self.times);
        let refused = (self.starred & (outside | !self.number))
            | ((self.shape % 8 == OPEN_BYTES) & (255 < self.item))
            | (ROOM < self.place);
        self.number(outside & self.number).refused(refused)
    }

    fn number(mut self, number: bool) -> Line {
        let count = self.count % 16;
        self.numbers[count] = self.value;
        self.count = pick(number, count + 1, count);
        self.shape = pick(number, extended(self.shape, NUMBER), self.shape);
        self
    }

    // What stands between numbers: a mark, a gap, a `*` behind a number, or a letter that is outside and not behind one.
    fn mark(mut self, byte: u8) -> Line {
        let gap = (byte == b' ') | (byte == b',') | (byte == b'\n');
        let letter = (b'a' <= byte) & (byte <= b'z') & self.outside() & !self.number;
        self.starred = (byte == b'*') & self.number & !self.starred;
        let refused = !(gap | letter | self.starred | is_mark(byte));
        self.letter = pick(letter & (self.letter == 0), byte, self.letter);
        self.number = false;
        self.value = 0;
        self.section(byte, is_mark(byte)).refused(refused)
    }

    fn section(mut self, byte: u8, mark: bool) -> Line {
        let asked = (byte == b'[') & (self.asked_shape == 0);
        self.list = pick(byte == b'(', self.place, self.list);
        self.input = pick(asked, self.output, self.input);
        self.output = pick(asked, self.place, self.output);
        self.after = pick(byte == b'[', self.place, self.after);
        self.shape = pick(mark, extended(self.shape, byte as usize % 9), self.shape);
        if byte == b'=' { self.equals() } else { self }
    }

    fn equals(mut self) -> Line {
        self.end = self.place;
        self.asked = self.count;
        self.asked_shape = pick(self.asked_shape == 0, self.shape, NO_SHAPE);
        self.shape = 0;
        self
    }

    pub(crate) fn asked(self, i: usize) -> usize {
        let i = i % 16;
        self.numbers[i]
    }

    pub(crate) fn expected(self, i: usize) -> usize {
        self.asked(std::num::wrapping_add_usize(self.asked, i))
    }

    // The verb of the first word's first letter.
    pub(crate) fn verb(self) -> Option<Verb> {
        Verb::of(self.letter)
    }

    // The line is read where what is asked has the shape that its verb wants, and an output is expected where one is given.
    pub(crate) fn is_read(self) -> bool {
        let expected = self.shape % 0o100 == 0o13;
        (self.fault == 0)
            & (self.asked_shape == shape_of(self.verb(), self.asked_shape))
            & (self.gives_output() == expected)
            & ((self.verb() != Some(Verb::Originate)) | (self.asked(6) < 256))
    }

    pub(crate) fn gives_output(self) -> bool {
        self.asked_shape % 0o100000 == 0o13_13_7
    }

    // The name; all of a line that has none.
    pub(crate) fn shown(self) -> usize {
        pick(
            self.name == 0,
            std::num::wrapping_sub_usize(self.length, 1),
            self.name,
        )
    }

    // What is missing is missed at the end.
    pub(crate) fn refused_at(self) -> usize {
        pick(self.fault == 0, self.length, self.fault)
    }

    // The next line, after this one was a case or not, wrong or not.
    pub(crate) fn next(self, case: bool, wrong: bool) -> Line {
        Line::new(
            std::num::wrapping_add_usize(self.start, self.length),
            std::num::wrapping_add_u64(self.cases, case as u64),
            std::num::wrapping_add_u64(self.wrong, wrong as u64),
        )
    }
}

const HEARING: usize = 0o2222222_45_13_13_7;

const COUNTING: usize = 0o2222_45_7;

const FORGETTING: usize = 0o2_45_7;

const TWO_LISTS: usize = 0o45_45_7;

const ORIGINATION: usize = 0o2222222_13_13_7;

const ADDRESSED: usize = 0o22222222_13_13_7;

// The shape of what a verb asks with.
fn shape_of(verb: Option<Verb>, asked: usize) -> usize {
    let Some(verb) = verb else {
        return NO_SHAPE;
    };
    match verb {
        Verb::Bound => 0o22_7,
        Verb::Exchange | Verb::Job | Verb::Read | Verb::View => 0o13_7,
        Verb::Lists => TWO_LISTS,
        Verb::Count => COUNTING,
        Verb::Forget => FORGETTING,
        Verb::Deliver | Verb::Hear | Verb::Step => HEARING,
        Verb::Originate => pick(asked == ADDRESSED, ADDRESSED, ORIGINATION),
        Verb::Pack | Verb::Write => 0o13_13_7,
    }
}

pub(crate) fn pick<T: Copy>(test: bool, yes: T, no: T) -> T {
    if test { yes } else { no }
}

fn is_mark(byte: u8) -> bool {
    (byte == b'(') | (byte == b')') | (byte == b'[') | (byte == b']') | (byte == b'=')
}

fn extended(shape: usize, digit: usize) -> usize {
    shape % 0o100_000_000_000_000_000_000 * 8 + digit % 8
}

// 99 for what is no digit.
fn digit_of(byte: u8, hex: bool) -> usize {
    let byte = byte as usize;
    let decimal = std::num::wrapping_sub_usize(byte, 48);
    let letter = std::num::wrapping_sub_usize(byte, 55);
    pick(decimal < 10, decimal, pick(hex & (64 < byte), letter, 99))
}
