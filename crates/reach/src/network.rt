// A network read from its text, byte by byte: first a line with the hop limit, then for each node a line with its address and the addresses that hear it.
// White space, `:` and `,` stand between numbers; a `-` after a line's first address says that this node does not repeat the report; a `#` begins a
// comment, up to the line's end; lines without a number say nothing.
ghost use Rattle.std.specs.Prelude.{◌≤◌};

use chains::NODE_LIMIT;
use octets::part;
use std::fmt;

// Room for 16,384 hearings, two bytes each.
const PAIRS_ROOM: usize = 32768;

#[derive(Clone, Copy, Debug, PartialEq, Eq)]
pub(crate) enum Fault {
    NotDecimal,
    AddressTooLarge,
    HopLimitTooLarge,
    HopLimitNotAlone,
    MarkMisplaced,
    TooManyNodes,
    TooManyHearings,
    NoHopLimit,
    NoNode,
}

impl fmt::Display for Fault {
    fn fmt<W: fmt::Write>(&self, f: &mut fmt::Formatter<W>) -> fmt::Result {
        match self {
            Fault::NotDecimal => write!(
                f,
                "only decimal numbers, white space, `:`, `,`, `-` and comments after `#` are taken"
            ),
            Fault::AddressTooLarge => write!(f, "an address is at most 65535"),
            Fault::HopLimitTooLarge => write!(f, "the hop limit, the first number, is 0 to 7"),
            Fault::HopLimitNotAlone => write!(f, "the hop limit stands alone on its line"),
            Fault::MarkMisplaced => write!(
                f,
                "a `-` follows the first address of its line, and white space, `:` or `,` follows it"
            ),
            Fault::TooManyNodes => write!(f, "there are more than 255 nodes"),
            Fault::TooManyHearings => write!(f, "there are more than 16384 hearings"),
            Fault::NoHopLimit => write!(f, "the text ends before the hop limit"),
            Fault::NoNode => write!(f, "the text ends before the originator's line"),
        }
    }
}

// What a text stopped at, and on which of its lines, the first being 1.
#[derive(Clone, Copy)]
pub(crate) struct Refusal {
    pub(crate) line: usize,
    pub(crate) fault: Fault,
}

// A node is a place among the addresses. The pairs say who hears whom, and a mark says that its node does not repeat the report.
#[derive(Clone, Copy)]
pub(crate) struct Network {
    pub(crate) hop_limit: u8,
    nodes: u8,
    addresses: [u16; NODE_LIMIT],
    marks: [u8; NODE_LIMIT],
    pairs_end: usize,
    pairs: [u8; PAIRS_ROOM],
}

impl Network {
    fn new() -> Network {
        Network {
            hop_limit: 0,
            nodes: 0,
            addresses: [0; NODE_LIMIT],
            marks: [0; NODE_LIMIT],
            pairs_end: 0,
            pairs: [0; PAIRS_ROOM],
        }
    }

    pub(crate) fn nodes(&self) -> usize
        ensures { result ≤ 255 }
    {
        usize::from(self.nodes)
    }

    pub(crate) fn address(&self, node: usize) -> u16 {
        if node < NODE_LIMIT {
            self.addresses[node]
        } else {
            0
        }
    }

    pub(crate) fn marks(&self) -> &[u8] {
        &self.marks[..usize::from(self.nodes)]
    }

    pub(crate) fn all_marks(&self) -> [u8; NODE_LIMIT] {
        self.marks
    }

    pub(crate) fn pairs(&self) -> &[u8] {
        part(&self.pairs, 0, self.pairs_end)
    }

    // The originator sends the report, also where it repeats nothing.
    pub(crate) fn is_mute(&self, node: usize) -> bool {
        node > 0 && node < NODE_LIMIT && self.marks[node] > 0
    }

    // How many nodes besides the originator repeat the report.
    pub(crate) fn repeaters(&self) -> u64 {
        let repeaters = self
            .marks()
            .iter()
            .skip(1)
            .filter(|mark| **mark == 0)
            .count();
        repeaters as u64
    }

    // The node of that address, a new one where there is none.
    fn node_of(&mut self, address: u16) -> Result<u8, Fault> {
        let nodes = usize::from(self.nodes);
        for node in 0..nodes {
            if self.addresses[node] == address {
                return Ok(node as u8);
            }
        }
        if nodes >= NODE_LIMIT {
            return Err(Fault::TooManyNodes);
        }
        self.addresses[nodes] = address;
        self.nodes += 1;
        Ok(nodes as u8)
    }

    fn put_hearing(&mut self, sender: u8, node: u8) -> Result<(), Fault> {
        let end = self.pairs_end;
        if end > PAIRS_ROOM - 2 {
            return Err(Fault::TooManyHearings);
        }
        self.pairs[end] = sender;
        self.pairs[end + 1] = node;
        self.pairs_end = end + 2;
        Ok(())
    }

    fn put_mark(&mut self, node: u8) {
        let node = usize::from(node);
        if node < NODE_LIMIT {
            self.marks[node] = 1;
        }
    }
}

// What the numbers of a line said so far: none, the hop limit, the sender, or the sender and others that hear it.
#[derive(Clone, Copy)]
enum Line {
    Empty,
    HopLimit,
    Sender(u8),
    Hearings(u8),
}

#[derive(Clone, Copy)]
struct Reader {
    network: Network,
    hop_limit: Option<u8>,
    number: Option<u32>,
    line: Line,
    in_comment: bool,
    after_mark: bool,
}

// Reads a text as far as it is a network.
pub(crate) fn read_network(text: &[u8]) -> Result<Network, Refusal> {
    let mut reader = Reader {
        network: Network::new(),
        hop_limit: None,
        number: None,
        line: Line::Empty,
        in_comment: false,
        after_mark: false,
    };
    for at in 0..text.len() {
        if let Err(fault) = reader.read(text[at]) {
            return Err(refused(&text[..at], fault));
        }
    }
    match reader.whole() {
        Ok(()) => Ok(reader.network),
        Err(fault) => Err(refused(text, fault)),
    }
}

// The fault stands behind these bytes of the text.
fn refused(before: &[u8], fault: Fault) -> Refusal {
    let ends = before.iter().filter(|byte| **byte == b'\n').count();
    Refusal {
        line: ends + 1,
        fault,
    }
}

impl Reader {
    fn read(&mut self, byte: u8) -> Result<(), Fault> {
        if byte == b'\n' {
            return self.end_line();
        }
        if self.in_comment {
            return Ok(());
        }
        if byte.is_ascii_digit() {
            return self.put_digit(u32::from(byte - b'0'));
        }
        match byte {
            b'#' => {
                self.end_number()?;
                self.in_comment = true;
                Ok(())
            }
            b'-' => {
                self.end_number()?;
                self.put_mark()
            }
            b':' | b',' | b' ' | b'\t' | 11 | 12 | b'\r' => {
                self.end_number()?;
                self.after_mark = false;
                Ok(())
            }
            _ => Err(Fault::NotDecimal),
        }
    }

    // A network has a hop limit and at least one node, the originator.
    fn whole(&mut self) -> Result<(), Fault> {
        self.end_line()?;
        let Some(hop_limit) = self.hop_limit else {
            return Err(Fault::NoHopLimit);
        };
        self.network.hop_limit = hop_limit;
        if self.network.nodes == 0 {
            return Err(Fault::NoNode);
        }
        Ok(())
    }

    fn end_line(&mut self) -> Result<(), Fault> {
        self.end_number()?;
        self.line = Line::Empty;
        self.in_comment = false;
        self.after_mark = false;
        Ok(())
    }

    fn put_digit(&mut self, digit: u32) -> Result<(), Fault>
        requires { digit ≤ 9 }
    {
        if self.after_mark {
            return Err(Fault::MarkMisplaced);
        }
        let number = self.number.unwrap_or(0);
        if number > 6553 {
            return Err(match self.hop_limit {
                Some(_) => Fault::AddressTooLarge,
                None => Fault::HopLimitTooLarge,
            });
        }
        self.number = Some(number * 10 + digit);
        Ok(())
    }

    // The mark of the node at the line's start.
    fn put_mark(&mut self) -> Result<(), Fault> {
        let Line::Sender(node) = self.line else {
            return Err(Fault::MarkMisplaced);
        };
        if self.after_mark {
            return Err(Fault::MarkMisplaced);
        }
        self.network.put_mark(node);
        self.after_mark = true;
        Ok(())
    }

    // The number that ends here, if one does: the hop limit, a node, or a node that hears the one at its line's start.
    fn end_number(&mut self) -> Result<(), Fault> {
        let Some(number) = self.number else {
            return Ok(());
        };
        self.number = None;
        if self.hop_limit.is_none() {
            return self.put_hop_limit(number);
        }
        if matches!(self.line, Line::HopLimit) {
            return Err(Fault::HopLimitNotAlone);
        }
        let Ok(address) = u16::try_from(number) else {
            return Err(Fault::AddressTooLarge);
        };
        let node = self.network.node_of(address)?;
        self.put_node(node)
    }

    fn put_hop_limit(&mut self, number: u32) -> Result<(), Fault> {
        if number > 7 {
            return Err(Fault::HopLimitTooLarge);
        }
        self.hop_limit = Some(number as u8);
        self.line = Line::HopLimit;
        Ok(())
    }

    fn put_node(&mut self, node: u8) -> Result<(), Fault> {
        match self.line {
            Line::Sender(sender) | Line::Hearings(sender) => {
                self.network.put_hearing(sender, node)?;
                self.line = Line::Hearings(sender);
            }
            _ => self.line = Line::Sender(node),
        }
        Ok(())
    }
}
