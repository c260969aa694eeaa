// How often the report goes out, and how many bytes that is.
use super::network::Network;
use super::words::Count;
use bound::BoundError;
use chains::NODE_LIMIT;
use std::{fmt, io};
use ways::{Airtime, ROW};

// The count of transmissions stops here. No PDU has more than 4,615 bytes, so that of their bytes never stops before.
const ENOUGH: u64 = 10000000;

const ENOUGH_BYTES: u64 = 46150000000;

// How often it goes out, and how many bytes that is, if they were asked for: in all, and of each node.
#[derive(Clone, Copy)]
pub(crate) struct Air {
    pub(crate) times: u64,
    pub(crate) octets: Option<u64>,
    pub(crate) times_of: [u64; NODE_LIMIT],
    pub(crate) octets_of: [u64; NODE_LIMIT],
}

// None where the count stops.
pub(crate) fn count(network: &Network, size: Option<u16>) -> Option<Air> {
    let nodes = network.nodes();
    let hop_limit = u64::from(network.hop_limit);
    let mut table = [0u8; NODE_LIMIT * ROW];
    let mut all_marks = network.all_marks();
    let marks = &mut all_marks[..nodes];
    let mut air = Air {
        times: 0,
        octets: None,
        times_of: [0; NODE_LIMIT],
        octets_of: [0; NODE_LIMIT],
    };
    let pairs = network.pairs();
    let times_of = &mut air.times_of[..nodes];
    let Airtime::Exactly(times) = ways::transmissions(
        pairs, 0, hop_limit, ENOUGH, marks, times_of, &mut table,
    ) else {
        return None;
    };
    air.times = times;
    let Some(size) = size else {
        return Some(air);
    };
    let octets_of = &mut air.octets_of[..nodes];
    let octets = ways::bytes(
        pairs,
        0,
        hop_limit,
        size,
        ENOUGH_BYTES,
        marks,
        octets_of,
        &mut table,
    );
    air.octets = match octets {
        Airtime::Exactly(number) => Some(number),
        _ => Some(0),
    };
    Some(air)
}

// A bound of a thing, or that it is larger than 64 bits hold.
#[derive(Clone, Copy)]
struct Most<'a>(Result<u64, BoundError>, &'a str);

impl fmt::Display for Most<'_> {
    fn fmt<W: fmt::Write>(&self, f: &mut fmt::Formatter<W>) -> fmt::Result {
        let Most(bound, what) = self;
        match bound {
            Ok(number) => write!(f, "{}", Count(*number, *what)),
            Err(_) => write!(f, "more than 18446744073709551615 {what}s"),
        }
    }
}

pub(crate) fn print_airtime(
    rt: &impl Print,
    network: &Network,
    size: Option<u16>,
    air: Option<Air>,
) -> io::Result<()> {
    let hop_limit = u64::from(network.hop_limit);
    let nodes = network.repeaters();
    let repeaters = Count(nodes, "repeater");
    print!(rt; "the report goes out ")?;
    match air {
        Some(Air { times, .. }) => {
            let times = Count(times, "time");
            print!(rt; "{times}")?;
        }
        None => print!(rt; "{ENOUGH} times or more, where the count stops,")?,
    }
    let most = Most(bound::most_transmissions(nodes, hop_limit), "time");
    println!(rt; " on this network, and {most} on the worst one with {repeaters}")?;
    let Some(
        Air {
            octets: Some(octets),
            ..
        },
    ) = air
    else {
        return Ok(());
    };
    let Some(size) = size else {
        return Ok(());
    };
    let octets = Count(octets, "byte");
    let most = Most(bound::most_bytes(nodes, hop_limit, u64::from(size)), "byte");
    println!(rt;
        "that is {octets} on the air if the fresh report has {size}, and {most} on the worst one"
    )
}
