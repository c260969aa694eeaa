// What is printed of a network: a line a node, the totals, how often the report goes out, and what the failure of a node does.
use super::airtime::{Air, count, print_airtime};
use super::failures::print_failures;
use super::network::Network;
use super::words::Count;
use chains::{NO_CHAIN, NO_NODE, NODE_LIMIT};
use std::io;

// The size is that of the fresh report, where bytes are asked for.
pub(crate) fn print_report(
    rt: &(impl Print + Eprint),
    network: &Network,
    size: Option<u16>,
) -> io::Result<()> {
    let mut all = [0u8; NODE_LIMIT];
    let lengths = &mut all[..network.nodes()];
    if !chains::find_lengths(network.pairs(), network.marks(), 0, NO_NODE, lengths) {
        return say_unserved(rt);
    }
    let hop_limit = network.hop_limit;
    let originator = network.address(0);
    println!(rt; "hop limit {hop_limit}, originator {originator}")?;
    let air = count(network, size);
    print_nodes(rt, network, lengths, air)?;
    print_totals(rt, hop_limit, lengths)?;
    print_airtime(rt, network, size, air)?;
    print_failures(rt, network, lengths)?;
    print_conditions(rt)
}

// The network's reader refuses such a network, with its line.
fn say_unserved(rt: &impl Eprint) -> io::Result<()> {
    eprintln!(rt; "reach: the network has no originator or more than 255 nodes")
}

fn print_nodes(
    rt: &impl Print,
    network: &Network,
    lengths: &[u8],
    air: Option<Air>,
) -> io::Result<()> {
    for (node, length) in lengths.iter().enumerate() {
        let address = network.address(node);
        let mute = network.is_mute(node);
        print!(rt; "node {address}")?;
        print_chain(rt, network.hop_limit, *length, mute)?;
        if mute {
            print!(rt; "; does not repeat")?;
        } else if let Some(air) = air {
            print_sent(rt, air, node)?;
        }
        println!(rt; "")?;
    }
    Ok(())
}

// A mark also stands for lists that stop the report, so of a mute node delivery is said with that condition.
fn print_chain(rt: &impl Print, hop_limit: u8, length: u8, mute: bool) -> io::Result<()> {
    if length == 0 {
        return print!(rt; ": the originator");
    }
    if length == NO_CHAIN {
        return print!(rt; ": no chain, out of reach");
    }
    let hearings = Count(u64::from(length), "hearing");
    if !chains::is_delivered(hop_limit, length) {
        return print!(rt; ": chain of {hearings}, out of reach");
    }
    let path_count = length - 1;
    print!(rt; ": chain of {hearings}, delivered with path count {path_count}")?;
    if mute {
        print!(rt; " if its lists let it in")?;
    }
    Ok(())
}

fn print_sent(rt: &impl Print, air: Air, node: usize) -> io::Result<()> {
    let times = Count(of(&air.times_of, node), "time");
    print!(rt; "; sends it {times}")?;
    if air.octets.is_some() {
        let octets = Count(of(&air.octets_of, node), "byte");
        print!(rt; ", {octets}")?;
    }
    Ok(())
}

fn of(counts: &[u64; NODE_LIMIT], node: usize) -> u64 {
    if node < NODE_LIMIT { counts[node] } else { 0 }
}

fn print_totals(rt: &impl Print, hop_limit: u8, lengths: &[u8]) -> io::Result<()> {
    let missed = Count(chains::missed(hop_limit, lengths) as u64, "node");
    println!(rt; "{missed} out of reach")?;
    match chains::least_hop_limit(lengths) {
        Some(least) => println!(rt; "the least hop limit that reaches all is {least}"),
        None => println!(rt; "no hop limit reaches all"),
    }
}

fn print_conditions(rt: &impl Print) -> io::Result<()> {
    println!(rt;
        "This holds if the report is fresh and has a path. Each transmission is taken once by every node that hears its sender, and by no other."
    )?;
    println!(rt; "Every node has its own address, echo suppression on and lists without fault.")?;
    println!(rt;
        "A node without `-` repeats the report and has room for it (4615 bytes always suffice)."
    )?;
    println!(rt;
        "A node whose lists stop the report has a `-` and is not delivered it. A destination has a `-`, and only it is delivered the report."
    )?;
    println!(rt; "If transmissions are lost, the report goes out no more often.")
}
