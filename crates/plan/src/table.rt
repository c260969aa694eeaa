// The table of bounds, a row for each number of nodes and a column for each hop limit.
use crate::words::say_once;
use std::io;

// Prints the bounds for 0 to 12 repeating nodes and hop limits 0 to 7.
pub(crate) fn print_table(rt: &impl Print) -> io::Result<()> {
    print_title(rt)?;
    for nodes in 0..13 {
        print_row(rt, nodes)?;
    }
    Ok(())
}

fn print_title(rt: &impl Print) -> io::Result<()> {
    println!(rt; "The most times that one report can go out on the air, its first time counted,")?;
    println!(rt; "by repeating nodes N and hop limit h. A hop limit of 7 sets no limit.")?;
    println!(rt; "The report's originator and its destination do not count, also if they repeat.")?;
    println!(rt; "The report was originated with a path, every node has echo suppression on,")?;
    println!(rt; "the originator too, no two nodes have the same address, and no node takes a")?;
    println!(rt; "transmission twice.")?;
    say_once(rt)?;
    println!(rt; "\n  N     h=0     h=1     h=2     h=3     h=4     h=5     h=6         h=7")
}

// A column has 8 bytes for each hop limit below 7, and 12 for the larger bounds at 7.
fn print_row(rt: &impl Print, nodes: u64) -> io::Result<()> {
    print!(rt; "{nodes:>3}")?;
    for hop_limit in 0..8 {
        let width: usize = if hop_limit < 7 { 8 } else { 12 };
        match bound::most_transmissions(nodes, hop_limit) {
            Ok(number) => print!(rt; "{number:>width$}")?,
            Err(_) => print!(rt; "{:>width$}", "")?,
        }
    }
    println!(rt; "")
}
