// Planning: whom a report reaches on a network and how often it goes out there; how often one report, and one command with its acknowledgements, can go
// out at most; the sizes.
ghost use Rattle.std.specs.Prelude.{cond, ◌≡◌, ltb, max};
ghost use Rattle.chains.specs.Lengths.{LengthsFound};
ghost use Rattle.chains.specs.Reach.{least_hop};
ghost use Rattle.bound.specs.Bound.{bound, bytes_bound};
ghost use Rattle.bound.specs.Answer.{bound_answer};
ghost use Rattle.bound.specs.Command.{command_bound};
ghost use Rattle.ways.specs.declared.Airtime.TheVariants.{HopRefused, NotServed};
ghost use Rattle.boundary.specs.Boundary.{bound_in_c, BytesInC, CountsInC, least_in_c, limits_in_c};

use boundary::{MantAirtime, MantBound, MantLimits};
use ways::Airtime;

// Writes for each node of a network how many hearings its shortest chain from the node at `from` has, or 255 where there is none, as
// `chains::find_lengths` does: a chain goes through nodes that repeat, and not by the node at `failed`; 255 there says that none has failed. Document 02,
// W-208.
pub fn mant_chain_lengths(
    pairs: &[u8],
    marks: &[u8],
    from: usize,
    failed: usize,
    lengths: &mut [u8],
) -> bool
    ensures { LengthsFound pairs.now marks.now from failed lengths.old result lengths.new }
{
    chains::find_lengths(pairs, marks, from, failed, lengths)
}

// The least hop limit that reaches all nodes, by their lengths as `mant_chain_lengths` writes them; 8 where none does. Document 02, W-208.
pub fn mant_least_hop_limit(lengths: &[u8]) -> u8
    ensures { result ≡ least_in_c (least_hop lengths.now) }
{
    boundary::least_in_c(chains::least_hop_limit(lengths))
}

// How often one fresh message with a path goes out on a network, as `ways::transmissions` counts it. `counts` gets how often each node sends it. Crate
// `planning_own_network`, `within`, `exact` and `by_count`.
pub fn mant_network_transmissions(
    pairs: &[u8],
    from: usize,
    hop_limit: u64,
    enough: u64,
    marks: &mut [u8],
    counts: &mut [u64],
    table: &mut [u8],
) -> MantAirtime
    ensures { CountsInC pairs.now marks.old from hop_limit 1 0 enough counts.old table.old
        result marks.new counts.new table.new }
{
    boundary::airtime_in_c(ways::transmissions(
        pairs, from, hop_limit, enough, marks, counts, table,
    ))
}

// How many bytes these transmissions have together, if the fresh message has `size` bytes. `counts` gets each node's own bytes. A size above 65,535 is
// not served, and nothing is written.
pub fn mant_network_bytes(
    pairs: &[u8],
    from: usize,
    hop_limit: u64,
    size: u64,
    enough: u64,
    marks: &mut [u8],
    counts: &mut [u64],
    table: &mut [u8],
) -> MantAirtime
    ensures { BytesInC pairs.now marks.old from hop_limit size enough counts.old table.old
        result marks.new counts.new table.new }
{
    let Ok(size) = u16::try_from(size) else {
        return boundary::airtime_in_c(size_refused(hop_limit));
    };
    boundary::airtime_in_c(ways::bytes(pairs, from, hop_limit, size, enough, marks, counts, table))
}

fn size_refused(hop_limit: u64) -> Airtime
    ensures { result ≡ cond (ltb 7 hop_limit) HopRefused NotServed }
{
    if hop_limit > 7 {
        Airtime::HopRefused
    } else {
        Airtime::NotServed
    }
}

// The most transmissions that one fresh message with that hop limit can cause among so many repeating nodes, its own counted. Its originator and its
// destination do not count among them, also if they repeat. That holds where the message was originated with a path, echo is on at every node, the
// originator too, no two nodes have the same address, and none takes a transmission twice. A radio hears each transmission once; a decoder that hands a
// frame over twice breaks that. Any numbers are answered: number 10 for a hop limit above 7, else `too_large` where 64 bits do not hold the value.
// Document 01, "Checked by hand", the bound of demand 3; document 02, W-203.
pub fn mant_most_transmissions(nodes: u64, hop_limit: u64) -> MantBound
    ensures { result ≡ bound_in_c (bound_answer hop_limit (bound nodes hop_limit)) }
{
    boundary::bound_in_c(bound::most_transmissions(nodes, hop_limit))
}

// The most bytes that those transmissions have together, if the fresh message has `size` bytes. That holds where `mant_most_transmissions` does.
// Any size is answered, also one that no PDU has: number 10 for a hop limit above 7, else `too_large` where 64 bits do not hold the value.
// Document 01, "One PDU at one node", by how much a PDU grows.
pub fn mant_most_bytes(nodes: u64, hop_limit: u64, size: u64) -> MantBound
    ensures { result ≡ bound_in_c (bound_answer hop_limit (bytes_bound nodes hop_limit size)) }
{
    boundary::bound_in_c(bound::most_bytes(nodes, hop_limit, size))
}

// The most transmissions that one command can cause, where it is sent once and then again at most `tries` times, its acknowledgements counted: its
// destination answers every copy that arrives. `answer_nodes` and `answer_hop_limit` are the acknowledgement's. That holds where `mant_most_transmissions`
// does for both. Number 10 for a hop limit above 7, else `too_large` where 64 bits do not hold the value. Document 02, W-210.
pub fn mant_most_for_command(
    tries: u64,
    nodes: u64,
    hop_limit: u64,
    answer_nodes: u64,
    answer_hop_limit: u64,
) -> MantBound
    ensures { result ≡ bound_in_c (bound_answer (max hop_limit answer_hop_limit)
        (command_bound tries (bound nodes hop_limit) (bound answer_nodes answer_hop_limit))) }
{
    boundary::bound_in_c(bound::most_for_command(
        tries,
        nodes,
        hop_limit,
        answer_nodes,
        answer_hop_limit,
    ))
}

// The sizes that the layer keeps to. Document 01, "Sizes", and for the list's values "Numbers answered", 22.
pub fn mant_limits() -> MantLimits
    ensures { result ≡ limits_in_c }
{
    boundary::limits_in_c()
}
