// Planning: whom a report reaches on a network and how often it goes out there; how often one report, and one command with its acknowledgements, can go
// out at most; the sizes.
ghost use Rattle.std.specs.Prelude.{◌≡◌, max};
ghost use Rattle.chains.specs.Lengths.{LengthsFound};
ghost use Rattle.chains.specs.Reach.{least_hop};
ghost use Rattle.bound.specs.Bound.{bound, bytes_bound};
ghost use Rattle.bound.specs.Answer.{bound_answer};
ghost use Rattle.bound.specs.Command.{command_bound};
ghost use Rattle.boundary.specs.Boundary.{bound_in_c, BytesInC, CountsInC, least_in_c, limits_in_c};

use boundary::{MantAirtime, MantBound, MantLimits};

#[unsafe(no_mangle)]
pub extern "C" fn mant_chain_lengths(
    pairs: &[u8],
    marks: &[u8],
    from: usize,
    failed: usize,
    lengths: &mut [u8],
) -> bool
    ensures { LengthsFound pairs.now marks.now from failed lengths.old result lengths.new }
{
    mant::planning::mant_chain_lengths(pairs, marks, from, failed, lengths)
}

#[unsafe(no_mangle)]
pub extern "C" fn mant_least_hop_limit(lengths: &[u8]) -> u8
    ensures { result ≡ least_in_c (least_hop lengths.now) }
{
    mant::planning::mant_least_hop_limit(lengths)
}

#[unsafe(no_mangle)]
pub extern "C" fn mant_network_transmissions(
    pairs: &[u8],
    from: usize,
    hop_limit: u64,
    enough: u64,
    marks: &mut [u8],
    counts: &mut [u64],
    table: &mut [u8],
) -> MantAirtime
    ensures { CountsInC pairs.now marks.old from hop_limit 1 0 enough counts.old table.old
        result marks.new counts.new table.new }
{
    mant::planning::mant_network_transmissions(pairs, from, hop_limit, enough, marks, counts, table)
}

#[unsafe(no_mangle)]
pub extern "C" fn mant_network_bytes(
    pairs: &[u8],
    from: usize,
    hop_limit: u64,
    size: u64,
    enough: u64,
    marks: &mut [u8],
    counts: &mut [u64],
    table: &mut [u8],
) -> MantAirtime
    ensures { BytesInC pairs.now marks.old from hop_limit size enough counts.old table.old
        result marks.new counts.new table.new }
{
    mant::planning::mant_network_bytes(pairs, from, hop_limit, size, enough, marks, counts, table)
}

#[unsafe(no_mangle)]
pub extern "C" fn mant_most_transmissions(nodes: u64, hop_limit: u64) -> MantBound
    ensures { result ≡ bound_in_c (bound_answer hop_limit (bound nodes hop_limit)) }
{
    mant::planning::mant_most_transmissions(nodes, hop_limit)
}

#[unsafe(no_mangle)]
pub extern "C" fn mant_most_bytes(nodes: u64, hop_limit: u64, size: u64) -> MantBound
    ensures { result ≡ bound_in_c (bound_answer hop_limit (bytes_bound nodes hop_limit size)) }
{
    mant::planning::mant_most_bytes(nodes, hop_limit, size)
}

#[unsafe(no_mangle)]
pub extern "C" fn mant_most_for_command(
    tries: u64,
    nodes: u64,
    hop_limit: u64,
    answer_nodes: u64,
    answer_hop_limit: u64,
) -> MantBound
    ensures { result ≡ bound_in_c (bound_answer (max hop_limit answer_hop_limit)
        (command_bound tries (bound nodes hop_limit) (bound answer_nodes answer_hop_limit))) }
{
    mant::planning::mant_most_for_command(tries, nodes, hop_limit, answer_nodes, answer_hop_limit)
}

#[unsafe(no_mangle)]
pub extern "C" fn mant_limits() -> MantLimits
    ensures { result ≡ limits_in_c }
{
    mant::planning::mant_limits()
}
