// How many times one report can go out on the air at most, and how many bytes that is.
#![tactic(auto)]

ghost use Rattle.std.specs.Prelude.{◌≡◌, ◌+◌, ◌*◌, ◌<◌, ◌≤◌, max};
ghost use Rattle.bound.specs.Bound.{series, terms, bound, bytes_bound};
ghost use Rattle.bound.specs.Command.{sendings_bound, command_bound};
ghost use Rattle.bound.specs.Answer.{within64_bits, bound_answer, bound_number};

use BoundError::{HopRefused, TooLarge};

// Why no number is answered: 64 bits do not hold it, or the hop limit is above 7.
#[derive(Clone, Copy, Debug, PartialEq, Eq)]
pub enum BoundError {
    TooLarge,
    HopRefused,
}

// The most transmissions that one fresh message with that hop limit can cause among so many repeating nodes, its own counted: 1 + N + N (N - 1) + ..
// Its originator and its destination do not count among them, also if they repeat. That holds where the message was originated with a path, echo is on at every
// node, the originator too, no two nodes have the same address, and none takes a transmission twice. A radio hears each transmission once; a decoder that
// hands a frame over twice breaks that. Any numbers are answered, within 21 turns of a loop: `HopRefused` for a hop limit above 7, else `TooLarge` where 64
// bits do not hold the number.
// Document 01, "Checked by hand", the bound of demand 3; document 02, W-203.
pub fn most_transmissions(nodes: u64, hop_limit: u64) -> Result<u64, BoundError>
    ensures { result ≡ bound_answer hop_limit (bound nodes hop_limit) }
{
    at_hop_limit(nodes, hop_limit, 1, 0)
}

// The most bytes that those transmissions have together, if the fresh message has `size` bytes: each entry of a path adds 2. That holds where
// `most_transmissions` does. Any size is answered, also one that no PDU has; `HopRefused` for a hop limit above 7, else `TooLarge` where 64 bits do
// not hold the bytes, which may be so where they hold the transmissions. Document 01, "One PDU at one node", by how much a PDU grows.
pub fn most_bytes(nodes: u64, hop_limit: u64, size: u64) -> Result<u64, BoundError>
    ensures { result ≡ bound_answer hop_limit (bytes_bound nodes hop_limit size) }
{
    at_hop_limit(nodes, hop_limit, size, 2)
}

// The most transmissions that carry one command, where it is sent once and then again at most `tries` times. That holds where `most_transmissions`
// does. `HopRefused` for a hop limit above 7, else `TooLarge` where 64 bits do not hold the number. Document 02, W-210.
pub fn most_sendings(tries: u64, nodes: u64, hop_limit: u64) -> Result<u64, BoundError>
    ensures { result ≡ bound_answer hop_limit (sendings_bound tries nodes hop_limit) }
{
    let each = most_transmissions(nodes, hop_limit)?;
    let sendings = tries.checked_add(1).ok_or(TooLarge)?;
    sendings.checked_mul(each).ok_or(TooLarge)
}

// The most transmissions that one command can cause, its acknowledgements counted: its destination answers every copy that arrives, and each answer is a
// fresh message. `answer_nodes` and `answer_hop_limit` are the acknowledgement's. That holds where `most_transmissions` does for both, command and
// acknowledgement. `HopRefused` for a hop limit above 7, else `TooLarge` where 64 bits do not hold the number. Document 02, W-210.
pub fn most_for_command(
    tries: u64,
    nodes: u64,
    hop_limit: u64,
    answer_nodes: u64,
    answer_hop_limit: u64,
) -> Result<u64, BoundError>
    ensures { result ≡ bound_answer (max hop_limit answer_hop_limit)
        (command_bound tries (bound nodes hop_limit) (bound answer_nodes answer_hop_limit)) }
{
    if hop_limit.max(answer_hop_limit) > 7 {
        return Err(HopRefused);
    }
    let sendings = most_sendings(tries, nodes, hop_limit)?;
    let answers = most_transmissions(answer_nodes, answer_hop_limit)?;
    let each = answers.checked_add(1).ok_or(TooLarge)?;
    sendings.checked_mul(each).ok_or(TooLarge)
}

// The number that goes with an answer: 10 for a hop limit that is refused, else 0. Document 01, "Numbers answered", 10.
pub fn refusal(bound: Result<u64, BoundError>) -> u64
    ensures { result ≡ bound_number bound }
{
    match bound {
        Ok(_) => 0,
        Err(TooLarge) => 0,
        Err(HopRefused) => 10,
    }
}

// The bound where a message with k path entries counts as size + growth * k.
fn at_hop_limit(nodes: u64, hop_limit: u64, size: u64, growth: u64) -> Result<u64, BoundError>
    requires { 0 < size + growth }
    ensures { result ≡ bound_answer hop_limit (series (λ k. size + growth * k) nodes (terms nodes hop_limit)) }
{
    if hop_limit > 7 {
        return Err(HopRefused);
    }
    add_up(nodes, terms_of(nodes, hop_limit), size, growth)
}

// 7 sets no limit to the hops, so that only the nodes do.
fn terms_of(nodes: u64, hop_limit: u64) -> u64
    ensures { (result ≡ terms nodes hop_limit) × (result ≤ nodes) }
{
    if hop_limit == 7 {
        return nodes;
    }
    hop_limit.min(nodes)
}

// size + n (size + growth) + n (n - 1) (size + 2 growth) + .., with so many terms after the
// first. A product of 21 factors does not fit 64 bits, so there are never more turns than that.
fn add_up(nodes: u64, terms: u64, size: u64, growth: u64) -> Result<u64, BoundError>
    requires { (terms ≤ nodes) × (0 < size + growth) }
    ensures { result ≡ within64_bits (series (λ k. size + growth * k) nodes terms) }
{
    let mut total = size;
    let mut paths: u64 = 1;
    let mut grown = size;
    for k in 0..terms {
        prove!(k < 21);
        paths = paths.checked_mul(nodes - k).ok_or(TooLarge)?;
        grown = grown.checked_add(growth).ok_or(TooLarge)?;
        let term = paths.checked_mul(grown).ok_or(TooLarge)?;
        total = total.checked_add(term).ok_or(TooLarge)?;
    }
    Ok(total)
}
