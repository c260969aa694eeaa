// Shortest chains of hearings in a network of up to 255 nodes, and how far a report reaches.
#![tactic(auto)]

ghost use Rattle.std.specs.Prelude.{◌≡◌, ◌<◌, length, true};
ghost use Rattle.chains.specs.Lengths.{is_usable, are_found, LengthsFound};
ghost use Rattle.chains.specs.Reach.{is_delivered, is_missed, missed, least_hop};
ghost use Rattle.chains.specs.Rounds.{has_length, noted, after_round};

use octets::byte;

// The most nodes that are served.
pub const NODE_LIMIT: usize = 255;

// Stands where a length would, for a node that no chain reaches.
// Kept: C takes the lengths as bytes of its own memory, so that no Option fits there.
pub const NO_CHAIN: u8 = 255;

// The place of no node: none has failed.
// Kept: C gives the place that has failed as a number, and any place that no node has says the same.
pub const NO_NODE: usize = 255;

// Writes for each node of a network how many hearings its shortest chain from the node at `from` has, or 255 where there is no chain. `marks` has a byte
// for each node, not 0 for one that does not repeat the message; the originator's says nothing. `pairs` says who hears whom: a sender's place, then the
// place of a node that hears it, and so on. A pair with a place that no node has says nothing. A chain goes through nodes that repeat the message, and
// never by the node at `failed`. A place that no node has, such as `NO_NODE`, says that none has failed. If there are more than 255 nodes, no node at
// `from`, or not a byte of `lengths` for each node, this returns false and writes nothing. Document 02, W-208.
pub fn find_lengths(
    pairs: &[u8],
    marks: &[u8],
    from: usize,
    failed: usize,
    lengths: &mut [u8],
) -> bool
    ensures { LengthsFound pairs.now marks.now from failed lengths.old result lengths.new }
{
    let nodes = marks.len();
    if !is_served(nodes, from, lengths.len()) {
        return false;
    }
    lengths.fill(NO_CHAIN);
    lengths[from] = 0;
    let network = Network {
        marks,
        from,
        failed,
    };
    for k in 0..(nodes - 1) as u8 {
        network.round(pairs, k, lengths);
        if !lengths.contains(&(k + 1)) {
            return true;
        }
    }
    true
}

#[tactic(auto, unfolding(crate::specs::Lengths::are_found, crate::specs::Lengths::served))]
fn is_served(nodes: usize, from: usize, places: usize) -> bool
    ensures { result ≡ are_found nodes from places }
{
    nodes <= NODE_LIMIT && from < nodes && places == nodes
}

// A network's nodes: which of them repeat the message, which originates it, and which has failed.
#[derive(Clone, Copy)]
struct Network<'a> {
    marks: &'a [u8],
    from: usize,
    failed: usize,
}

impl Network<'_> {
    fn round(&self, pairs: &[u8], k: u8, lengths: &mut [u8])
        requires { k < 254 }
        ensures { lengths.new ≡ after_round (is_usable self.now.marks.now self.now.from self.now.failed) k pairs.now lengths.old }
    {
        for pair in pairs.chunks_exact(2) {
            // The sender first, and apart: in one test with the node, `reach` took up to 1.7 times as long.
            let sender = usize::from(pair[0]);
            if has_length(lengths, sender, k) {
                self.note(lengths, sender, usize::from(pair[1]), k);
            }
        }
    }

    #[tactic(auto, unfolding(crate::specs::Rounds::noted, crate::specs::Rounds::has_length))]
    fn note(&self, lengths: &mut [u8], sender: usize, node: usize, k: u8)
        requires { (k < 254) × (has_length lengths.old sender k ≡ true) }
        ensures { lengths.new ≡ noted (is_usable self.now.marks.now self.now.from self.now.failed) k sender node lengths.old }
    {
        if has_length(lengths, node, NO_CHAIN) && self.is_usable(sender, node) {
            lengths[node] = k + 1;
        }
    }

    #[tactic(auto, unfolding(crate::specs::Lengths::is_usable, crate::specs::Lengths::is_unmarked))]
    fn is_usable(&self, sender: usize, node: usize) -> bool
        ensures { result ≡ is_usable self.now.marks.now self.now.from self.now.failed sender node }
    {
        (sender == self.from || byte(self.marks, sender) == 0)
            && !(sender == self.failed || node == self.failed)
    }
}

#[tactic(auto, unfolding(crate::specs::Rounds::has_length))]
fn has_length(lengths: &[u8], place: usize, value: u8) -> bool
    ensures { result ≡ has_length lengths.now place value }
{
    place < lengths.len() && lengths[place] == value
}

// Whether a node of that length, as `find_lengths` writes it, is delivered a report with that hop limit: a length of 1 to the hop limit and one more, or
// any chain at 7, which is never lowered. The originator, of length 0, is not. Meant for hop limits from 0 to 7; any is answered. Document 02, W-208.
#[tactic(auto, unfolding(crate::specs::Reach::is_delivered))]
pub fn is_delivered(hop_limit: u8, hearings: u8) -> bool
    ensures { result ≡ is_delivered hop_limit hearings }
{
    hearings > 0 && hearings < NO_CHAIN && (hop_limit == 7 || hearings - 1 <= hop_limit)
}

// How many nodes other than the originator are not delivered a report with that hop limit. Meant for hop limits from 0 to 7; any is answered. Document 02,
// W-208.
// Kept: over an iterator the library counts wrong on boards of 32 bits.
pub fn missed(hop_limit: u8, lengths: &[u8]) -> usize
    ensures { result ≡ missed hop_limit lengths.now }
{
    let mut count: usize = 0;
    for i in 0..lengths.len() {
        count += octets::byte_value(octets::flag(is_missed(hop_limit, lengths[i])));
    }
    count
}

#[tactic(auto, unfolding(crate::specs::Reach::is_missed))]
fn is_missed(hop_limit: u8, hearings: u8) -> bool
    ensures { result ≡ is_missed hop_limit hearings }
{
    hearings > 0 && !is_delivered(hop_limit, hearings)
}

// The least hop limit of 0 to 7 at which no node is out of reach. At 7 that is so where each has a chain. Document 02, W-208.
pub fn least_hop_limit(lengths: &[u8]) -> Option<u8>
    ensures { result ≡ least_hop lengths.now }
{
    (0..8).find(|hop_limit| missed(*hop_limit, lengths) == 0)
}
