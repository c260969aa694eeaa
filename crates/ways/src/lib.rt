// How often one report goes out on the air in a network of up to 255 nodes of which it is known who hears whom, and how often each node sends it.
#![tactic(auto)]

ghost use Rattle.std.specs.Prelude.{◌≡◌, ◌+◌, ◌*◌, ◌^◌, ◌%◌, ◌<◌, ◌≤◌, length, set};
ghost use Rattle.octets.specs.Octets.{at};
ghost use Rattle.ways.specs.Ways.{ways_from};
ghost use Rattle.ways.specs.Answer.{is_served, hops_of, Counts};
ghost use Rattle.ways.specs.Table.{marked, link_of, Linked, is_heard_in, Rows, Filled};
ghost use Rattle.ways.specs.Tally.{increased, ways_to, Counted};

// An answer: how many, or that there are at least as many as the caller said is enough, or that the hop limit is above 7, or that the network is not
// served.
// Kept: no Result is plainer, since of the four outcomes `Enough` and `Exactly` are both answers, with a number and without.
#[derive(Clone, Copy)]
pub enum Airtime {
    Exactly(u64),
    Enough,
    HopRefused,
    NotServed,
}

// The most nodes that are served, and the bytes of the table that the caller lends for each node.
pub const NODE_LIMIT: usize = 255;

pub const ROW: usize = 256;

// How many transmissions one fresh message with that hop limit and a path leads to, its own counted, where every node takes what it hears: one for each path of
// hearings from the originator, through nodes that repeat the message. There are never more where each node has echo on and an address of its own, takes a
// transmission at most once, and hears none but those that `pairs` says (`within` in crate `planning_own_network`). The network has as many nodes as `marks`
// has bytes, and a node whose byte is not 0 does not repeat the message; `pairs` says who hears whom, as for `chains::find_lengths`. `counts` has a number for
// each node and gets how often it sends; `table`, of 256 bytes for each node or more, is the caller's to lend and is left cleared. The count stops at `enough`,
// which bounds the time that this takes; `counts` is then cleared. `marks` is as before in the end.
pub fn transmissions(
    pairs: &[u8],
    from: usize,
    hop_limit: u64,
    enough: u64,
    marks: &mut [u8],
    counts: &mut [u64],
    table: &mut [u8],
) -> Airtime
    ensures { Counts pairs.now marks.old from hop_limit 1 0 enough counts.old table.old
        result marks.new counts.new table.new }
{
    answer(pairs, from, hop_limit, 1, 0, enough, marks, counts, table)
}

// How many bytes these transmissions have together, if the fresh message has so many: each entry of a path adds 2. `counts` gets each node's own bytes.
pub fn bytes(
    pairs: &[u8],
    from: usize,
    hop_limit: u64,
    size: u16,
    enough: u64,
    marks: &mut [u8],
    counts: &mut [u64],
    table: &mut [u8],
) -> Airtime
    ensures { Counts pairs.now marks.old from hop_limit size 2 enough counts.old table.old
        result marks.new counts.new table.new }
{
    answer(
        pairs,
        from,
        hop_limit,
        u64::from(size),
        2,
        enough,
        marks,
        counts,
        table,
    )
}

fn answer(
    pairs: &[u8],
    from: usize,
    hop_limit: u64,
    price: u64,
    growth: u64,
    enough: u64,
    marks: &mut [u8],
    counts: &mut [u64],
    table: &mut [u8],
) -> Airtime
    requires { (price < 65536) × (growth ≤ 2) }
    ensures { Counts pairs.now marks.old from hop_limit price growth enough counts.old table.old
        result marks.new counts.new table.new }
{
    if hop_limit > 7 {
        return Airtime::HopRefused;
    }
    let nodes = marks.len();
    if !is_served(nodes, from, counts.len(), table.len()) {
        return Airtime::NotServed;
    }
    lay(pairs, nodes, table);
    counts.fill(0);
    let walk = Walk {
        table,
        growth,
        enough,
    };
    let count = count_apart(&walk, marks, counts, from, hops_of(nodes, hop_limit), price);
    table.fill(0);
    if count < enough {
        return Airtime::Exactly(count);
    }
    counts.fill(0);
    Airtime::Enough
}

#[tactic(auto, unfolding(crate::specs::Answer::is_served, chains::specs::Lengths::served))]
fn is_served(nodes: usize, from: usize, places: usize, room: usize) -> bool
    ensures { result ≡ is_served nodes from places room }
{
    nodes <= NODE_LIMIT && from < nodes && places == nodes && nodes * ROW <= room
}

// 7 sets no limit to the hops, so that only the nodes do.
#[tactic(auto, unfolding(crate::specs::Answer::hops_of))]
fn hops_of(nodes: usize, hop_limit: u64) -> usize
    requires { (nodes < 256) × (hop_limit ≤ 7) }
    ensures { (result ≡ hops_of nodes hop_limit) × (result < 256) }
{
    if hop_limit == 7 {
        nodes
    } else {
        hop_limit as usize
    }
}

// The table of a network that is given by pairs: in the row of each sender, at each place, the next node from there on that hears it.
fn lay(pairs: &[u8], nodes: usize, table: &mut [u8])
    requires { (nodes < 256) × (nodes * 256 ≤ length table.old) }
    ensures { Filled pairs.now nodes table.new }
{
    table.fill(0);
    mark(pairs, table);
    link(nodes, table);
}

fn mark(pairs: &[u8], table: &mut [u8])
    ensures { table.new ≡ marked pairs.now table.old }
{
    for pair in pairs.chunks_exact(2) {
        mark_one(table, usize::from(pair[0]) * ROW + usize::from(pair[1]));
    }
}

fn mark_one(table: &mut [u8], place: usize)
    ensures { table.new ≡ set table.old place 1 }
{
    if place < table.len() {
        table[place] = 1;
    }
}

fn link(nodes: usize, table: &mut [u8])
    requires { (nodes < 256) × (nodes * 256 ≤ length table.old) }
    ensures { Linked table.old table.new (nodes * 256) }
{
    let mut next: u8 = 255;
    for i in (0..nodes * ROW).rev() {
        next = link_of(table[i], column(i), next);
        table[i] = next;
    }
}

fn column(place: usize) -> u8
    ensures { result ≡ place % 256 }
{
    (place % ROW) as u8
}

#[tactic(auto, unfolding(crate::specs::Table::link_of))]
fn link_of(heard: u8, column: u8, next: u8) -> u8
    ensures { result ≡ link_of heard column next }
{
    if heard > 0 || column == 255 {
        column
    } else {
        next
    }
}

// What stays the same as the count goes on: who hears whom, how much a price grows with each hop, and where the count stops.
#[derive(Clone, Copy)]
struct Walk<'a> {
    table: &'a [u8],
    growth: u64,
    enough: u64,
}

// The count from the originator, which repeats nothing.
fn count_apart(
    walk: &Walk<'_>,
    marks: &mut [u8],
    counts: &mut [u64],
    from: usize,
    hops: usize,
    price: u64,
) -> u64
    requires { (from < length marks.old) × (length marks.old < 256) × (length counts.old ≡ length marks.old) × (hops < 256) × (price < 65536)
        × (walk.now.growth ≤ 2) × Rows walk.now.table.now (length marks.old) × (length marks.old * 256 ≤ length walk.now.table.now) }
    ensures { Counted (λ weigh. ways_from (is_heard_in walk.now.table.now) weigh walk.now.growth hops (set marks.old from 1) from price)
        marks.old counts.old 0 walk.now.enough result marks.new counts.new }
{
    let kept = marks[from];
    marks[from] = 1;
    let count = count_from(walk, marks, counts, from, hops, price, 0);
    marks[from] = kept;
    count
}

// What a transmission of that price and all that it leads to add to a count, which stops at `enough`, and to the count of each node.
#[cycle(count_by_count_from)]
fn count_from(
    walk: &Walk<'_>,
    marks: &mut [u8],
    counts: &mut [u64],
    sender: usize,
    hops: usize,
    price: u64,
    counted: u64,
) -> u64
    requires { (sender < length marks.old) × (length marks.old < 256) × (length counts.old ≡ length marks.old) × (price + 2 * hops < 2 ^ 64)
        × (walk.now.growth ≤ 2) × (counted ≤ walk.now.enough) × Rows walk.now.table.now (length marks.old)
        × (length marks.old * 256 ≤ length walk.now.table.now) }
    ensures { Counted (λ weigh. ways_from (is_heard_in walk.now.table.now) weigh walk.now.growth hops marks.old sender price)
        marks.old counts.old counted walk.now.enough result marks.new counts.new }
{
    if price >= walk.enough - counted {
        return walk.enough;
    }
    add(counts, sender, price);
    let mut count = counted + price;
    if hops == 0 {
        return count;
    }
    // Taken once: with a load at each turn, and a test of the index, a full network's count took up to a quarter longer.
    let table = walk.table;
    // Kept: the table names the next hearer at each turn, so that no range or slice is gone over.
    let mut next = hearer(table, sender, 0);
    while next < marks.len() {
        count = count_by(
            walk,
            marks,
            counts,
            next,
            hops - 1,
            price + walk.growth,
            count,
        );
        next = hearer(table, sender, next + 1);
    }
    count
}

// The same of one node that hears it.
#[cycle(count_by_count_from)]
fn count_by(
    walk: &Walk<'_>,
    marks: &mut [u8],
    counts: &mut [u64],
    next: usize,
    hops: usize,
    price: u64,
    counted: u64,
) -> u64
    requires { (next < length marks.old) × (length marks.old < 256) × (length counts.old ≡ length marks.old) × (price + 2 * hops < 2 ^ 64)
        × (walk.now.growth ≤ 2) × (counted ≤ walk.now.enough) × Rows walk.now.table.now (length marks.old)
        × (length marks.old * 256 ≤ length walk.now.table.now) }
    ensures { Counted (λ weigh. ways_to (is_heard_in walk.now.table.now) weigh walk.now.growth hops marks.old next price)
        marks.old counts.old counted walk.now.enough result marks.new counts.new }
{
    if marks[next] > 0 {
        return counted;
    }
    marks[next] = 1;
    let count = count_from(walk, marks, counts, next, hops, price, counted);
    marks[next] = 0;
    count
}

// The next node from a place on that hears the sender.
fn hearer(table: &[u8], sender: usize, place: usize) -> usize
    requires { (sender < 256) × (place < 256) × (sender * 256 + place < length table.now) }
    ensures { (result ≡ at table.now (sender * 256 + place)) × (result < 256) }
{
    usize::from(table[sender * ROW + place])
}

fn add(counts: &mut [u64], node: usize, amount: u64)
    requires { node < length counts.old }
    ensures { counts.new ≡ increased counts.old node amount }
{
    counts[node] = counts[node].saturating_add(amount);
}
