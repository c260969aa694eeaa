// The eight address lists of a node, two of each kind, in one block: what is wrong with them, and whether one holds an address.
#![tactic(auto)]

ghost use Rattle.std.specs.Prelude.{◌≡◌, ◌<◌, ◌≤◌, length, take, drop};
ghost use Rattle.octets.specs.Octets.{at};
ghost use Rattle.lists.specs.Lists.{lists_in, fault_and_list, holds, start_of, list_in};

// How many values a list may have: low and high of 64 ranges. Document 01, "Numbers answered", 22.
pub const VALUE_LIMIT: usize = 128;

// How many lists a block holds: two of each kind. Document 02, W-211.
pub const LISTS: usize = 8;

// The length that a block gives list `i`.
fn length_at(block: &[u16], i: usize) -> usize
    requires { i < length block.now }
    ensures { (result ≡ at block.now i) × (result < 65536) }
{
    octets::word_value(block[i])
}

// So many values from a place on, as far as the block goes.
// Kept: `octets::part` does this for bytes, and its contract, which C rests on, also says where in the caller's slice the part lies.
fn values(block: &[u16], start: usize, size: usize) -> &[u16]
    requires { (start < 524288) × (size < 65536) }
    ensures { result.now ≡ take size (drop start block.now) }
{
    let end = block.len();
    if start + size <= end {
        return &block[start..start + size];
    }
    if start <= end {
        return &block[start..];
    }
    &block[end..]
}

// The fault of the first list that has one: its number, and the list's place in checking order, 0 to 7. 0 and 8 where none has one.
// Kept: C reads both numbers, and 0 and 8 where there is no fault.
#[repr(C)]
#[derive(Clone, Copy)]
pub struct ListFault {
    pub number: u8,
    pub list: u8,
}

// Checks the eight lists of a block and returns the first fault. In each list 22 (more than 128 values) comes before 21 (an odd number of them), and
// that before 20 (a low above its high). An empty list has no fault. Lists that are not chosen are checked like the others.
// Document 01, "One PDU at one node", 1; document 02, W-211.
pub fn fault(block: &[u16]) -> ListFault
    ensures { result ≡ fault_and_list (lists_in block.now) }
{
    let size = block.len();
    let mut fault = ListFault { number: 0, list: 8 };
    let mut start: usize = LISTS;
    // Kept: this check leaves its nested loops by a label, a form that is named for this place.
    'lists: for k in 0..8 {
        if size <= start {
            break 'lists;
        }
        let list = k as u8;
        let given = octets::word_value(block[k]);
        if given == 0 {
            continue 'lists;
        }
        let length = given.min(size - start);
        if length > VALUE_LIMIT {
            fault = ListFault { number: 22, list };
            break 'lists;
        }
        if length % 2 == 1 {
            fault = ListFault { number: 21, list };
            break 'lists;
        }
        let ranges = length / 2;
        for i in 0..ranges {
            if block[start + 2 * i] > block[start + 2 * i + 1] {
                fault = ListFault { number: 20, list };
                break 'lists;
            }
        }
        start += given;
    }
    fault
}

// Where the values of list `i` begin.
fn start_of(block: &[u16], i: usize) -> usize
    requires { (i < 8) × (8 ≤ length block.now) }
    ensures { (result ≡ start_of block.now i) × (result < 524288) }
{
    let mut start: usize = LISTS;
    for k in 0..i {
        start += length_at(block, k);
    }
    start
}

// List `i` of the eight, 0 to 7, as that part of the block; past them an empty one. Document 02, W-211.
fn nth(block: &[u16], i: usize) -> &[u16]
    ensures { result.now ≡ list_in block.now i }
{
    if LISTS <= i {
        return &block[0..0];
    }
    if block.len() <= LISTS {
        return &block[0..0];
    }
    values(block, start_of(block, i), length_at(block, i))
}

// Whether an address is in some range of the list, both ends included.
// An empty list holds none, and so does a range whose low is above its high. A last value without a partner is no range.
// Document 01, "One PDU at one node", what a list is.
pub fn holds(list: &[u16], address: u16) -> bool
    ensures { result ≡ holds list.now address }
{
    for range in list.chunks_exact(2) {
        if range[0] <= address && address <= range[1] {
            return true;
        }
    }
    false
}

// Whether list `i` of the eight holds an address. Document 01, "One PDU at one node", 4; document 02, W-211.
pub fn has(block: &[u16], i: usize, address: u16) -> bool
    ensures { result ≡ holds (list_in block.now i) address }
{
    holds(nth(block, i), address)
}
