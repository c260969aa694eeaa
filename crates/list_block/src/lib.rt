// Eight lists, two of each kind, laid into one block as a node takes them.
#![tactic(auto)]

ghost use Rattle.std.specs.Prelude.{◌≡◌, ◌≤◌, ◌+◌, length};
ghost use Rattle.octets.specs.Octets.{Puts};
ghost use Rattle.list_block.specs.Laying.{most_laid, cut, eight_lent, Lays};

use lists::ListFault;

// How many values of a list are laid: one more than it may have, so that a longer one still has its fault (22).
const LAID_LIMIT: usize = 129;

// Room for eight lengths and eight such lists.
pub const BLOCK_LIMIT: usize = 1040;

fn laid_length(list: &[u16]) -> u16
    ensures { result ≡ length (cut list.now) }
{
    list.len().min(LAID_LIMIT) as u16
}

// Puts what is laid of a list into the block at a place, and returns where it ends.
fn put_list(block: &mut [u16], place: usize, list: &[u16]) -> usize
    requires { place + most_laid ≤ length block.old }
    ensures { (Puts block.old place (cut list.now) result block.new) × (result ≤ place + most_laid) }
{
    let size = octets::word_value(laid_length(list));
    for i in 0..size {
        block[place + i] = list[i];
    }
    place + size
}

// Lays eight lists of any length into the block: their lengths, then their values. What stands behind these is left as it is. Of a list of more than 128
// values 129 are laid, and so it still has fault 22. Returns the first fault of the lists, as `lists::fault` does. Without a fault the block holds
// exactly these lists. Document 01, "One PDU at one node", 1; document 02, W-211.
pub fn lay<'a>(
    block: &mut [u16; BLOCK_LIMIT],
    source_pass_first: &'a [u16],
    source_pass_second: &'a [u16],
    source_reject_first: &'a [u16],
    source_reject_second: &'a [u16],
    destination_pass_first: &'a [u16],
    destination_pass_second: &'a [u16],
    destination_reject_first: &'a [u16],
    destination_reject_second: &'a [u16],
) -> ListFault
    ensures { Lays (eight_lent source_pass_first source_pass_second source_reject_first source_reject_second
        destination_pass_first destination_pass_second destination_reject_first destination_reject_second)
        block.old block.new result }
{
    let lengths = [
        laid_length(source_pass_first),
        laid_length(source_pass_second),
        laid_length(source_reject_first),
        laid_length(source_reject_second),
        laid_length(destination_pass_first),
        laid_length(destination_pass_second),
        laid_length(destination_reject_first),
        laid_length(destination_reject_second),
    ];
    // Kept: an array of the eight slices would be one more copy of them on a small stack.
    put_list(block, 0, &lengths);
    let a = put_list(block, lists::LISTS, source_pass_first);
    let b = put_list(block, a, source_pass_second);
    let c = put_list(block, b, source_reject_first);
    let d = put_list(block, c, source_reject_second);
    let e = put_list(block, d, destination_pass_first);
    let f = put_list(block, e, destination_pass_second);
    let g = put_list(block, f, destination_reject_first);
    put_list(block, g, destination_reject_second);
    lists::fault(block)
}
