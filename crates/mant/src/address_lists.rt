// Address lists: the eight lists of a node in one block, what is wrong with them, and whether a list holds an address.
ghost use Rattle.std.specs.Prelude.{◌≡◌};
ghost use Rattle.lists.specs.Lists.{holds, lists_in, fault_and_list};
ghost use Rattle.list_block.specs.Laying.{eight_lent, Lays};

use lists::ListFault;

// Whether an address is in some range of the list, both ends included. An empty list holds none; a last value without a partner is no range.
// Document 01, "One PDU at one node", what a list is.
pub fn mant_list_holds(list: &[u16], address: u16) -> bool
    ensures { result ≡ holds list.now address }
{
    lists::holds(list, address)
}

// Checks the eight lists of a block and returns the first fault: its number, 22, 21 or 20, and the place of its list, 0 to 7, kind by kind and in each kind
// the first list before the second, chosen or not. If no list has a fault, it returns 0 and 8. Document 01, "One PDU at one node", 1; document 02, W-211.
pub fn mant_list_fault(lists: &[u16]) -> ListFault
    ensures { result ≡ fault_and_list (lists_in lists.now) }
{
    lists::fault(lists)
}

// Lays eight lists of any length into the block: their lengths, then their values. What stands behind these is left as it is. Of a list of more than 128
// values 129 are laid, and so it still has fault 22. Returns the first fault of the lists, as `mant_list_fault` does. Without a fault the block holds
// exactly these lists. Document 01, "One PDU at one node", 1; document 02, W-211.
pub fn mant_lay_eight<'a>(
    block: &mut [u16; list_block::BLOCK_LIMIT],
    source_pass_first: &'a [u16],
    source_pass_second: &'a [u16],
    source_reject_first: &'a [u16],
    source_reject_second: &'a [u16],
    destination_pass_first: &'a [u16],
    destination_pass_second: &'a [u16],
    destination_reject_first: &'a [u16],
    destination_reject_second: &'a [u16],
) -> ListFault
    ensures { Lays (eight_lent source_pass_first source_pass_second source_reject_first source_reject_second
        destination_pass_first destination_pass_second destination_reject_first destination_reject_second)
        block.old block.new result }
{
    list_block::lay(
        block,
        source_pass_first,
        source_pass_second,
        source_reject_first,
        source_reject_second,
        destination_pass_first,
        destination_pass_second,
        destination_reject_first,
        destination_reject_second,
    )
}
