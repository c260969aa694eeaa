// Address lists: the eight lists of a node in one block, what is wrong with them, and whether a list holds an address.
ghost use Rattle.std.specs.Prelude.{◌≡◌};
ghost use Rattle.lists.specs.Lists.{holds, lists_in, fault_and_list};
ghost use Rattle.list_block.specs.Laying.{eight_lent, Lays};

use lists::ListFault;

#[unsafe(no_mangle)]
pub extern "C" fn mant_list_holds(list: &[u16], address: u16) -> bool
    ensures { result ≡ holds list.now address }
{
    mant::address_lists::mant_list_holds(list, address)
}

#[unsafe(no_mangle)]
pub extern "C" fn mant_list_fault(lists: &[u16]) -> ListFault
    ensures { result ≡ fault_and_list (lists_in lists.now) }
{
    mant::address_lists::mant_list_fault(lists)
}

#[unsafe(no_mangle)]
pub extern "C" fn mant_lay_eight<'a>(
    block: &mut [u16; list_block::BLOCK_LIMIT],
    source_pass_first: &'a [u16],
    source_pass_second: &'a [u16],
    source_reject_first: &'a [u16],
    source_reject_second: &'a [u16],
    destination_pass_first: &'a [u16],
    destination_pass_second: &'a [u16],
    destination_reject_first: &'a [u16],
    destination_reject_second: &'a [u16],
) -> ListFault
    ensures { Lays (eight_lent source_pass_first source_pass_second source_reject_first source_reject_second
        destination_pass_first destination_pass_second destination_reject_first destination_reject_second)
        block.old block.new result }
{
    mant::address_lists::mant_lay_eight(
        block,
        source_pass_first,
        source_pass_second,
        source_reject_first,
        source_reject_second,
        destination_pass_first,
        destination_pass_second,
        destination_reject_first,
        destination_reject_second,
    )
}
