// A node: what is delivered and what is repeated, for one PDU or over a batch.
ghost use Rattle.std.specs.Prelude.{◌≡◌};
ghost use Rattle.lists.specs.Lists.{lists_in};
ghost use Rattle.decision.specs.Decision.{node_of};
ghost use Rattle.boundary.specs.Boundary.{node_from_c, changed_over, HearsInC, StepsInC};

use batch::Cursor;
use boundary::{MantAnswer, MantNode, MantStep};

#[unsafe(no_mangle)]
pub extern "C" fn mant_hear(
    node: MantNode,
    lists: &[u16],
    received: &[u8],
    output: &mut [u8],
) -> MantAnswer
    ensures { HearsInC (node_of (node_from_c node) (lists_in lists.now))
        received.now output.old result output.new }
{
    mant::a_node::mant_hear(node, lists, received, output)
}

#[unsafe(no_mangle)]
pub extern "C" fn mant_step(
    node: MantNode,
    lists: &[u16],
    batch: &[u8],
    cursor: Cursor,
    output: &mut [u8],
) -> MantStep
    ensures { StepsInC (node_of (node_from_c node) (lists_in lists.now))
        batch.now cursor output.old result output.new }
{
    mant::a_node::mant_step(node, lists, batch, cursor, output)
}

#[unsafe(no_mangle)]
pub extern "C" fn mant_change_over(node: MantNode, choice: u64) -> MantNode
    ensures { result ≡ changed_over node choice }
{
    mant::a_node::mant_change_over(node, choice)
}
