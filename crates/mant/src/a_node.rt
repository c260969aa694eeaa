// A node: what is delivered and what is repeated, for one PDU or over a batch.
ghost use Rattle.std.specs.Prelude.{◌≡◌};
ghost use Rattle.lists.specs.Lists.{lists_in};
ghost use Rattle.decision.specs.Decision.{node_of};
ghost use Rattle.boundary.specs.Boundary.{choice_number, node_from_c, changed_over, HearsInC, StepsInC};

use batch::{Cursor, Stepped};
use boundary::{MantAnswer, MantNode, MantStep};

// What a node answers for the PDU at the start of the received bytes. An edition other than 11 and 12 (17), the first fault of the eight lists, chosen or
// not (20 to 22), then of reading (1 to 6), 30 to 34, 40 and 42 are answered as both numbers, and nothing is delivered then. 31 to 34 go by the lists that
// the node chooses. The repeated PDU is written at the start of the output where the repeat number is 0, and the output keeps its bytes past it; with
// any other repeat number the output is left as it was. The last sender is told with every number but 17 and those of the lists and of reading.
// Document 01, "One PDU at one node"; document 02, W-205, W-209 and W-211.
pub fn mant_hear(node: MantNode, lists: &[u16], received: &[u8], output: &mut [u8]) -> MantAnswer
    ensures { HearsInC (node_of (node_from_c node) (lists_in lists.now))
        received.now output.old result output.new }
{
    let answer = node::hear(
        boundary::node_from_c(node),
        &lists[..],
        &received[..],
        output,
    );
    boundary::answer_in_c(answer)
}

// One step of the walk over a batch: the node's answer for the PDU at the cursor, and the cursor of the next. With 17, a number 1 to 6 or a fault of the
// lists that cursor has ended, at the same place. Any cursor gets an answer; one past the batch's end, or of a walk that ended, gets kind 1. A batch that
// is too long gets kind 2 at every cursor, if the edition is 11 or 12; 17 comes before that. The output is changed as by `mant_hear`, and not at all with
// kinds 1 and 2. Document 01, "A batch"; document 02, W-209 and W-211.
pub fn mant_step(
    node: MantNode,
    lists: &[u16],
    batch: &[u8],
    cursor: Cursor,
    output: &mut [u8],
) -> MantStep
    ensures { StepsInC (node_of (node_from_c node) (lists_in lists.now))
        batch.now cursor output.old result output.new }
{
    let place = cursor.place;
    if batch::is_too_long(node.edition, &batch[..]) {
        return boundary::step_in_c(cursor, Stepped::TooLong);
    }
    if cursor.ended || batch.len() <= place {
        return boundary::step_in_c(cursor, Stepped::Ended);
    }
    let answer = mant_hear(node, &lists[..], &batch[place..], output);
    let after = place + answer.taken;
    let next = Cursor {
        place: after,
        ended: answer.taken == 0,
    };
    MantStep {
        kind: 0,
        answer,
        next,
    }
}

// The same node with all four kinds of list set to one choice: 1 the first lists, 2 the second ones; any other number sets 0, none. All else stays as it
// was. Document 02, W-211.
pub fn mant_change_over(node: MantNode, choice: u64) -> MantNode
    ensures { result ≡ changed_over node choice }
{
    let chosen = choice_number(choice);
    MantNode {
        source_pass: chosen,
        source_reject: chosen,
        destination_pass: chosen,
        destination_reject: chosen,
        ..node
    }
}

fn choice_number(choice: u64) -> u8
    ensures { result ≡ choice_number choice }
{
    match choice {
        1 => 1,
        2 => 2,
        _ => 0,
    }
}
