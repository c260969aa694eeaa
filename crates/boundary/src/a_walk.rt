// What C sees of a walk over a batch, step by step.
ghost use Rattle.std.specs.Prelude.{◌≡◌, None};
ghost use Rattle.node.specs.Answers.{given_twice};
ghost use Rattle.boundary.specs.Boundary.{answer_in_c, step_in_c};

use super::a_node::{MantAnswer, answer_in_c};
use batch::{Cursor, Stepped};

// What the fields for numbers hold where there is no answer.
const NO_NUMBER: u8 = 255;

// What one step of a walk finds. Kind 0: a PDU's answer and the cursor of the next. Kind 1: no more PDU, so no answer; its fields for numbers hold
// 255, which is no number. Kind 2: the batch is too long, both numbers are 54. With kinds 1 and 2 the rest of the answer is 0 and the next cursor
// is the one given, ended.
#[repr(C)]
#[derive(Clone, Copy)]
pub struct MantStep {
    pub kind: u8,
    pub answer: MantAnswer,
    pub next: Cursor,
}

fn number_alone(number: u8) -> MantAnswer
    ensures { result ≡ answer_in_c (given_twice number 0 None) }
{
    MantAnswer {
        delivery: number,
        repeat: number,
        ..MantAnswer::default()
    }
}

// What one step of a walk from a cursor found, as C sees it. After the last PDU, and where the batch is too long, the cursor stays and has ended.
// Document 01, "A batch".
pub fn step_in_c(cursor: Cursor, stepped: Stepped) -> MantStep
    ensures { result ≡ step_in_c cursor stepped }
{
    let ended = Cursor {
        ended: true,
        ..cursor
    };
    match stepped {
        Stepped::Answered(answer, next) => MantStep {
            kind: 0,
            answer: answer_in_c(answer),
            next,
        },
        Stepped::Ended => MantStep {
            kind: 1,
            answer: number_alone(NO_NUMBER),
            next: ended,
        },
        Stepped::TooLong => MantStep {
            kind: 2,
            answer: number_alone(54),
            next: ended,
        },
    }
}
