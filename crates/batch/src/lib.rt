// The walk over a batch of PDUs that lie back to back.
#![tactic(auto)]

ghost use Rattle.std.specs.Prelude.{◌≡◌, false};
ghost use Rattle.lists.specs.Lists.{lists_in};
ghost use Rattle.decision.specs.Decision.{node_of};
ghost use Rattle.batch.specs.Walk.{is_too_long, Steps, numbers_of};

use decision::Settings;
use node::Answer;

// Where a walk has come to. It begins at `Cursor::start()`.
// Kept: C's struct, so the flag stands beside its value.
#[repr(C)]
#[derive(Clone, Copy)]
pub struct Cursor {
    pub place: usize,
    pub ended: bool,
}

// What one step of a walk finds: a PDU's answer and the next cursor; no more PDU; or a batch of more than `BATCH_LIMIT` bytes, whose number is 54.
// The places in the answer count from the PDU's first byte, which is at the cursor's place.
// Kept: three answers; an Option in a Result, or a Result in an Option, would name none of them.
#[derive(Clone, Copy)]
pub enum Stepped {
    Answered(Answer, Cursor),
    Ended,
    TooLong,
}

// The numbers of a step: a PDU's two, one that comes alone, or none.
// Kept: three answers, as `Stepped` has.
#[derive(Clone, Copy)]
pub enum Numbers {
    Two { delivery: u8, repeat: u8 },
    Alone(u8),
    NoAnswer,
}

impl Cursor {
    pub const BATCH_LIMIT: usize = 16384;

    // The cursor at a batch's first byte. Document 01, "A batch".
    pub fn start() -> Cursor
        ensures { result ≡ record { place = 0; ended = false } }
    {
        Cursor {
            place: 0,
            ended: false,
        }
    }
}

// Takes one step of the walk: hears the PDU at the cursor, and returns its answer and the next cursor. With 17, 20 to 22 or 1 to 6 the next cursor has ended,
// at the same place. A cursor that has ended, or past the end of the batch, gets `Ended`. A batch over the size limit gets `TooLong` at every cursor, if
// the edition is known. The output changes as `node::hear` changes it, and not at all without an answer. Document 01, "A batch"; document 02, W-209, W-211.
pub fn step(
    settings: Settings,
    lists: &[u16],
    batch: &[u8],
    cursor: Cursor,
    output: &mut [u8],
) -> Stepped
    ensures { Steps (node_of settings (lists_in lists.now)) batch.now cursor output.old result output.new }
{
    let place = cursor.place;
    if is_too_long(settings.edition, batch) {
        return Stepped::TooLong;
    }
    if cursor.ended || batch.len() <= place {
        return Stepped::Ended;
    }
    let answer = node::hear(settings, lists, &batch[place..], output);
    let next = Cursor {
        place: place + answer.taken,
        ended: answer.taken == 0,
    };
    Stepped::Answered(answer, next)
}

// Whether a batch is refused with 54: it is over the size limit, and the edition is known, since 17 comes before. Document 01, "A batch"; document 02, W-209.
pub fn is_too_long(edition: u64, batch: &[u8]) -> bool
    ensures { result ≡ is_too_long edition batch.now }
{
    editions::is_known(edition) && Cursor::BATCH_LIMIT < batch.len()
}

// The numbers of a step: the PDU's two; 54 alone for a batch that is too long; none for a walk that ended, since that is no answer.
// Document 01, "A batch", and "Numbers answered", 54.
pub fn numbers_of(stepped: Stepped) -> Numbers
    ensures { result ≡ numbers_of stepped }
{
    match stepped {
        Stepped::Answered(answer, _) => Numbers::Two {
            delivery: answer.delivery,
            repeat: answer.repeat,
        },
        Stepped::Ended => Numbers::NoAnswer,
        Stepped::TooLong => Numbers::Alone(54),
    }
}
