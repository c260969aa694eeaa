// One run of `relay`: a job's bytes to the text that is printed.
#![tactic(auto)]

ghost use Rattle.std.specs.Prelude.{◌≡◌, ◌*◌, ◌≤◌, length, take, Ok};
ghost use Rattle.lists.specs.Lists.{lists_in};
ghost use Rattle.decision.specs.Decision.{node_of};
ghost use Rattle.batch.specs.Walk.{batch_limit};
ghost use Rattle.job.specs.Jobs.{job_of, node_in, batch_in};
ghost use Rattle.run.specs.Run.{lines_of, batch_lines, LinesPut, Ran};

use batch::{Cursor, Stepped};
use decision::Settings;
use job::Job;
use pdu::Header;

// Writes what `relay` prints for a job's bytes into the text, line after line from its start, and answers where the lines end. Any bytes get an
// answer. A text of 98,352 bytes has room for the lines of every job, whole; in a shorter one a line that does not fit is left out, and a shorter one
// after it may still be put. Document 01, "The program `relay`"; document 02, W-205.
pub fn relay(bytes: &[u8], text: &mut [u8]) -> usize
    ensures { Ran bytes.now text.old text.new result }
{
    match job::read(bytes) {
        Err(refusal) => {
            let number = job::job_number(Err(refusal.number()));
            lines::put_refused_line(text, 0, number)
        }
        Ok(job) => put_job(text, bytes, job),
    }
}

fn put_job(text: &mut [u8], bytes: &[u8], job: Job) -> usize
    requires { job_of bytes.now ≡ Ok job }
    ensures { LinesPut text.old 0
        (batch_lines (node_in bytes.now job) (batch_in bytes.now job)) text.new result }
{
    // Kept: each list needs an array that outlives the call, so a closure for the four would only be another name for `job::values`.
    let source_pass = job::values(bytes, job.source_pass);
    let source_reject = job::values(bytes, job.source_reject);
    let destination_pass = job::values(bytes, job.destination_pass);
    let destination_reject = job::values(bytes, job.destination_reject);
    let none = [0u16; 0];
    let mut block = [0u16; list_block::BLOCK_LIMIT];
    list_block::lay(
        &mut block,
        ranges(&source_pass, job.source_pass.count),
        &none,
        ranges(&source_reject, job.source_reject.count),
        &none,
        ranges(&destination_pass, job.destination_pass.count),
        &none,
        ranges(&destination_reject, job.destination_reject.count),
        &none,
    );
    let place = lines::put_first_line(text, 0, job.own);
    put_walk(text, place, job.settings(), &block, job::batch(bytes, job))
}

// Low and high of so many ranges, from the start of the values; all of them where there are fewer.
fn ranges(values: &[u16], count: usize) -> &[u16]
    ensures { result.now ≡ take (2 * count) values.now }
{
    if values.len() / 2 < count {
        return values;
    }
    &values[0..2 * count]
}

// A line for each PDU of the batch, and the last line.
fn put_walk(text: &mut [u8], place: usize, settings: Settings, lists: &[u16], batch: &[u8]) -> usize
    requires { length batch.now ≤ batch_limit }
    ensures { LinesPut text.old place (lines_of (node_of settings (lists_in lists.now)) batch.now)
        text.new result }
{
    let mut repeated = [0u8; Header::PDU_LIMIT];
    let mut next_place = place;
    let mut lines: u64 = 0;
    let mut cursor = Cursor::start();
    while let Stepped::Answered(answer, next) = batch::step(
        settings,
        lists,
        batch,
        cursor,
        &mut repeated,
    ) {
        lines += 1;
        next_place = lines::put_pdu_line(
            text,
            next_place,
            lines,
            cursor.place as u64,
            answer.delivery,
            answer.repeat,
            &repeated[..answer.repeated_length],
            answer.last_sender,
        );
        cursor = next;
    }
    lines::put_last_line(text, next_place, lines, cursor.place as u64)
}
