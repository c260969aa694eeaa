// The table of retained PDUs: records side by side in memory that the caller lends.
#![tactic(auto)]

ghost use Rattle.std.specs.Prelude.{◌≡◌, set};
ghost use Rattle.retained.specs.Records.{is_free, is_named, is_due};
ghost use Rattle.retained.specs.Table.{record_at};
ghost use Rattle.retained_operations.specs.Operations.{place_of, retain_on, step_on, hear_on, table_freed, table_resent, output_resent};

use retained::{Outcome, Retained};
use retained_operations::{Ask, Effect};

// The record at a place; a free one where there is none.
fn get(recs: &[Retained], place: usize) -> Retained
    ensures { result ≡ record_at recs.now place }
{
    if place < recs.len() {
        return recs[place];
    }
    retained::freed_record()
}

// Kept, and the two below: over iterators, with the test as a closure, the library takes another record than it should on boards of 32 bits.
fn first_due(recs: &[Retained], a: Ask) -> usize
    ensures { result ≡ place_of (is_due a.time a.delay) a recs.now }
{
    let mut i = retained_operations::start(a, recs.len());
    while i < recs.len() {
        if retained_operations::is_due(a, get(recs, i)) {
            return i;
        }
        i += 1;
    }
    i
}

fn first_named(recs: &[Retained], a: Ask) -> usize
    ensures { result ≡ place_of (is_named a.names) a recs.now }
{
    let mut i = retained_operations::start(a, recs.len());
    while i < recs.len() {
        if retained_operations::is_named(a, get(recs, i)) {
            return i;
        }
        i += 1;
    }
    i
}

fn first_free(recs: &[Retained], a: Ask) -> usize
    ensures { result ≡ place_of is_free a recs.now }
{
    let mut i = retained_operations::start(a, recs.len());
    while i < recs.len() {
        if retained_operations::is_free(a, get(recs, i)) {
            return i;
        }
        i += 1;
    }
    i
}

// What retaining does to the table. Nothing is stored. Document 02, W-210.
pub fn find_room(recs: &[Retained], a: Ask) -> Effect
    ensures { result ≡ retain_on a recs.now }
{
    let named = first_named(recs, a);
    let free = first_free(recs, a);
    retained_operations::retain(a, recs.len(), named, free)
}

// What a step does to the table. Nothing is stored. Document 02, W-210.
pub fn find_due(recs: &[Retained], a: Ask) -> Effect
    ensures { result ≡ step_on a recs.now }
{
    let place = first_due(recs, a);
    retained_operations::step(a, recs.len(), place, get(recs, place))
}

// Stores a record; nothing where there is no such place. Document 02, W-210.
pub fn store(recs: &mut [Retained], i: usize, r: Retained)
    ensures { recs.new ≡ set recs.old i r }
{
    if i < recs.len() {
        recs[i] = r;
    }
}

// Frees the record that a PDU that was heard asks for; nothing where there is none. Document 02, W-210.
pub fn free(recs: &mut [Retained], a: Ask) -> Outcome
    ensures { (result ≡ (hear_on a recs.old).outcome)
        × (recs.new ≡ table_freed (hear_on a recs.old) recs.old) }
{
    let place = first_named(recs, a);
    let effect = retained_operations::hear(a, recs.len(), place);
    store(recs, effect.place, retained::freed_record());
    effect.outcome
}

// Sends the record at a step's place again, at the start of the output, or drops it; nothing where there is no such place. Document 02, W-210.
pub fn resend(recs: &mut [Retained], e: Effect, output: &mut [u8])
    ensures { (recs.new ≡ table_resent e recs.old)
        × (output.new ≡ output_resent e recs.old output.old) }
{
    if e.place < recs.len() {
        let r = recs[e.place];
        recs[e.place] = retained_operations::send(output, e, r);
    }
}
