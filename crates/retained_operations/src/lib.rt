// What is asked of a table of retained PDUs, and what is decided on what a search found, by value.
#![tactic(auto)]

ghost use Rattle.std.specs.Prelude.{◌≡◌};
ghost use Rattle.retained.specs.Records.{is_free, is_named, is_due};
ghost use Rattle.retained.specs.Table.{did};
ghost use Rattle.retained_operations.specs.Operations.{seeks, search_start, decide_number, stays, changes, decide_of, keep_number, retain_at, send_number};
ghost use Rattle.retained_operations.specs.Operations.{send_effect, step_at};
ghost use Rattle.retained_operations.specs.Operations.{effect_of, hear_at, ask_retain, ask_step, emitted, left_of};
ghost use Rattle.retained_operations.specs.declared.Kind.TheVariants.{Search, Answer};

use retained::{Names, Outcome, Retained};

// What an ask comes to: a record is sought, a PDU that was heard is answered, or nothing is done.
#[derive(Clone, Copy, Default)]
pub enum Kind {
    #[default]
    Search,
    Answer,
    Nothing,
}

// What is asked of a table. `early` is a refusal that comes before the table is looked at, `late` one that comes after 74 and 73; 0 for none.
// `length` is that of an answer.
// Kept: `start`, `is_due`, `is_named`, `retain`, `step` and `hear` promise their result of every Ask by its fields; an enum of kinds would narrow them.
#[derive(Clone, Copy, Default)]
pub struct Ask {
    pub kind: Kind,
    pub early: u8,
    pub late: u8,
    pub last: u64,
    pub time: u64,
    pub delay: u64,
    pub tries: u64,
    pub room: usize,
    pub names: Names,
    pub length: usize,
}

// What is to be done to the record at `place`, and the count that it then has; nothing, where there is no such place.
// Kept: the count stands beside the outcome's deed, a number: `Outcome` is C's, and definitions `left_of` and `emitted` read the deed.
#[derive(Clone, Copy)]
pub struct Effect {
    pub place: usize,
    pub count: u64,
    pub outcome: Outcome,
}

// What retaining these bytes asks of a table; with 75 or 72 among it where they can't be retained. Document 02, W-210.
pub fn ask_retain(last: u64, time: u64, bytes: &[u8]) -> Ask
    ensures { result ≡ ask_retain last time bytes.now }
{
    Ask {
        last,
        time,
        late: retained::retain_fault(bytes),
        names: retained::names_of(bytes),
        ..Ask::default()
    }
}

// What a step at a time asks of a table. Document 02, W-210.
pub fn ask_step(last: u64, time: u64, delay: u64, tries: u64, room: usize) -> Ask
    ensures { result ≡ ask_step last time delay tries room }
{
    Ask {
        last,
        time,
        delay,
        tries,
        room,
        ..Ask::default()
    }
}

// Where a search for an ask begins, among so many records: past the last if there are not 16 or the ask seeks none. Document 02, W-210.
pub fn start(a: Ask, count: usize) -> usize
    ensures { result ≡ search_start a count }
{
    if seeks(a) && count == 16 { 0 } else { count }
}

fn seeks(a: Ask) -> bool
    ensures { result ≡ seeks a.kind }
{
    matches!(a.kind, Kind::Search)
}

// Whether a record is due at the ask's time. Document 02, W-210.
pub fn is_due(a: Ask, r: Retained) -> bool
    ensures { result ≡ is_due a.time a.delay r }
{
    retained::in_use::is_due(r, a.time, a.delay)
}

// Whether a record has the ask's names. Document 02, W-210.
pub fn is_named(a: Ask, r: Retained) -> bool
    ensures { result ≡ is_named a.names r }
{
    retained::in_use::is_named(r, a.names)
}

// Whether a record is free, for any ask. Document 02, W-210.
pub fn is_free(a: Ask, r: Retained) -> bool
    ensures { result ≡ is_free r }
{
    !retained::in_use::is_used(r)
}

// What retaining does if the first record with the PDU's names and the first free one have these places: refusals 71 and 70. Document 02, W-210.
pub fn retain(a: Ask, count: usize, named: usize, free: usize) -> Effect
    ensures { result ≡ retain_at a count named free }
{
    let number = retain_number(count, named, free);
    let effect = changed(free, 0, 1, a.time, a.names, 0);
    decide(a, count, number, effect)
}

fn retain_number(count: usize, named: usize, free: usize) -> u8
    ensures { result ≡ keep_number count named free }
{
    if named < count {
        return 71;
    }
    if free < count {
        return 0;
    }
    70
}

// What a step does if the first record that is due has this place, and is this one: refusal 77. Document 02, W-210.
pub fn step(a: Ask, count: usize, place: usize, r: Retained) -> Effect
    ensures { result ≡ step_at a count place r }
{
    let number = step_number(a, count, place, r);
    let effect = step_effect(a, count, place, r);
    decide(a, count, number, effect)
}

fn step_number(a: Ask, count: usize, place: usize, r: Retained) -> u8
    ensures { result ≡ send_number a count place r }
{
    if place < count && r.count < a.tries && a.room < r.length {
        77
    } else {
        0
    }
}

fn step_effect(a: Ask, count: usize, place: usize, r: Retained) -> Effect
    ensures { result ≡ send_effect a count place r }
{
    if place < count {
        let names = retained::in_use::names_in(r);
        if r.count < a.tries {
            return changed(place, r.count + 1, 2, a.time, names, r.length);
        }
        return changed(place, 0, 3, a.time, names, 0);
    }
    unchanged(0, a.time, count)
}

// What a PDU that was heard does if the first record with the names that it seeks has this place. Document 02, W-210.
pub fn hear(a: Ask, count: usize, place: usize) -> Effect
    ensures { result ≡ hear_at a count place }
{
    let effect = effect_of(a, count, place);
    decide(a, count, 0, effect)
}

// An effect, unless the ask or the number refuses it: 10 and 11, 74, 73, 75 or 72 or 77 of the ask, then the number.
#[tactic(auto, unfolding(crate::specs::Operations::decide_of))]
fn decide(a: Ask, count: usize, number: u8, effect: Effect) -> Effect
    ensures { result ≡ decide_of a count number effect }
{
    let refused = number_of(a, count, number);
    if refused != 0 {
        return unchanged(refused, a.last, count);
    }
    effect
}

// The first refusal: the ask's early one, 74, 73, the ask's late one, then the number; 0 for none.
// Kept, also in `retain_number` and `step_number`: the numbers are document 02's, as in definition `decide_number` and in C.
fn number_of(a: Ask, count: usize, number: u8) -> u8
    ensures { result ≡ decide_number a count number }
{
    if a.early != 0 {
        return a.early;
    }
    if count != 16 {
        return 74;
    }
    if a.time < a.last {
        return 73;
    }
    if a.late != 0 {
        return a.late;
    }
    number
}

// Kept: three values by a `match`; there is no step to run.
fn effect_of(a: Ask, count: usize, place: usize) -> Effect
    ensures { result ≡ effect_of a.kind a count place }
{
    match a.kind {
        Kind::Search if place < count => changed(place, 0, 4, a.time, a.names, 0),
        Kind::Answer => Effect {
            place: count,
            ..changed(0, 0, 5, a.time, a.names, a.length)
        },
        _ => unchanged(0, a.time, count),
    }
}

fn changed(place: usize, count: u64, deed: u8, last: u64, names: Names, written: usize) -> Effect
    ensures { result ≡ changes place count (did deed last place names written) }
{
    let outcome = Outcome {
        number: 0,
        deed,
        last,
        place,
        names,
        length: written,
    };
    Effect {
        place,
        count,
        outcome,
    }
}

fn unchanged(number: u8, last: u64, count: usize) -> Effect
    ensures { result ≡ stays number last count }
{
    let outcome = Outcome {
        number,
        last,
        ..Outcome::default()
    };
    Effect {
        place: count,
        count: 0,
        outcome,
    }
}

// The record at the effect's place after it: sent again, its PDU written at the start of the output; else dropped, nothing written. Document 02, W-210.
#[tactic(auto, unfolding(crate::specs::Operations::left_of, crate::specs::Operations::emitted))]
pub fn send(output: &mut [u8], e: Effect, r: Retained) -> Retained
    ensures { (result ≡ left_of e r) × (output.new ≡ emitted e r output.old) }
{
    let outcome = e.outcome;
    if outcome.deed != 2 {
        return retained::freed_record();
    }
    let pdu = r.pdu;
    octets::put(output, 0, octets::part(&pdu, 0, r.length));
    // Kept: `..r` copies the record once more: 304 bytes of stack, and 38 ns where 25 were.
    Retained {
        pdu,
        length: r.length,
        sent_at: outcome.last,
        count: e.count,
    }
}
