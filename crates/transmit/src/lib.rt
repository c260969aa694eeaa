// The transmit queue's two operations: a PDU added, and a batch of the oldest taken.
#![tactic(auto)]

ghost use Rattle.std.specs.Prelude.{◌≡◌, not, ◌+◌, ◌≤◌, eqb, length, take, drop};
ghost use Rattle.octets.specs.Numbers.{◌gives◌};
ghost use Rattle.octets.specs.Octets.{placed};
ghost use Rattle.pdu.specs.Reading.{exactly_one};
ghost use Rattle.queue.specs.Queue.{pdus_in};
ghost use Rattle.transmit.specs.Adding.{add_number, memory_after_add};
ghost use Rattle.transmit.specs.Taking.{released, Takes};

use queue::Level;

// Kept as numbers: C gets them from `add` and in `Batch`, and `add_number` of specs/ gives them.
const FULL: u8 = 60;

const NOT_ONE_PDU: u8 = 61;

const OLDEST_DOES_NOT_FIT: u8 = 62;

// What taking answers: 0, how many PDUs were written and released, and how many bytes they have; or 62 with zeros.
#[repr(C)]
#[derive(Clone, Copy, Default)]
pub struct Batch {
    pub number: u8,
    pub pdus: usize,
    pub bytes: usize,
}

fn is_one(bytes: &[u8]) -> bool
    ensures { result ≡ exactly_one bytes.now }
{
    let Ok(extent) = pdu::extent_of(bytes) else {
        return false;
    };
    extent.pdu_length == bytes.len()
}

// Adds a PDU behind those held: 0; or 61 where the bytes are not exactly one PDU, then 60 where 32 are held or the bytes held and its own exceed 2,048,
// and nothing changes. Document 02, W-206.
pub fn add(memory: &mut [u8; Level::MEMORY], pdu: &[u8]) -> u8
    ensures { (result ≡ add_number pdu.now memory.old)
        × (memory.new ≡ memory_after_add pdu.now memory.old) }
{
    if !is_one(pdu) {
        return NOT_ONE_PDU;
    }
    let held = queue::numbers_in(memory);
    if Level::PDUS_LIMIT <= held.pdus || Level::BYTES_LIMIT - held.bytes < pdu.len() {
        return FULL;
    }
    octets::put(memory, 6 + held.place + held.bytes, pdu);
    queue::keep(
        memory,
        (held.pdus + 1) as u16,
        (held.bytes + pdu.len()) as u16,
        held.place as u16,
    );
    0
}

// Moves so many bytes from a place behind the numbers to the front.
// Kept a loop: `copy_within` would call `memmove`, and the library for C needs `memcpy` and `memset` alone.
fn to_front(memory: &mut [u8], place: usize, size: usize)
    requires { 6 + place + size ≤ length memory.old }
    ensures { memory.new ≡ placed memory.old 6 (take size (drop (6 + place) memory.old)) }
{
    for i in 0..size {
        memory[6 + i] = memory[6 + place + i];
    }
}

// Keeps the numbers of what is left from a place on. It is moved to the front where it would else leave no room for 2,048 bytes.
fn release(memory: &mut [u8; Level::MEMORY], pdus: usize, bytes: usize, place: usize)
    requires { (place + bytes ≤ 2560) × (bytes ≤ 2048) × (pdus ≤ 32) }
    ensures { memory.new ≡ released pdus bytes place memory.old }
{
    if place <= Level::SPARE {
        queue::keep(memory, pdus as u16, bytes as u16, place as u16);
        return;
    }
    to_front(memory, place, bytes);
    queue::keep(memory, pdus as u16, bytes as u16, 0);
}

fn nothing(number: u8) -> Batch
    ensures { result ≡ record { number = number; pdus = 0; bytes = 0 } }
{
    Batch {
        number,
        ..Batch::default()
    }
}

// The answer where none is taken: 62 where one is held, which then does not fit.
fn none_taken(pdus: usize, claimed: &[u8]) -> Batch
    ensures { result ≡ record { number = not (eqb (length (pdus_in pdus claimed.now)) 0) gives 62; pdus = 0; bytes = 0 } }
{
    if pdus == 0 {
        return nothing(0);
    }
    if pdu::fault(claimed) != 0 {
        return nothing(0);
    }
    nothing(OLDEST_DOES_NOT_FIT)
}

// Writes as many of the oldest PDUs as fit the output, whole and in order, and releases them: 0, also where none is held; or 62 where the oldest does
// not fit. Where none is written, queue and output stay as they were; output past what is written keeps its bytes. Document 02, W-206.
pub fn take(memory: &mut [u8; Level::MEMORY], output: &mut [u8]) -> Batch
    ensures { Takes memory.old output.old result memory.new output.new }
{
    let held = queue::numbers_in(memory);
    let claimed = octets::part(memory, 6 + held.place, held.bytes);
    let taken = queue::level_in(claimed, held.pdus, output.len());
    if taken.pdus == 0 {
        return none_taken(held.pdus, claimed);
    }
    octets::put(output, 0, octets::part(claimed, 0, taken.bytes));
    release(
        memory,
        held.pdus - taken.pdus,
        held.bytes - taken.bytes,
        held.place + taken.bytes,
    );
    Batch {
        number: 0,
        pdus: taken.pdus,
        bytes: taken.bytes,
    }
}
