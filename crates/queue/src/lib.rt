// The transmit queue: PDUs back to back in memory of one size that the caller lends, and the numbers kept in front of them.
#![tactic(auto)]

ghost use Rattle.std.specs.Prelude.{◌≡◌, cond, ◌&&◌, ◌≤◌, min, eqb, leb, length};
ghost use Rattle.octets.specs.Octets.{word_at};
ghost use Rattle.pdu.specs.Header.{header_of};
ghost use Rattle.pdu.specs.Sizes.{pdu_length};
ghost use Rattle.pdu.specs.Reading.{read_of, reading_number};
ghost use Rattle.queue.specs.Queue.{memory_length, numbers_in, pdus_in, level_of, kept_level, numbered, memory_after_clear, front};

// How many PDUs there are, and how many bytes they have.
#[repr(C)]
#[derive(Clone, Copy)]
pub struct Level {
    pub pdus: usize,
    pub bytes: usize,
}

// What a queue's memory keeps in front: how many PDUs are held, how many bytes they have, and how far behind these numbers the oldest begins.
#[derive(Clone, Copy)]
pub struct QueueNumbers {
    pub pdus: usize,
    pub bytes: usize,
    pub place: usize,
}

impl Level {
    pub const PDUS_LIMIT: usize = 32;

    pub const BYTES_LIMIT: usize = 2048;

    // The oldest begins at most so far behind the numbers.
    pub const SPARE: usize = 512;

    // A queue's memory: 6 bytes of numbers, 2,048 for PDUs and 512 to spare.
    pub const MEMORY: usize = 2566;
}

// The number in the two bytes from `place` on, and no more than a limit. The first byte is cut by itself, so that each is read as it was written, alone:
// one read of two bytes would wait for both to be stored.
fn number_at(memory: &[u8], place: usize, limit: usize) -> usize
    requires { (place ≤ 4) × (limit ≤ 2048) }
    ensures { result ≡ min (word_at memory.now place) limit }
{
    let high = usize::from(octets::byte(memory, place));
    let low = usize::from(octets::byte(memory, place + 1));
    (high.min(limit / 256 + 1) * 256 + low).min(limit)
}

// The numbers that a memory keeps, each no more than it can be, so that any memory holds a queue; and a memory is as long as is said of one.
// Document 02, W-207.
pub fn numbers_in(memory: &[u8; Level::MEMORY]) -> QueueNumbers
    ensures { (result ≡ numbers_in memory.now) × (result.pdus ≤ 32) × (result.bytes ≤ 2048) × (result.place ≤ 512)
        × (length memory.now ≡ memory_length) }
{
    let pdus = number_at(memory, 0, Level::PDUS_LIMIT);
    let bytes = number_at(memory, 2, Level::BYTES_LIMIT);
    let place = number_at(memory, 4, Level::SPARE);
    QueueNumbers { pdus, bytes, place }
}

// The length of the PDU at the start of `bytes`, if one can be read and fits the room.
fn fitting_length(bytes: &[u8], room: usize) -> Option<usize>
    ensures { result ≡ cond (eqb (reading_number (read_of bytes.now)) 0 && leb (pdu_length (header_of bytes.now)) room)
        (Some (pdu_length (header_of bytes.now))) None }
{
    let Ok(extent) = pdu::extent_of(bytes) else {
        return None;
    };
    let size = extent.pdu_length;
    if size <= room { Some(size) } else { None }
}

// The level of the PDUs that lie back to back from the start of `bytes` on: at most so many, and as many as fit the room together. Document 02, W-206.
pub fn level_in(bytes: &[u8], most: usize, room: usize) -> Level
    ensures { result ≡ level_of (front room (pdus_in most bytes.now)) }
{
    let mut place: usize = 0;
    for pdus in 0..most {
        let Some(size) = fitting_length(&bytes[place..], room - place) else {
            return Level { pdus, bytes: place };
        };
        place += size;
    }
    Level {
        pdus: most,
        bytes: place,
    }
}

// The level that the memory keeps, without a look at a PDU. Document 02, W-207.
pub fn kept_level(memory: &[u8; Level::MEMORY]) -> Level
    ensures { result ≡ kept_level memory.now }
{
    let held = numbers_in(memory);
    Level {
        pdus: held.pdus,
        bytes: held.bytes,
    }
}

// Keeps the numbers in the memory's first six bytes.
pub fn keep(memory: &mut [u8; Level::MEMORY], pdus: u16, bytes: u16, place: u16)
    ensures { memory.new ≡ numbered pdus bytes place memory.old }
{
    octets::put_word(memory, 0, pdus);
    octets::put_word(memory, 2, bytes);
    octets::put_word(memory, 4, place);
}

// Drops all PDUs held. Document 02, W-207.
pub fn clear(memory: &mut [u8; Level::MEMORY])
    ensures { memory.new ≡ memory_after_clear memory.old }
{
    keep(memory, 0, 0, 0);
}
