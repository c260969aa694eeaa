// Reads one job from standard input and prints what the node answers for each PDU of its batch. Nothing is decided here.
#![tactic(auto)]

ghost use Rattle.std.specs.Prelude.{◌≤◌, length, take};
ghost use Rattle.run.specs.Run.{input_room, text_room, PrintedForAll};

use input::read_full;
use std::io;

// The longest job has 17,417 bytes; one byte more is enough to tell a job that is too long.
const INPUT_ROOM: usize = 17418;

// Room for the lines of every job.
const TEXT_ROOM: usize = 98352;

fn main(rt: HostRuntime) -> io::Result<()> {
    let mut bytes = [0u8; INPUT_ROOM];
    let mut text = [0u8; TEXT_ROOM];
    let count = read_full(&mut rt.reader(), &mut bytes)?;
    let end = answer(&bytes, count, &mut text);
    rt.write_all(&text[..end])
}

// Puts what is printed for all of the input into the text, and answers where it ends. Of the input, the first `count` bytes of `bytes` were read: as
// many as there were, or as there was room for.
fn answer(bytes: &[u8], count: usize, text: &mut [u8]) -> usize
    requires { (count ≤ length bytes.now) × (input_room ≤ length bytes.now) × (text_room ≤ length text.old) }
    ensures { (result ≤ length text.old)
        × PrintedForAll (take count bytes.now) (length bytes.now) (take result text.new) }
{
    run::relay(&bytes[..count], text)
}
