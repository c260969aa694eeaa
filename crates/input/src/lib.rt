// Input, read into the caller's slice.
#![tactic(auto)]

ghost use Rattle.std.specs.Prelude.{◌≤◌, ◌<◌, length, take, IfOk};
ghost use Rattle.std.specs.Io.KnownBytes.{Consumes, IsAtEnd};

use std::io;
use std::io::Read;

// Reads until the slice is full or the input ends, and answers how many bytes were put at its start: the next ones of the input, and if there is room
// left all that it had. Standard input does not say which bytes it has.
pub fn read_full<R: Read>(input: &mut R, bytes: &mut [u8]) -> io::Result<usize>
    ensures within { IfOk result (λ count. count ≤ length bytes.new) }
    ensures read { IfOk result (λ count. Consumes (R.remaining input.old) (R.remaining input.new) (take count bytes.new)) }
    ensures ended { IfOk result (λ count. count < length bytes.new → IsAtEnd (R.remaining input.new)) }
{
    // Kept: std's `read_exact` refuses a short input, and `read_to_end` fills a Vec; neither says what was read before an error.
    let mut count: usize = 0;
    while count < bytes.len() {
        let more = input.read(&mut bytes[count..])?;
        if more == 0 {
            return Ok(count);
        }
        count += more;
    }
    Ok(count)
}
