// Numbers in decimal and bytes in hex, put into an output as characters.
#![tactic(auto)]

ghost use Rattle.std.specs.Prelude.{◌≡◌, ◌<◌};
ghost use Rattle.octets.specs.Octets.{Puts};
ghost use Rattle.text.specs.Text.{digit, decimal, hex};

use octets::put;

const DIGITS: [u8; 16] = *b"0123456789ABCDEF";

// The character of a digit, 0 to 15.
fn digit(value: u8) -> u8
    requires { value < 16 }
    ensures { result ≡ digit value }
{
    DIGITS[value as usize]
}

// Puts the digits of `n` into the output at `place`, and answers the place after them.
// No leading zeros; 0 is one digit. Where they do not fit, nothing is written and the place stays.
// Document 01, "The program `relay`", the numbers on its lines.
pub fn put_decimal(output: &mut [u8], place: usize, n: u64) -> usize
    ensures { Puts output.old place (decimal n) result output.new }
{
    let mut digits = [0u8; 20];
    let mut first: usize = 20;
    let mut rest = n;
    // Kept: the loop ends with the number's first digit; a `for` over the array would need an end for a number of more than 20 digits.
    while 9 < rest {
        first -= 1;
        digits[first] = digit((rest % 10) as u8);
        rest /= 10;
    }
    first -= 1;
    digits[first] = digit(rest as u8);
    put(output, place, &digits[first..20])
}

// Puts bytes into the output at `place` in hex, two capital digits each, and answers the place after them.
// Where they do not all fit, nothing is written and the place stays.
// No bytes are no digits. Document 01, "The program `relay`", the repeated PDU on its line.
pub fn put_hex(output: &mut [u8], place: usize, bytes: &[u8]) -> usize
    ensures { Puts output.old place (hex bytes.now) result output.new }
{
    if output.len() < place || (output.len() - place) / 2 < bytes.len() {
        return place;
    }
    let mut next = place;
    for &byte in bytes {
        output[next] = digit(byte / 16);
        output[next + 1] = digit(byte % 16);
        next += 2;
    }
    next
}
