// Numbers among a program's arguments.
ghost use Rattle.std.specs.Prelude.{◌≡◌, ◌<◌};
ghost use Rattle.plan.specs.Argument.{with_digit, argument_of};

use ArgumentError::{NotDecimal, TooLong};
use std::env::Env;
use std::fmt;

#[derive(Clone, Copy, Debug, PartialEq, Eq)]
pub enum ArgumentError {
    NotDecimal,
    TooLong,
}

impl fmt::Display for ArgumentError {
    fn fmt<W: fmt::Write>(&self, f: &mut fmt::Formatter<W>) -> fmt::Result {
        match self {
            NotDecimal => write!(f, "is not a decimal number"),
            TooLong => write!(
                f,
                "is above 18,446,744,073,709,551,615 or has more than 64 characters"
            ),
        }
    }
}

// An argument of more than 64 bytes is too long, whatever it says.
pub(crate) fn argument_at(rt: &impl Env, place: usize) -> Result<u64, ArgumentError> {
    let mut text = [0u8; 64];
    match rt.arg(place, &mut text) {
        Ok(n) => read_argument(&text[..n]),
        Err(_) => Err(TooLong),
    }
}

// The number that the bytes write in decimal digits, and nothing but digits.
// No bytes are not decimal; what 64 bits don't hold is too long. Zeros in front are taken.
pub(crate) fn read_argument(text: &[u8]) -> Result<u64, ArgumentError>
    ensures { result ≡ argument_of text.now }
{
    if text.is_empty() {
        return Err(NotDecimal);
    }
    let mut number: u64 = 0;
    for byte in text {
        number = with_digit(number, *byte)?;
    }
    Ok(number)
}

#[tactic(auto, unfolding(crate::specs::Argument::with_digit))]
fn with_digit(number: u64, byte: u8) -> Result<u64, ArgumentError>
    ensures { result ≡ with_digit number byte }
{
    if !byte.is_ascii_digit() {
        return Err(NotDecimal);
    }
    let digit = u64::from(byte - b'0');
    let tens = number.checked_mul(10).ok_or(TooLong)?;
    tens.checked_add(digit).ok_or(TooLong)
}
