// The numbers answered, printed and compared; and the lists of a line.
use crate::line::Line;
use std::io;

// Prints a number answered, and answers whether it is the one expected in that place, and what is expected has the shape.
pub(crate) fn tell(
    rt: &impl Print,
    line: Line,
    shape: usize,
    place: usize,
    number: u64,
) -> io::Result<bool> {
    print_number(rt, number)?;
    Ok((line.shape == shape) & (line.expected(place) as u64 == number))
}

// The same of all numbers answered, each in its place.
pub(crate) fn tell_all(
    rt: &impl Print,
    line: Line,
    shape: usize,
    numbers: &[u64],
) -> io::Result<bool> {
    let mut right = true;
    for (place, number) in numbers.iter().enumerate() {
        right &= tell(rt, line, shape, place, *number)?;
    }
    Ok(right)
}

pub(crate) fn print_number(rt: &impl Print, number: u64) -> io::Result<()> {
    print!(rt; " {number}")
}

pub(crate) fn list(values: &[u16], start: usize, end: usize) -> &[u16] {
    let end = end.min(values.len());
    &values[start.min(end)..end]
}
