// The length of a fresh report among the program's arguments.
//
// A fresh PDU with a path: the fixed part and the path count; with a destination, a PDU ID and the longest payload too.
const SHORTEST: u16 = 7;

const LONGEST: u16 = 4105;

// The length that the bytes write in decimal digits, if they do and a fresh PDU with a path can have it.
pub(crate) fn read_size(text: &[u8]) -> Option<u16> {
    let mut size: u16 = 0;
    for byte in text {
        size = with_digit(size, *byte)?;
    }
    if size < SHORTEST || size > LONGEST {
        return None;
    }
    Some(size)
}

fn with_digit(size: u16, byte: u8) -> Option<u16> {
    if !byte.is_ascii_digit() {
        return None;
    }
    size.checked_mul(10)?.checked_add(u16::from(byte - b'0'))
}
