// An element put into an output: type and length in the shorter form, then the value.
ghost use Rattle.std.specs.Prelude.{◌≡◌, ◌+◌, ◌<◌, ◌≤◌, length};
ghost use Rattle.octets.specs.Octets.{Puts};
ghost use Rattle.exchange.specs.Encoding.{number_bytes, element};

// How many bytes a type or a length is written with.
fn number_size(number: u16) -> usize
    ensures { (result ≡ length (number_bytes number)) × (result ≤ 2) }
{
    if 127 < number { 2 } else { 1 }
}

// How many bytes an element is written with.
pub(crate) fn element_size(type_number: u16, value_length: u16) -> usize
    ensures { (result ≡ length (number_bytes type_number) + length (number_bytes value_length) + value_length)
        × (result ≤ value_length + 4) }
{
    number_size(type_number) + number_size(value_length) + usize::from(value_length)
}

// Puts a type or a length, of at most 15 bits.
pub(crate) fn put_number(output: &mut [u8], place: usize, number: u16) -> usize
    requires { number < 32768 }
    ensures { Puts output.old place (number_bytes number) result output.new }
{
    if number < 128 {
        let part = [octets::low(number)];
        octets::put(output, place, &part)
    } else {
        octets::put_word(output, place, 32768 + number)
    }
}

// Puts an element that fits.
pub(crate) fn put_element(output: &mut [u8], place: usize, type_number: u16, value: &[u8]) -> usize
    requires { (type_number < 32768) × (length value.now < 32768)
        × (place + length (element type_number value.now) ≤ length output.old) }
    ensures { Puts output.old place (element type_number value.now) result output.new }
{
    let length_place = put_number(output, place, type_number);
    let value_place = put_number(output, length_place, value.len() as u16);
    octets::put(output, value_place, value)
}
