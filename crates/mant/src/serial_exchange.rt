// The serial exchange: a PDU between a decoder and an encoder that are two devices.
ghost use Rattle.std.specs.Prelude.{◌≡◌, length};
ghost use Rattle.elements.specs.Walking.{element_of};
ghost use Rattle.exchange.specs.Exchange.{exchange_of};
ghost use Rattle.exchange.specs.Encoding.{written_exchange, exchange_output};

use elements::Element;
use exchange::Exchange;
use pdu::Written;

// Reads a serial exchange: 0 with place and length of header and payload in `bytes`; or 57 or 58, 59, 1 to 6, 63, with zeros. Document 02, W-202.
pub fn mant_read_exchange(bytes: &[u8]) -> Exchange
    ensures { result ≡ exchange_of bytes.now }
{
    exchange::read_exchange(bytes)
}

// Writes the PDU at the start of `bytes` as a serial exchange, and answers 0 and its length. Answers 1 to 6 where there is no PDU and 14 where the
// output is too short for the exchange, with length 0 and the output as it was. Output past the exchange keeps its bytes. Document 02, W-202.
pub fn mant_write_exchange(bytes: &[u8], output: &mut [u8]) -> Written
    ensures { (result ≡ written_exchange bytes.now (length output.old))
        × (output.new ≡ exchange_output bytes.now output.old) }
{
    exchange::write_exchange(bytes, output)
}

// The element at a place of a run: 0 with its type, place and length of its value, and its end; or 57 and zeros. Document 003, the binary elements.
pub fn mant_element_at(bytes: &[u8], place: usize) -> Element
    ensures { result ≡ element_of bytes.now place }
{
    elements::element_at(bytes, place)
}
