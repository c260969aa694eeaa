// The serial exchange: a PDU between a decoder and an encoder that are two devices.
ghost use Rattle.std.specs.Prelude.{◌≡◌, length};
ghost use Rattle.elements.specs.Walking.{element_of};
ghost use Rattle.exchange.specs.Exchange.{exchange_of};
ghost use Rattle.exchange.specs.Encoding.{written_exchange, exchange_output};

use elements::Element;
use exchange::Exchange;
use pdu::Written;

#[unsafe(no_mangle)]
pub extern "C" fn mant_read_exchange(bytes: &[u8]) -> Exchange
    ensures { result ≡ exchange_of bytes.now }
{
    mant::serial_exchange::mant_read_exchange(bytes)
}

#[unsafe(no_mangle)]
pub extern "C" fn mant_write_exchange(bytes: &[u8], output: &mut [u8]) -> Written
    ensures { (result ≡ written_exchange bytes.now (length output.old))
        × (output.new ≡ exchange_output bytes.now output.old) }
{
    mant::serial_exchange::mant_write_exchange(bytes, output)
}

#[unsafe(no_mangle)]
pub extern "C" fn mant_element_at(bytes: &[u8], place: usize) -> Element
    ensures { result ≡ element_of bytes.now place }
{
    mant::serial_exchange::mant_element_at(bytes, place)
}
