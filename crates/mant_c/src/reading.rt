// Reading: what the bytes of a PDU say.
ghost use Rattle.std.specs.Prelude.{◌≡◌, length};
ghost use Rattle.pdu.specs.Reading.{read_of};
ghost use Rattle.editions.specs.Editions.{read_under, write_again_under, written_again_under};
ghost use Rattle.view.specs.View.{path_address_in, path_has};
ghost use Rattle.boundary.specs.Boundary.{header_in_c};

use boundary::MantHeader;
use pdu::Written;

#[unsafe(no_mangle)]
pub extern "C" fn mant_read(edition: u64, bytes: &[u8]) -> MantHeader
    ensures { result ≡ header_in_c (read_under edition bytes.now) bytes.now }
{
    mant::reading::mant_read(edition, bytes)
}

#[unsafe(no_mangle)]
pub extern "C" fn mant_path_address(bytes: &[u8], i: usize) -> u16
    ensures { result ≡ path_address_in (read_of bytes.now) bytes.now i }
{
    mant::reading::mant_path_address(bytes, i)
}

#[unsafe(no_mangle)]
pub extern "C" fn mant_path_has(bytes: &[u8], address: u16) -> bool
    ensures { result ≡ path_has (read_of bytes.now) bytes.now address }
{
    mant::reading::mant_path_has(bytes, address)
}

#[unsafe(no_mangle)]
pub extern "C" fn mant_write_again(edition: u64, bytes: &[u8], output: &mut [u8]) -> Written
    ensures { (result ≡ write_again_under edition bytes.now (length output.old))
        × (output.new ≡ written_again_under edition bytes.now output.old) }
{
    mant::reading::mant_write_again(edition, bytes, output)
}
