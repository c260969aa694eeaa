// Reading: what the bytes of a PDU say.
ghost use Rattle.std.specs.Prelude.{◌≡◌, length};
ghost use Rattle.pdu.specs.Reading.{read_of};
ghost use Rattle.editions.specs.Editions.{read_under, write_again_under, written_again_under};
ghost use Rattle.view.specs.View.{path_address_in, path_has};
ghost use Rattle.boundary.specs.Boundary.{header_in_c};

use boundary::MantHeader;
use pdu::Written;

// What an edition, 11 for 1.1 and 12 for 1.2, shows of the header of the PDU at the start of `bytes`, and its last sender; or 17 for any other edition, or
// the number, 1 to 6, of why there is no PDU. Bytes after the PDU are not looked at.
// Document 01, "Header, byte by byte", and "Numbers answered", 1 to 6; document 02, W-205 and W-209.
pub fn mant_read(edition: u64, bytes: &[u8]) -> MantHeader
    ensures { result ≡ header_in_c (read_under edition bytes.now) bytes.now }
{
    boundary::summary_in_c(view::summary_of(bytes, edition))
}

// The address at place `i` of the path of the PDU at the start of `bytes`, the first at 0. 0 past the last one, and where there is no PDU.
// Document 01, "Header, byte by byte", the path after its count.
pub fn mant_path_address(bytes: &[u8], i: usize) -> u16
    ensures { result ≡ path_address_in (read_of bytes.now) bytes.now i }
{
    view::path_address_of(bytes, i)
}

// Whether an address is anywhere in the path of the PDU at the start of `bytes`. Without a path none is, nor where there is no PDU.
// Document 01, "One PDU at one node", 3.
pub fn mant_path_has(bytes: &[u8], address: u16) -> bool
    ensures { result ≡ path_has (read_of bytes.now) bytes.now address }
{
    view::path_has_of(bytes, address)
}

// Writes the PDU at the start of `bytes` again, from what the edition shows of it, and answers 0 and its length. Answers 17 for an edition other than 11
// and 12, 1 to 6 where there is no PDU and 14 where the output is too short, with length 0 and the output as it was. Output past the PDU keeps its bytes.
// Document 01, "Numbers answered", a PDU written again; document 02, W-209.
pub fn mant_write_again(edition: u64, bytes: &[u8], output: &mut [u8]) -> Written
    ensures { (result ≡ write_again_under edition bytes.now (length output.old))
        × (output.new ≡ written_again_under edition bytes.now output.old) }
{
    editions::write_again(edition, bytes, output)
}
