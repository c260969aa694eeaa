// Originating: a fresh PDU from settings and a payload.
ghost use Rattle.std.specs.Prelude.{◌≡◌, length};
ghost use Rattle.origin.specs.Origination.{originated, originated_output};
ghost use Rattle.boundary.specs.Boundary.{fresh_from_c};

use boundary::MantFresh;
use pdu::Written;

// Writes a fresh PDU at the start of the output and answers 0 and its length, or 17, 10 to 13, 16 or 14, in that order, with length 0 and the output as
// it was. The PDU ID counts for reliable service only. Output past the PDU keeps its bytes.
// Document 01, "Origination", and "Numbers answered", 10 to 14; document 02, W-209.
pub fn mant_originate(settings: MantFresh, payload: &[u8], output: &mut [u8]) -> Written
    ensures { (result ≡ originated (fresh_from_c settings) payload.now (length output.old))
        × (output.new ≡ originated_output (fresh_from_c settings) payload.now output.old) }
{
    origin::originate(boundary::fresh_from_c(settings), payload, output)
}
