// Originating: a fresh PDU from settings and a payload.
ghost use Rattle.std.specs.Prelude.{◌≡◌, length};
ghost use Rattle.origin.specs.Origination.{originated, originated_output};
ghost use Rattle.boundary.specs.Boundary.{fresh_from_c};

use boundary::MantFresh;
use pdu::Written;

#[unsafe(no_mangle)]
pub extern "C" fn mant_originate(settings: MantFresh, payload: &[u8], output: &mut [u8]) -> Written
    ensures { (result ≡ originated (fresh_from_c settings) payload.now (length output.old))
        × (output.new ≡ originated_output (fresh_from_c settings) payload.now output.old) }
{
    mant::originating::mant_originate(settings, payload, output)
}
