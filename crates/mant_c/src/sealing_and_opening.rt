// Sealing and opening: payloads enciphered under a key, and opened once.
ghost use Rattle.std.specs.Prelude.{◌≡◌, length};
ghost use Rattle.sources.specs.Sources.{record_in, is_held, memory_without};
ghost use Rattle.sealing.specs.Sealing.{seal_written, seal_output};
ghost use Rattle.opening.specs.Opening.{numbered_as, open_written, open_output, memory_after_opening};

use message::Key;
use opening::Numbered;
use pdu::Written;

#[unsafe(no_mangle)]
pub extern "C" fn mant_seal(key: Key, number: u64, pdu: &[u8], output: &mut [u8]) -> Written
    ensures { (result ≡ seal_written number pdu.now (length output.old))
        × (output.new ≡ seal_output key.bytes number pdu.now output.old) }
{
    mant::sealing_and_opening::mant_seal(key, number, pdu, output)
}

#[unsafe(no_mangle)]
pub extern "C" fn mant_open(
    key: Key,
    memory: &mut [u32; sources::MEMORY],
    pdu: &[u8],
    output: &mut [u8],
) -> Written
    ensures { (result ≡ open_written key.bytes memory.old pdu.now (length output.old))
        × (output.new ≡ open_output key.bytes memory.old pdu.now output.old)
        × (memory.new ≡ memory_after_opening key.bytes memory.old pdu.now (length output.old)) }
{
    mant::sealing_and_opening::mant_open(key, memory, pdu, output)
}

#[unsafe(no_mangle)]
pub extern "C" fn mant_message_number(pdu: &[u8]) -> Numbered
    ensures { result ≡ numbered_as pdu.now }
{
    mant::sealing_and_opening::mant_message_number(pdu)
}

#[unsafe(no_mangle)]
pub extern "C" fn mant_remove_source(memory: &mut [u32; sources::MEMORY], source: u16) -> bool
    ensures { (result ≡ is_held source (record_in memory.old)) × (memory.new ≡ memory_without source memory.old) }
{
    mant::sealing_and_opening::mant_remove_source(memory, source)
}
