// Sealing and opening: payloads enciphered under a key, and opened once.
ghost use Rattle.std.specs.Prelude.{◌≡◌, length};
ghost use Rattle.sources.specs.Sources.{record_in, is_held, memory_without};
ghost use Rattle.sealing.specs.Sealing.{seal_written, seal_output};
ghost use Rattle.opening.specs.Opening.{numbered_as, open_written, open_output, memory_after_opening};

use message::Key;
use opening::Numbered;
use pdu::Written;

// Seals the PDU at the start of `pdu` under a key, with a message number, and answers 0 and the sealed PDU's length. Answers 1 to 6 where there is no
// PDU, 88 where it is encrypted already, 85 where its payload has no room for number and hash, 86 for a number above 16,777,215 and 87 where the output
// is too short, with length 0 and the output as it was. Output past the sealed PDU keeps its bytes. Document 02, W-212.
pub fn mant_seal(key: Key, number: u64, pdu: &[u8], output: &mut [u8]) -> Written
    ensures { (result ≡ seal_written number pdu.now (length output.old))
        × (output.new ≡ seal_output key.bytes number pdu.now output.old) }
{
    let bytes = key.bytes;
    sealing::seal(bytes, number, pdu, output)
}

// Opens the sealed PDU at the start of `pdu` under a key, against the record of the numbers last accepted: writes the plain payload, notes its number
// and answers 0 and its length. Answers 1 to 6, 80, 81, 82, 83, 84 or 87 with length 0, output and record as they were. Output past the payload keeps
// its bytes. Document 02, W-212.
pub fn mant_open(
    key: Key,
    memory: &mut [u32; sources::MEMORY],
    pdu: &[u8],
    output: &mut [u8],
) -> Written
    ensures { (result ≡ open_written key.bytes memory.old pdu.now (length output.old))
        × (output.new ≡ open_output key.bytes memory.old pdu.now output.old)
        × (memory.new ≡ memory_after_opening key.bytes memory.old pdu.now (length output.old)) }
{
    let bytes = key.bytes;
    opening::open(bytes, memory, pdu, output)
}

// The message number of the sealed PDU at the start of `pdu`, which lies in clear, with 0; or 1 to 6, 80 or 81, with message number 0. Document 02, W-212.
pub fn mant_message_number(pdu: &[u8]) -> Numbered
    ensures { result ≡ numbered_as pdu.now }
{
    opening::message_number(pdu)
}

// Removes a source from the record, and returns whether it was held. Nothing changes where it was not. Document 02, W-212.
pub fn mant_remove_source(memory: &mut [u32; sources::MEMORY], source: u16) -> bool
    ensures { (result ≡ is_held source (record_in memory.old)) × (memory.new ≡ memory_without source memory.old) }
{
    sources::remove(memory, source)
}
