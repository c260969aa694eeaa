// The transmit queue: PDUs that wait for the modem's next slot.
ghost use Rattle.std.specs.Prelude.{◌≡◌};
ghost use Rattle.queue.specs.Queue.{kept_level, memory_after_clear};
ghost use Rattle.transmit.specs.Adding.{add_number, memory_after_add};
ghost use Rattle.transmit.specs.Taking.{Takes};

use queue::Level;
use transmit::Batch;

// How many PDUs a queue holds, and how many bytes they have, as its memory keeps them. Document 02, W-207.
pub fn mant_queue_level(queue: &[u8; Level::MEMORY]) -> Level
    ensures { result ≡ kept_level queue.now }
{
    queue::kept_level(queue)
}

// Adds a PDU behind those held: 0; or 61 where the bytes are not exactly one PDU, then 60 where 32 are held or the bytes held and its own exceed
// 2,048, and the queue stays as it was. Document 02, W-206.
pub fn mant_queue_add(queue: &mut [u8; Level::MEMORY], pdu: &[u8]) -> u8
    ensures { (result ≡ add_number pdu.now queue.old)
        × (queue.new ≡ memory_after_add pdu.now queue.old) }
{
    transmit::add(queue, pdu)
}

// Writes as many of the oldest PDUs as fit the output, whole and in order, and releases them: 0, also where none is held; or 62 where the oldest does
// not fit. Where none is written, queue and output stay as they were; output past what is written keeps its bytes. Document 02, W-206.
pub fn mant_queue_take(queue: &mut [u8; Level::MEMORY], output: &mut [u8]) -> Batch
    ensures { Takes queue.old output.old result queue.new output.new }
{
    transmit::take(queue, output)
}

// Drops all PDUs held: the level is 0, and every byte behind the numbers stays. Document 02, W-207.
pub fn mant_queue_clear(queue: &mut [u8; Level::MEMORY])
    ensures { queue.new ≡ memory_after_clear queue.old }
{
    queue::clear(queue);
}
