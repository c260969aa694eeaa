// The transmit queue: PDUs that wait for the modem's next slot.
ghost use Rattle.std.specs.Prelude.{◌≡◌};
ghost use Rattle.queue.specs.Queue.{kept_level, memory_after_clear};
ghost use Rattle.transmit.specs.Adding.{add_number, memory_after_add};
ghost use Rattle.transmit.specs.Taking.{Takes};

use queue::Level;
use transmit::Batch;

#[unsafe(no_mangle)]
pub extern "C" fn mant_queue_level(queue: &[u8; Level::MEMORY]) -> Level
    ensures { result ≡ kept_level queue.now }
{
    mant::transmit_queue::mant_queue_level(queue)
}

#[unsafe(no_mangle)]
pub extern "C" fn mant_queue_add(queue: &mut [u8; Level::MEMORY], pdu: &[u8]) -> u8
    ensures { (result ≡ add_number pdu.now queue.old)
        × (queue.new ≡ memory_after_add pdu.now queue.old) }
{
    mant::transmit_queue::mant_queue_add(queue, pdu)
}

#[unsafe(no_mangle)]
pub extern "C" fn mant_queue_take(queue: &mut [u8; Level::MEMORY], output: &mut [u8]) -> Batch
    ensures { Takes queue.old output.old result queue.new output.new }
{
    mant::transmit_queue::mant_queue_take(queue, output)
}

#[unsafe(no_mangle)]
pub extern "C" fn mant_queue_clear(queue: &mut [u8; Level::MEMORY])
    ensures { queue.new ≡ memory_after_clear queue.old }
{
    mant::transmit_queue::mant_queue_clear(queue);
}
