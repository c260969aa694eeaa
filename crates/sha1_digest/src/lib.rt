// SHA-1 (FIPS 180-4) of bytes that come part by part.
#![tactic(auto)]

ghost use Rattle.std.specs.Prelude.{◌≡◌, ◌*◌, ◌%◌, ◌^◌};
ghost use Rattle.sha1_digest.specs.Sha1.{hash_begun, fed, final_hash};

use sha1_block::Five;

// A message that comes part by part: the hash value of its full blocks, the block that is being filled, and how many bytes came, modulo 2^64.
#[derive(Clone, Copy)]
pub struct Running {
    pub hash: Five,
    pub block: [u8; 64],
    pub total: u64,
}

// Before the first byte. FIPS 180-4, 5.3.1.
pub fn begin() -> Running
    ensures { result ≡ hash_begun }
{
    Running {
        hash: Five {
            a: 0x67452301,
            b: 0xefcdab89,
            c: 0x98badcfe,
            d: 0x10325476,
            e: 0xc3d2e1f0,
        },
        block: [0u8; 64],
        total: 0,
    }
}

// A part of the message more. FIPS 180-4, 5.2.1 and 6.1.2.
pub fn feed(mut running: Running, part: &[u8]) -> Running
    ensures { result ≡ fed running part.now }
{
    for byte in part {
        let place = (running.total % 64) as usize;
        running.block[place] = *byte;
        if place == 63 {
            let next = sha1_block::compress(running.hash, running.block);
            running.hash = next;
        }
        running.total = running.total.wrapping_add(1);
    }
    running
}

// The length in bits of a message of `n` bytes, as a number of 64 bits. FIPS 180-4, 5.1.1.
fn bits(n: u64) -> u64
    ensures { result ≡ 8 * n % 2 ^ 64 }
{
    n.wrapping_mul(8)
}

// The hash value of the bytes that came, whose five words are their digest: the padding is fed too. FIPS 180-4, 5.1.1 and 6.1.2.
pub fn finish(running: Running) -> Five
    ensures { result ≡ final_hash running }
{
    let n = running.total;
    let zeros = ((119 - n % 64) % 64) as usize;
    let mut marker = [0u8; 64];
    marker[0] = 0x80;
    let marked = feed(running, &marker[..1 + zeros]);
    let length = bits(n).to_be_bytes();
    feed(marked, &length).hash
}
