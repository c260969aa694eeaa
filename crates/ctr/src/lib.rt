// AES-128 in counter mode, in place.
#![tactic(auto)]

ghost use Rattle.std.specs.Prelude.{◌≡◌, ◌-◌, ◌<◌, ◌++◌, take, drop};
ghost use Rattle.octets.specs.Octets.{at};
ghost use Rattle.ctr.specs.Ctr.{counter_block, stream, added};

// Counter block `j`. SP 800-38A, B.2.
fn counter_block(nonce: [u8; 5], j: usize) -> [u8; 16]
    ensures { result ≡ counter_block nonce j }
{
    let [j7, j6, j5, j4, j3, j2, j1, j0] = (j as u64).to_be_bytes();
    [
        nonce[0], nonce[1], nonce[2], nonce[3], nonce[4], 0, 0, 0, j7, j6, j5, j4, j3, j2, j1, j0,
    ]
}

// The block's bytes from `skipped` on added to the first bytes of a part, as far as both go. SP 800-38A, 6.5.
fn add_block(part: &mut [u8], block: [u8; 16], skipped: usize)
    requires { skipped < 16 }
    ensures { part.new
        ≡ added (at block) skipped (take (16 - skipped) part.old) ++ drop (16 - skipped) part.old }
{
    let size = part.len().min(16 - skipped);
    for k in 0..size {
        part[k] ^= block[skipped + k];
    }
}

// Adds the key stream's bytes from `place` on to the bytes, in place: enciphers them, or deciphers enciphered ones. SP 800-38A, 6.5.
pub fn add_stream(keys: &[u8; 176], nonce: [u8; 5], place: u32, bytes: &mut [u8])
    ensures { bytes.new ≡ added (stream keys.now nonce) place bytes.old }
{
    let mut i: usize = 0;
    // Kept: each step ends where a block of the key stream does, so the first one may be shorter. No range and no `chunks_mut` steps so.
    while i < bytes.len() {
        let at = place as usize + i;
        let block = aes::encipher(keys, counter_block(nonce, at / 16));
        add_block(&mut bytes[i..], block, at % 16);
        i += 16 - at % 16;
    }
}
