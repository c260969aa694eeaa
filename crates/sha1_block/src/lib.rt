// One block of SHA-1 (FIPS 180-4): the hash value after it.
#![tactic(auto)]

ghost use Rattle.std.specs.Prelude.{◌≡◌};
ghost use Rattle.sha1_block.specs.Sha1Block.{mixing, constant, words, hash_step, summed, compressed};

// The function of step `t`. FIPS 180-4, 4.1.1.
#[tactic(auto, unfolding(crate::specs::Sha1Block::mixing))]
fn mix(t: usize, x: u32, y: u32, z: u32) -> u32
    ensures { result ≡ mixing t x y z }
{
    if t < 20 {
        return (x & y) ^ (!x & z);
    }
    if t < 40 {
        return x ^ y ^ z;
    }
    if t < 60 {
        return (x & y) ^ (x & z) ^ (y & z);
    }
    x ^ y ^ z
}

// The constant of step `t`. FIPS 180-4, 4.2.1.
#[tactic(auto, unfolding(crate::specs::Sha1Block::constant))]
fn constant_of(t: usize) -> u32
    ensures { result ≡ constant t }
{
    if t < 20 {
        return 0x5a827999;
    }
    if t < 40 {
        return 0x6ed9eba1;
    }
    if t < 60 {
        return 0x8f1bbcdc;
    }
    0xca62c1d6
}

// The five variables of a step, or the five words of a hash value.
#[derive(Clone, Copy)]
pub struct Five {
    pub a: u32,
    pub b: u32,
    pub c: u32,
    pub d: u32,
    pub e: u32,
}

// One step on the five variables. FIPS 180-4, 6.1.2, step 3.
fn one_step(t: usize, w: u32, s: Five) -> Five
    ensures { result ≡ hash_step t w s }
{
    Five {
        a: s.a
            .rotate_left(5)
            .wrapping_add(mix(t, s.b, s.c, s.d))
            .wrapping_add(s.e)
            .wrapping_add(constant_of(t))
            .wrapping_add(w),
        b: s.a,
        c: s.b.rotate_left(30),
        d: s.c,
        e: s.d,
    }
}

// Five words added to five. FIPS 180-4, 6.1.2, step 4.
fn add_all(h: Five, s: Five) -> Five
    ensures { result ≡ summed h s }
{
    Five {
        a: s.a.wrapping_add(h.a),
        b: s.b.wrapping_add(h.b),
        c: s.c.wrapping_add(h.c),
        d: s.d.wrapping_add(h.d),
        e: s.e.wrapping_add(h.e),
    }
}

// The sixteen words of a block. FIPS 180-4, 5.2.1.
fn words_of(block: [u8; 64]) -> [u32; 16]
    ensures { result ≡ words block 16 }
{
    let mut w = [0u32; 16];
    for t in 0..16 {
        let at = 4 * t;
        w[t] = u32::from_be_bytes([block[at], block[at + 1], block[at + 2], block[at + 3]]);
    }
    w
}

// The hash value after one more block: a word makes room for the sixteenth after it. FIPS 180-4, 6.1.2 and 6.1.3.
pub fn compress(h: Five, block: [u8; 64]) -> Five
    ensures { result ≡ compressed h block }
{
    let mut w = words_of(block);
    let mut s = h;
    for t in 0..80 {
        let place = t % 16;
        let next = one_step(t, w[place], s);
        s = next;
        w[place] = (w[(t + 13) % 16] ^ w[(t + 8) % 16] ^ w[(t + 2) % 16] ^ w[place]).rotate_left(1);
    }
    add_all(h, s)
}
