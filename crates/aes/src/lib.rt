// AES-128: the key expanded, and one block of 16 bytes enciphered.
#![tactic(auto)]

ghost use Rattle.std.specs.Prelude.{◌≡◌, ◌+◌, ◌*◌, ◌/◌, ◌%◌, ◌≤◌, ◌<◌, length};
ghost use Rattle.octets.specs.Octets.{at};
ghost use Rattle.aes_field.specs.Field.{substitutes};
ghost use Rattle.aes.specs.Cipher.{round_key, cipher, power, temp, key_expansion};

use aes_field::all_substitutes;
use aes_rounds::{add_round_key, last_round, one_round};

// The powers of x, from 1 on. FIPS 197, 5.2, the constants of the rounds.
const POWERS: [u8; 10] = *b"\x01\x02\x04\x08\x10\x20\x40\x80\x1b\x36";

fn power_of(n: usize) -> u8
    requires { n < 10 }
    ensures { result ≡ power n }
{
    POWERS[n]
}

// What byte p - 16 of the expanded key has added to it, where `v` is the word before that of byte p. FIPS 197, 5.2.
fn temp_byte(table: &[u8; 256], p: usize, v: [u8; 4]) -> u8
    requires { (table.now ≡ substitutes 256 0) × (16 ≤ p) × (p < 176) }
    ensures { result ≡ at (temp (p / 4) v) (p % 4) }
{
    if p / 4 % 4 != 0 {
        return v[p % 4];
    }
    let substitute = table[usize::from(v[(p + 1) % 4])];
    if p % 4 != 0 {
        return substitute;
    }
    substitute ^ power_of(p / 16 - 1)
}

// The key's 44 words, byte by byte. FIPS 197, 5.2.
pub fn expand(key: [u8; 16]) -> [u8; 176]
    ensures { result ≡ key_expansion key }
{
    let table = all_substitutes();
    let mut w = [0u8; 176];
    octets::put(&mut w, 0, &key);
    for p in 16..176 {
        let from = p - p % 4;
        let before = [w[from - 4], w[from - 3], w[from - 2], w[from - 1]];
        w[p] = w[p - 16] ^ temp_byte(&table, p, before);
    }
    w
}

// Round `n`'s 16 bytes of the expanded key. FIPS 197, 5.1.4.
fn round_key(keys: &[u8], n: usize) -> [u8; 16]
    requires { 16 * n + 16 ≤ length keys.now }
    ensures { result ≡ round_key keys.now n }
{
    let mut k = [0u8; 16];
    let at = 16 * n;
    octets::put(&mut k, 0, &keys[at..at + 16]);
    k
}

// A block enciphered with an expanded key. FIPS 197, 5.1.
pub fn encipher(keys: &[u8; 176], block: [u8; 16]) -> [u8; 16]
    ensures { result ≡ cipher keys.now block }
{
    let mut s = add_round_key(block, round_key(keys, 0));
    for n in 1..10 {
        let next = one_round(s, round_key(keys, n));
        s = next;
    }
    last_round(s, round_key(keys, 10))
}
