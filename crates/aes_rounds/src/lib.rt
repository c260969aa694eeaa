// The rounds of AES: what is done with the state of 16 bytes.
#![tactic(auto)]

ghost use Rattle.std.specs.Prelude.{◌≡◌, ◌∷◌, []};
ghost use Rattle.aes_field.specs.Field.{substitutes};
ghost use Rattle.aes_rounds.specs.Rounds.{sub_bytes, shift_rows, mix_column, mix_columns, add_round_key, round, last_round};

use aes_field::{all_substitutes, doubled};

// FIPS 197, 5.1.4.
pub fn add_round_key(s: [u8; 16], k: [u8; 16]) -> [u8; 16]
    ensures { result ≡ add_round_key s k }
{
    let mut sum = s;
    for i in 0..16 {
        sum[i] = s[i] ^ k[i];
    }
    sum
}

// The state with its bytes substituted and its rows shifted: what comes to place i stood at place 5 * i, counted round from 15 to 0.
// FIPS 197, 5.1.1 and 5.1.2.
fn shifted(table: &[u8; 256], s: [u8; 16]) -> [u8; 16]
    requires { table.now ≡ substitutes 256 0 }
    ensures { result ≡ shift_rows (sub_bytes s) }
{
    let mut rows = s;
    for i in 0..16 {
        rows[i] = table[usize::from(s[5 * i % 16])];
    }
    rows
}

// A column, mixed. FIPS 197, 5.1.3.
fn mix(a: u8, b: u8, c: u8, d: u8) -> [u8; 4]
    ensures { result ≡ mix_column (a ∷ b ∷ c ∷ d ∷ []) }
{
    let a2 = doubled(a);
    let b2 = doubled(b);
    let c2 = doubled(c);
    let d2 = doubled(d);
    [
        a2 ^ (b ^ b2) ^ c ^ d,
        b2 ^ (c ^ c2) ^ d ^ a,
        c2 ^ (d ^ d2) ^ a ^ b,
        d2 ^ (a ^ a2) ^ b ^ c,
    ]
}

// The state with its columns mixed. FIPS 197, 5.1.3.
fn mixed(s: [u8; 16]) -> [u8; 16]
    ensures { result ≡ mix_columns s }
{
    let mut columns = s;
    for c in 0..4 {
        let at = 4 * c;
        let column = mix(s[at], s[at + 1], s[at + 2], s[at + 3]);
        columns[at] = column[0];
        columns[at + 1] = column[1];
        columns[at + 2] = column[2];
        columns[at + 3] = column[3];
    }
    columns
}

// A round. FIPS 197, 5.1.
#[tactic(auto, unfolding(crate::specs::Rounds::round))]
pub fn one_round(s: [u8; 16], k: [u8; 16]) -> [u8; 16]
    ensures { result ≡ round s k }
{
    let table = all_substitutes();
    add_round_key(mixed(shifted(&table, s)), k)
}

// The last round, which mixes no columns. FIPS 197, 5.1.
#[tactic(auto, unfolding(crate::specs::Rounds::last_round))]
pub fn last_round(s: [u8; 16], k: [u8; 16]) -> [u8; 16]
    ensures { result ≡ last_round s k }
{
    let table = all_substitutes();
    add_round_key(shifted(&table, s), k)
}
