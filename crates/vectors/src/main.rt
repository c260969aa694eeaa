// Published vectors, run: what is printed is compared with the file `stdout`.
#![tactic(auto)]

use sha1_block::Five;
use std::io;

// The bytes in hexadecimal, and the end of a line.
fn show(rt: &impl Print, bytes: &[u8]) -> io::Result<()> {
    for byte in bytes {
        print!(rt; "{byte:02x}")?;
    }
    println!(rt; "")
}

fn show_cipher(rt: &impl Print, key: [u8; 16], block: [u8; 16]) -> io::Result<()> {
    let keys = aes::expand(key);
    let out = aes::encipher(&keys, block);
    show(rt, &out)
}

// A digest: the five words of a hash value.
fn show_hash(rt: &impl Print, hash: Five) -> io::Result<()> {
    let Five { a, b, c, d, e } = hash;
    println!(rt; "{a:08x}{b:08x}{c:08x}{d:08x}{e:08x}")
}

fn show_digest(rt: &impl Print, message: &[u8]) -> io::Result<()> {
    show_hash(
        rt,
        sha1_digest::finish(sha1_digest::feed(sha1_digest::begin(), message)),
    )
}

// The letter a, a million times, in a thousand parts.
fn show_million(rt: &impl Print) -> io::Result<()> {
    let part = [97u8; 1000];
    let mut running = sha1_digest::begin();
    for _ in 0..1000 {
        let next = sha1_digest::feed(running, &part);
        running = next;
    }
    show_hash(rt, sha1_digest::finish(running))
}

// Document 002's example: the payload and its hash, enciphered as one and in two parts.
fn show_stream(rt: &impl Print) -> io::Result<()> {
    let keys = aes::expand(*b"keep me secret!!");
    let nonce = *b"\x03\xe8\x00\x03\x52";
    let mut whole = *b"\x70\x01\x08\x12\x12\x03\x24\x13\x22\x02\x76\x72\x5d\xb2\xb2";
    ctr::add_stream(&keys, nonce, 0, &mut whole);
    show(rt, &whole)?;
    let mut hash = *b"\x72\x5d\xb2\xb2";
    ctr::add_stream(&keys, nonce, 11, &mut hash);
    show(rt, &hash)
}

// RFC 3686, test vector 1: "Single block msg" by the nonce's block 1, alone and behind block 0.
fn show_counted(rt: &impl Print) -> io::Result<()> {
    let keys = aes::expand(*b"\xae\x68\x52\xf8\x12\x10\x67\xcc\x4b\xf7\xa5\x76\x55\x77\xf3\x9e");
    let nonce = *b"\x00\x00\x00\x30\x00";
    let mut alone = *b"Single block msg";
    ctr::add_stream(&keys, nonce, 16, &mut alone);
    show(rt, &alone)?;
    let mut behind = *b"This goes first.Single block msg";
    ctr::add_stream(&keys, nonce, 0, &mut behind);
    show(rt, &behind[16..32])
}

// SP 800-38A, F.5.1: the output blocks of its four counter blocks. They go through the cipher alone: no message has such a counter block, since bytes 5
// to 7 of ours are 0.
fn show_output_blocks(rt: &impl Print) -> io::Result<()> {
    let key = *b"\x2b\x7e\x15\x16\x28\xae\xd2\xa6\xab\xf7\x15\x88\x09\xcf\x4f\x3c";
    let counters = [
        *b"\xf0\xf1\xf2\xf3\xf4\xf5\xf6\xf7\xf8\xf9\xfa\xfb\xfc\xfd\xfe\xff",
        *b"\xf0\xf1\xf2\xf3\xf4\xf5\xf6\xf7\xf8\xf9\xfa\xfb\xfc\xfd\xff\x00",
        *b"\xf0\xf1\xf2\xf3\xf4\xf5\xf6\xf7\xf8\xf9\xfa\xfb\xfc\xfd\xff\x01",
        *b"\xf0\xf1\xf2\xf3\xf4\xf5\xf6\xf7\xf8\xf9\xfa\xfb\xfc\xfd\xff\x02",
    ];
    for counter in counters {
        show_cipher(rt, key, counter)?;
    }
    Ok(())
}

fn main(rt: HostRuntime) -> io::Result<()> {
    // FIPS 197, appendix B, and appendix C.1.
    let ciphers = [
        (
            *b"\x2b\x7e\x15\x16\x28\xae\xd2\xa6\xab\xf7\x15\x88\x09\xcf\x4f\x3c",
            *b"\x32\x43\xf6\xa8\x88\x5a\x30\x8d\x31\x31\x98\xa2\xe0\x37\x07\x34",
        ),
        (
            *b"\x00\x01\x02\x03\x04\x05\x06\x07\x08\x09\x0a\x0b\x0c\x0d\x0e\x0f",
            *b"\x00\x11\x22\x33\x44\x55\x66\x77\x88\x99\xaa\xbb\xcc\xdd\xee\xff",
        ),
    ];
    for (key, block) in ciphers {
        show_cipher(&rt, key, block)?;
    }
    // FIPS 180: the empty message, "abc", the message of 448 bits, and a million times the letter a.
    let messages: [&[u8]; 3] = [
        b"",
        b"abc",
        b"abcdbcdecdefdefgefghfghighijhijkijkljklmklmnlmnomnopnopq",
    ];
    for message in messages {
        show_digest(&rt, message)?;
    }
    show_million(&rt)?;
    show_stream(&rt)?;
    show_counted(&rt)?;
    show_output_blocks(&rt)
}
