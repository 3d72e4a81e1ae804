// SHA-1 of a slice, FIPS 180-4. The five words of the hash value and of the working variables, and
// the ring of 16 words that the schedule is worked in, are arrays that go into a function by value
// and come back from it.
#![tactic(auto)]

ghost use Rattle.std.specs.Prelude.{◌≡◌, ◌++◌, ◌+◌, ◌*◌, ◌/◌, ◌%◌, ◌≤◌, ◌<◌, length, get_or, replicate};
ghost use Rattle.std.proofs.lemmas.List.Edits.{sets};
ghost use Rattle.bits.specs.Word32.{rotl32, xor32};
ghost use Rattle.sha1_hash.specs.BigEndian.{big_at, big_bytes};
ghost use Rattle.sha1_hash.specs.Functions.{ch, parity, maj, f_in, k_in};
ghost use Rattle.sha1_hash.specs.Ring.{Holds, AtRound};
ghost use Rattle.sha1_hash.specs.Sha1.{padding, schedule, turned, rounds, summed, hashed, hashes, digest_bytes, digest};

use bits::word32::{add, and, rotl, xor};

// 5.3.1: the initial hash value.
const INITIAL: [u32; 5] = [0x67452301, 0xefcdab89, 0x98badcfe, 0x10325476, 0xc3d2e1f0];

// 4.2.1: the constants, one for each quarter of the rounds.
const K: [u32; 4] = [0x5a827999, 0x6ed9eba1, 0x8f1bbcdc, 0xca62c1d6];

// 4.1.1: Ch, with one operator less than the standard's formula has.
fn choose(x: u32, y: u32, z: u32) -> u32
    ensures { result ≡ ch x y z }
{
    xor(z, and(x, xor(y, z)))
}

// 4.1.1: Parity.
fn odd(x: u32, y: u32, z: u32) -> u32
    ensures { result ≡ parity x y z }
{
    xor(xor(x, y), z)
}

// 4.1.1: Maj.
fn most(x: u32, y: u32, z: u32) -> u32
    ensures { result ≡ maj x y z }
{
    xor(xor(and(x, y), and(x, z)), and(y, z))
}

// The function of a quarter of the rounds.
fn mixed(quarter: usize, x: u32, y: u32, z: u32) -> u32
    ensures { result ≡ f_in quarter x y z }
{
    match quarter {
        0 => choose(x, y, z),
        2 => most(x, y, z),
        _ => odd(x, y, z),
    }
}

// The constant of a quarter of the rounds.
fn constant(quarter: usize) -> u32
    requires { quarter < 4 }
    ensures { result ≡ k_in quarter }
{
    K[quarter]
}

// 6.1.2, step 3: one round, with the function's value `f`, the constant `k` and the word `w`. Rotated
// first, `c` costs a round the fewest instructions.
fn turn(v: [u32; 5], f: u32, k: u32, w: u32) -> [u32; 5]
    ensures { result ≡ turned v f k w }
{
    let c = rotl(30, v[1]);
    let t = add(add(add(add(rotl(5, v[0]), f), v[4]), k), w);
    [t, v[0], c, v[2], v[3]]
}

// The word of 4 bytes from `at` on.
fn big_word(s: &[u8], at: usize) -> u32
    requires { at + 4 ≤ length s.now }
    ensures { result ≡ big_at s.now at 4 }
{
    ((s[at] as u32 * 256 + s[at + 1] as u32) * 256 + s[at + 2] as u32) * 256 + s[at + 3] as u32
}

fn next_word(a: u32, b: u32, c: u32, d: u32) -> u32
    ensures { result ≡ rotl32 1 (xor32 (xor32 (xor32 a b) c) d) }
{
    rotl(1, xor(xor(xor(a, b), c), d))
}

// Step 1: W_t, from the block, or where that has no more words, from the ring.
fn word(ring: [u32; 16], block: &[u8], t: usize) -> u32
    requires { (t < 80) × (64 ≤ length block.now) × Holds (schedule block.now) t ring }
    ensures { result ≡ get_or (schedule block.now) t 0 }
{
    if t < 16 {
        return big_word(block, t * 4);
    }
    next_word(
        ring[(t - 3) % 16],
        ring[(t - 8) % 16],
        ring[(t - 14) % 16],
        ring[(t - 16) % 16],
    )
}

// What goes from round to round: the working variables a to e, and the ring.
#[derive(Clone, Copy)]
struct Work {
    v: [u32; 5],
    ring: [u32; 16],
}

// Step 2: the working variables are the hash value. The ring has no word yet.
fn begin(h: [u32; 5], block: &[u8]) -> Work
    requires { 64 ≤ length block.now }
    ensures { AtRound h block.now 0 result.v result.ring }
{
    Work {
        v: h,
        ring: [0; 16],
    }
}

// Step 3: round t. Its word takes the place of W_(t-16), which no later word needs. Where a call
// gives `t` as a number, so are the places in the ring, the function and the constant in the
// compiled code. `h`, the hash value before the block, is there for the contract alone.
fn round(h: [u32; 5], block: &[u8], s: Work, t: usize) -> Work
    requires { (t < 80) × AtRound h block.now t s.v s.ring }
    ensures { AtRound h block.now (t + 1) result.v result.ring }
{
    let v = s.v;
    let mut ring = s.ring;
    let f = mixed(t / 20, v[1], v[2], v[3]);
    let w = word(ring, block, t);
    ring[t % 16] = w;
    let next = turn(v, f, constant(t / 20), w);
    Work { v: next, ring }
}

// Sixteen rounds, a turn of the ring. They are written out, and the first of them is a parameter of
// the function itself: so a round's number, and with it its places in the ring, are numbers in the
// compiled code. A loop would reckon five for each word.
fn sixteen_rounds<const FROM: usize>(h: [u32; 5], block: &[u8], s0: Work) -> Work
    requires { (FROM + 16 ≤ 80) × AtRound h block.now FROM s0.v s0.ring }
    ensures { AtRound h block.now (FROM + 16) result.v result.ring }
{
    let s1 = round(h, block, s0, FROM);
    let s2 = round(h, block, s1, FROM + 1);
    let s3 = round(h, block, s2, FROM + 2);
    let s4 = round(h, block, s3, FROM + 3);
    let s5 = round(h, block, s4, FROM + 4);
    let s6 = round(h, block, s5, FROM + 5);
    let s7 = round(h, block, s6, FROM + 6);
    let s8 = round(h, block, s7, FROM + 7);
    let s9 = round(h, block, s8, FROM + 8);
    let s10 = round(h, block, s9, FROM + 9);
    let s11 = round(h, block, s10, FROM + 10);
    let s12 = round(h, block, s11, FROM + 11);
    let s13 = round(h, block, s12, FROM + 12);
    let s14 = round(h, block, s13, FROM + 13);
    let s15 = round(h, block, s14, FROM + 14);
    round(h, block, s15, FROM + 15)
}

// All rounds.
fn all_rounds(h: [u32; 5], block: &[u8]) -> [u32; 5]
    requires { 64 ≤ length block.now }
    ensures { result ≡ rounds 0 80 h (schedule block.now) }
{
    let s0 = begin(h, block);
    let s16 = sixteen_rounds::<0>(h, block, s0);
    let s32 = sixteen_rounds::<16>(h, block, s16);
    let s48 = sixteen_rounds::<32>(h, block, s32);
    let s64 = sixteen_rounds::<48>(h, block, s48);
    let s80 = sixteen_rounds::<64>(h, block, s64);
    s80.v
}

// Step 4.
fn sum(h: [u32; 5], v: [u32; 5]) -> [u32; 5]
    ensures { result ≡ summed h v }
{
    [
        add(v[0], h[0]),
        add(v[1], h[1]),
        add(v[2], h[2]),
        add(v[3], h[3]),
        add(v[4], h[4]),
    ]
}

// Steps 1 to 4: the hash value after a block.
fn hash_block(h: [u32; 5], block: &[u8]) -> [u32; 5]
    requires { 64 ≤ length block.now }
    ensures { result ≡ hashed h block.now }
{
    sum(h, all_rounds(h, block))
}

// The hash value after the first `n` blocks of a slice.
fn hash_blocks(h: [u32; 5], s: &[u8], n: usize) -> [u32; 5]
    requires { n * 64 ≤ length s.now }
    ensures { result ≡ hashes n h s.now }
{
    let mut g = h;
    for i in 0..n {
        let next = hash_block(g, &s[i * 64..i * 64 + 64]);
        g = next;
    }
    g
}

// The 4 bytes of a word, stored from `at` on.
fn put_big_word(s: &mut [u8], at: usize, x: u32)
    requires { at + 4 ≤ length s.old }
    ensures { s.new ≡ sets s.old at (big_bytes 4 x) }
{
    s[at] = (x / 16777216 % 256) as u8;
    s[at + 1] = (x / 65536 % 256) as u8;
    s[at + 2] = (x / 256 % 256) as u8;
    s[at + 3] = (x % 256) as u8;
}

// How many blocks the rest of a message of `n` bytes takes, with its padding: one or two.
fn last_count(n: usize) -> usize
    ensures { result ≡ (n % 64 + 72) / 64 }
{
    (n % 64 + 72) / 64
}

// 5.1.1: what is left of a message of `n` bytes past its last full block, with the padding, stored in
// `out`, which has its zero bytes before. The length in bits is n * 8 modulo 2^64, in two words: no
// product wraps, whatever `n` is.
fn put_last_blocks(out: &mut [u8; 128], rest: &[u8], n: usize)
    requires { (out.old ≡ replicate 128 0) × (length rest.now ≡ n % 64) }
    ensures { out.new ≡ sets (replicate 128 0) 0 (rest.now ++ padding n) }
{
    let end = last_count(n) * 64;
    bits::put_bytes(out, 0, rest);
    out[n % 64] = 0x80;
    put_big_word(out, end - 8, (n / 536870912 % 4294967296) as u32);
    put_big_word(out, end - 4, (n % 536870912 * 8) as u32);
}

// The bytes of a hash value.
fn digest_bytes(h: [u32; 5]) -> [u8; 20]
    ensures { result ≡ digest_bytes h }
{
    let mut out = [0u8; 20];
    put_big_word(&mut out, 0, h[0]);
    put_big_word(&mut out, 4, h[1]);
    put_big_word(&mut out, 8, h[2]);
    put_big_word(&mut out, 12, h[3]);
    put_big_word(&mut out, 16, h[4]);
    out
}

// SHA-1 of a slice: the full blocks come straight from it, the last one or two from a copy of what
// is left, padded.
pub fn sha1(s: &[u8]) -> [u8; 20]
    ensures { result ≡ digest s.now }
{
    let n = s.len();
    let full = n / 64;
    let begin = full * 64;
    let h = hash_blocks(INITIAL, s, full);
    let mut last = [0u8; 128];
    put_last_blocks(&mut last, &s[begin..], n);
    digest_bytes(hash_blocks(h, &last, last_count(n)))
}

// SHA-1 for callers in C and in Rust: the digest of a slice, stored in `out`.
#[unsafe(no_mangle)]
pub extern "C" fn nepuladrim_sha1(s: &[u8], out: &mut [u8; 20])
    ensures { out.new ≡ digest s.now }
{
    *out = sha1(s);
}
