// Words and bit fields: the bytes of a slice as little-endian numbers, and fields of a number of
// one or two 64-bit words.
#![tactic(auto)]

pub mod word32;

ghost use Rattle.std.specs.Prelude.{◌≡◌, ◌+◌, ◌*◌, ◌^◌, ◌<◌, ◌≤◌, length, replicate, nat_lt};
ghost use Rattle.std.proofs.lemmas.List.Edits.{sets};
ghost use Rattle.bits.specs.Choice.{pick};
ghost use Rattle.bits.specs.Bytes.{word_at, number_at, bytes_of, up4, ascii};
ghost use Rattle.bits.specs.Fields.{field_of, with_field};
ghost use Rattle.bits.specs.Words.{whole, InOneWord};

// A number of up to 128 bits.
#[derive(Clone, Copy)]
pub struct Words {
    pub low: u64,
    pub high: u64,
}

pub fn wide(b: u8) -> u64
    ensures { (result ≡ b) × (result < 256) }
{
    b as u64
}

pub fn least(a: usize, b: usize) -> usize
    ensures { (result ≡ pick (nat_lt a b) a b) × (result ≤ b) }
{
    a.min(b)
}

// The next multiple of 4.
pub fn up4(n: usize) -> usize
    requires { n < 9223372036854775808 }
    ensures { result ≡ up4 n }
{
    (n + 3) / 4 * 4
}

// The 4 bytes from `at` on, as a number.
pub fn word(s: &[u8], at: usize) -> u64
    requires { at + 4 ≤ length s.now }
    ensures { (result ≡ word_at s.now at) × (result < 4294967296) }
{
    s[at] as u64 + s[at + 1] as u64 * 256 + s[at + 2] as u64 * 65536 + s[at + 3] as u64 * 16777216
}

// The 8 bytes from `at` on, as a number.
pub fn word64(s: &[u8], at: usize) -> u64
    requires { at + 8 ≤ length s.now }
    ensures { result ≡ number_at s.now at 8 }
{
    word(s, at) + word(s, at + 4) * 4294967296
}

// The 4 low bytes of `x`, stored from `at` on. Each byte divides what the one before left, as the
// definition of a number's bytes does.
pub fn put_word(s: &mut [u8], at: usize, x: u64)
    requires { at + 4 ≤ length s.old }
    ensures { s.new ≡ sets s.old at (bytes_of 4 x) }
{
    s[at] = (x % 256) as u8;
    s[at + 1] = (x / 256 % 256) as u8;
    s[at + 2] = (x / 256 / 256 % 256) as u8;
    s[at + 3] = (x / 256 / 256 / 256 % 256) as u8;
}

// The same of a number that fits 4 bytes, so that the word holds all of it.
pub fn put_exact(s: &mut [u8], at: usize, x: u64)
    requires at_in_bounds { at + 4 ≤ length s.old }
    requires x_bound { x < 4294967296 }
    ensures { (s.new ≡ sets s.old at (bytes_of 4 x)) × (word_at s.new at ≡ x) }
{
    put_word(s, at, x);
}

// The 8 bytes of `x`, stored from `at` on.
pub fn put_word64(s: &mut [u8], at: usize, x: u64)
    requires { at + 8 ≤ length s.old }
    ensures { s.new ≡ sets s.old at (bytes_of 8 x) }
{
    put_word(s, at, x);
    put_word(s, at + 4, x / 4294967296);
}

// The field of `width` bits that starts at bit `at`.
pub fn field(n: u64, at: usize, width: usize) -> u64
    requires { (width < 64) × (width + at ≤ 64) × (at < 64) }
    ensures { (result ≡ field_of n at width) × (result < 2 ^ width) }
{
    (n >> at) & ((1u64 << width) - 1)
}

// The number with that field replaced by the low bits of `v`.
pub fn with_field(n: u64, at: usize, width: usize, v: u64) -> u64
    requires { (width < 64) × (width + at ≤ 64) × (at < 64) }
    ensures { result ≡ with_field n at width v }
{
    let ones = (1u64 << width) - 1;
    (n & !(ones << at)) | ((v & ones) << at)
}

// The number whose low `width` bits are `low` and whose upper ones are `high`.
pub fn join(high: u64, low: u64, width: usize) -> u64
    requires { (width ≤ 32) × (high < 2 ^ 32) × (low < 2 ^ width) }
    ensures { result ≡ high * 2 ^ width + low }
{
    (high << width) | low
}

// A field of a number of two words: it lies in one of them.
pub fn words_field(w: Words, at: usize, width: usize) -> u64
    requires { InOneWord at width }
    ensures { (result ≡ field_of (whole w) at width) × (result < 2 ^ width) }
{
    if at < 64 {
        field(w.low, at, width)
    } else {
        field(w.high, at - 64, width)
    }
}

// The number of two words with that field replaced by the low bits of `v`.
pub fn words_with_field(w: Words, at: usize, width: usize, v: u64) -> Words
    requires { InOneWord at width }
    ensures { whole result ≡ with_field (whole w) at width v }
{
    if at < 64 {
        Words {
            low: with_field(w.low, at, width, v),
            high: w.high,
        }
    } else {
        Words {
            low: w.low,
            high: with_field(w.high, at - 64, width, v),
        }
    }
}

// The first 12 bytes of a slot, as a number.
pub fn load12(s: &[u8]) -> Words
    requires { 12 ≤ length s.now }
    ensures { whole result ≡ number_at s.now 0 12 }
{
    Words {
        low: word64(s, 0),
        high: word(s, 8),
    }
}

// The first 16 bytes of a slot, as a number.
pub fn load16(s: &[u8]) -> Words
    requires { 16 ≤ length s.now }
    ensures { whole result ≡ number_at s.now 0 16 }
{
    Words {
        low: word64(s, 0),
        high: word64(s, 8),
    }
}

// The 12 low bytes of a number, stored at the front of a slot.
pub fn store12(s: &mut [u8], w: Words)
    requires { 12 ≤ length s.old }
    ensures { s.new ≡ sets s.old 0 (bytes_of 12 (whole w)) }
{
    put_word64(s, 0, w.low);
    put_word(s, 8, w.high);
}

// The 16 bytes of a number, stored at the front of a slot.
pub fn store16(s: &mut [u8], w: Words)
    requires { 16 ≤ length s.old }
    ensures { s.new ≡ sets s.old 0 (bytes_of 16 (whole w)) }
{
    put_word64(s, 0, w.low);
    put_word64(s, 8, w.high);
}

// All bytes of `src`, stored from `at` on.
pub fn put_bytes(s: &mut [u8], at: usize, src: &[u8])
    requires { at + length src.now ≤ length s.old }
    ensures { s.new ≡ sets s.old at src.now }
{
    // No `copy_from_slice`: it calls `memmove`, which an archive for C would then need from outside.
    for (i, byte) in src.iter().enumerate() {
        s[at + i] = *byte;
    }
}

// `n` copies of `x`, stored from `at` on.
pub fn put_copies<T: Copy>(s: &mut [T], at: usize, n: usize, x: T)
    requires { at + n ≤ length s.old }
    ensures { s.new ≡ sets s.old at (replicate n x) }
{
    for place in &mut s[at..at + n] {
        *place = x;
    }
}

// `n` zeros, stored from `at` on.
pub fn put_zeros(s: &mut [u8], at: usize, n: usize)
    requires { at + n ≤ length s.old }
    ensures { s.new ≡ sets s.old at (replicate n 0) }
{
    put_copies(s, at, n, 0);
}

// Whether all bytes are ASCII. The bytes are gathered and tested once, which costs a twentieth of a
// test for each.
pub fn ascii(s: &[u8]) -> bool
    ensures { result ≡ ascii s.now }
{
    let mut seen: u8 = 0;
    for b in s {
        seen |= *b;
    }
    seen < 128
}
