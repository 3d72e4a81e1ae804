// UTF-8 read one byte at a time: whether it is well-formed, its UTF-16 units, and the hash that an
// identifier has by them.
#![tactic(auto)]

ghost use Rattle.std.specs.Prelude.{◌≡◌, ◌+◌, ◌≤◌, ◌<◌, eqb, length};
ghost use Rattle.std.proofs.lemmas.List.Edits.{sets};
ghost use Rattle.bits.specs.Choice.{pick};
ghost use Rattle.bits.specs.Bytes.{bytes_of};
ghost use Rattle.format.specs.Hash.{hash_step, hash_from, hash_of};
ghost use Rattle.utf.specs.Utf8.{Small, Skipped, GoesOn, goes_on, next_byte, is_utf8, completes, list_of, utf16, unit_bytes};
ghost use Rattle.utf.specs.Utf8.{further as Utf8·further, wrong as Utf8·wrong, opens as Utf8·opens};

use bits::word32::{add, xor};

// Where a reader stands.
#[derive(Clone, Copy)]
pub struct Reading {
    pub ok: bool,
    pub need: u32,
    pub point: u32,
    pub lo: u32,
    pub hi: u32,
}

// The units that a byte completes.
#[derive(Clone, Copy)]
pub enum Units {
    None,
    One(u32),
    Two(u32, u32),
}

// A code point of which `need` bytes are to come, from the common range.
pub fn further(need: u32, point: u32) -> Reading
    ensures { result ≡ Utf8·further need point }
{
    Reading {
        ok: true,
        need,
        point,
        lo: 0x80,
        hi: 0xBF,
    }
}

// After a byte that is wrong in its place.
fn wrong() -> Reading
    ensures { result ≡ Utf8·wrong }
{
    Reading {
        ok: false,
        need: 0,
        point: 0,
        lo: 0x80,
        hi: 0xBF,
    }
}

// The first byte of a code point. A second byte has a range of its own after some first bytes.
fn opens(b: u8) -> Reading
    ensures { (result ≡ Utf8·opens b) × Small result }
{
    let x = b as u32;
    if x < 0x80 {
        return further(0, x);
    }
    if x < 0xC2 {
        return wrong();
    }
    if x < 0xE0 {
        return further(1, x - 0xC0);
    }
    if x < 0xF0 {
        return Reading {
            ok: true,
            need: 2,
            point: x - 0xE0,
            lo: if x == 0xE0 { 0xA0 } else { 0x80 },
            hi: if x == 0xED { 0x9F } else { 0xBF },
        };
    }
    if x < 0xF5 {
        return Reading {
            ok: true,
            need: 3,
            point: x - 0xF0,
            lo: if x == 0xF0 { 0x90 } else { 0x80 },
            hi: if x == 0xF4 { 0x8F } else { 0xBF },
        };
    }
    wrong()
}

// A further byte of a code point.
fn goes_on(r: Reading, b: u8) -> Reading
    requires small { Small r }
    requires need_nonzero { 0 < r.need }
    ensures { (result ≡ goes_on r b) × Small result }
{
    let x = b as u32;
    if x < r.lo || r.hi < x {
        return wrong();
    }
    further(r.need - 1, r.point * 64 + (x - 0x80))
}

// Where the reader stands after one more byte.
pub fn next_byte(r: Reading, b: u8) -> Reading
    requires { Small r }
    ensures { (result ≡ next_byte r b) × Small result }
{
    if !r.ok {
        return wrong();
    }
    if r.need == 0 {
        return opens(b);
    }
    goes_on(r, b)
}

// The units of the code point that ended with the last byte, if one did.
pub fn completed(r: Reading) -> Units
    requires { Small r }
    ensures { list_of result ≡ completes r }
{
    if !r.ok || r.need != 0 {
        return Units::None;
    }
    if r.point < 0x10000 {
        return Units::One(r.point);
    }
    let rest = r.point - 0x10000;
    Units::Two(0xD800 + rest / 0x400, 0xDC00 + rest % 0x400)
}

// The place of the first byte from `from` on that is not ASCII, or the end. A loop of its own, which
// costs a third of a reading by the table.
fn past_ascii(value: &[u8], from: usize) -> usize
    requires { from ≤ length value.now }
    ensures { Skipped value.now from result }
{
    for i in from..value.len() {
        if 0x80 <= value[i] {
            return i;
        }
    }
    value.len()
}

// Where a reader goes on from `from`: between two code points behind the ASCII bytes that follow.
fn go_on(value: &[u8], from: usize, r: Reading) -> usize
    requires { from ≤ length value.now }
    ensures { GoesOn value.now from r result }
{
    if !r.ok || r.need != 0 {
        return from;
    }
    past_ascii(value, from)
}

// Whether a value is well-formed UTF-8.
pub fn is_utf8(value: &[u8]) -> bool
    ensures { result ≡ is_utf8 value.now }
{
    let mut r = further(0, 0);
    let mut i = past_ascii(value, 0);
    // Stays a while loop: it goes from a byte that counts to the next, past ASCII bytes.
    while i < value.len() {
        r = next_byte(r, value[i]);
        i = go_on(value, i + 1, r);
    }
    r.ok && r.need == 0
}

// How many units that is.
pub fn count_of(units: Units) -> usize
    ensures { (result ≡ length (list_of units)) × (result ≤ 2) }
{
    match units {
        Units::None => 0,
        Units::One(_) => 1,
        Units::Two(_, _) => 2,
    }
}

// How many UTF-16 units a value has: never more than bytes.
pub fn count_units(value: &[u8]) -> usize
    ensures { result ≡ length (utf16 value.now) }
{
    let mut n = 0;
    let mut r = further(0, 0);
    for b in value {
        r = next_byte(r, *b);
        n += count_of(completed(r));
    }
    n
}

// The two bytes of a unit, stored from `at` on.
fn put_unit(out: &mut [u8], at: usize, unit: u32)
    requires { at + 2 ≤ length out.old }
    ensures { out.new ≡ sets out.old at (bytes_of 2 unit) }
{
    out[at] = (unit % 256) as u8;
    out[at + 1] = (unit / 256 % 256) as u8;
}

// Units stored from `at` on. Answers where the next ones go.
fn put_completed(out: &mut [u8], at: usize, units: Units) -> usize
    requires { at + length (unit_bytes (list_of units)) ≤ length out.old }
    ensures { (result ≡ at + length (unit_bytes (list_of units)))
        × (out.new ≡ sets out.old at (unit_bytes (list_of units))) }
{
    match units {
        Units::None => at,
        Units::One(u) => {
            put_unit(out, at, u);
            at + 2
        }
        Units::Two(u, v) => {
            put_unit(out, at, u);
            put_unit(out, at + 2, v);
            at + 4
        }
    }
}

// The UTF-16 units of a value, stored from `at` on, low bytes first.
pub fn put_units(out: &mut [u8], at: usize, value: &[u8])
    requires { at + length (unit_bytes (utf16 value.now)) ≤ length out.old }
    ensures { out.new ≡ sets out.old at (unit_bytes (utf16 value.now)) }
{
    let mut to = at;
    let mut r = further(0, 0);
    for b in value {
        r = next_byte(r, *b);
        to = put_completed(out, to, completed(r));
    }
}

// One unit of an identifier's hash: add it, add the sum shifted left 10, xor with itself shifted
// right 6.
pub fn hash_step(h: u32, unit: u32) -> u32
    ensures { result ≡ hash_step h unit }
{
    let a = add(h, unit);
    let b = add(a, a << 10);
    xor(b, b >> 6)
}

fn hash_completed(h: u32, units: Units) -> u32
    ensures { result ≡ hash_from h (list_of units) }
{
    match units {
        Units::None => h,
        Units::One(u) => hash_step(h, u),
        Units::Two(u, v) => hash_step(hash_step(h, u), v),
    }
}

// The hash that an identifier has with a value.
pub fn hash_value(value: &[u8]) -> u32
    ensures { result ≡ hash_of (utf16 value.now) }
{
    let mut h: u32 = 0;
    let mut r = further(0, 0);
    for b in value {
        r = next_byte(r, *b);
        h = hash_completed(h, completed(r));
    }
    h
}
