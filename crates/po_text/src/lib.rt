// The text of a translators' file as it is written (02, No. 1), code point by code point. A writer
// answers the place behind what it wrote.
#![tactic(auto)]

ghost use Rattle.std.specs.Prelude.{◌≡◌, ◌∷◌, [], ◌+◌, ◌≤◌, ◌<◌, length};
ghost use Rattle.text.specs.Text.{Wrote};
ghost use Rattle.utf.specs.Utf16.{bytes_of_point};
ghost use Rattle.po_text.specs.Written.{is_special, letter_of, can_write, escape, escaped};

const LINE_FEED: u64 = 10;

const TAB: u64 = 9;

const QUOTE_MARK: u64 = 34;

const BACKSLASH: u64 = 92;

// Whether a unit can be written.
pub fn can_write(u: u64) -> bool
    ensures { result ≡ can_write u }
{
    32 <= u || u == LINE_FEED || u == TAB
}

// Whether a byte is written with a backslash.
fn is_special(b: u64) -> bool
    ensures { result ≡ is_special b }
{
    matches!(b, LINE_FEED | TAB | QUOTE_MARK | BACKSLASH)
}

// What stands behind the backslash.
fn letter_of(b: u64) -> u64
    requires { b < 256 }
    ensures { (result ≡ letter_of b) × (result < 256) }
{
    match b {
        LINE_FEED => b'n' as u64,
        TAB => b't' as u64,
        _ => b,
    }
}

// How many bytes a byte of a value is written with.
fn escape_length(b: u64) -> usize
    ensures { (result ≡ length (escape b)) × (result ≤ 2) }
{
    if is_special(b) { 2 } else { 1 }
}

// How many bytes a code point is written with.
pub fn point_length(c: u64) -> usize
    ensures { (result ≡ length (escaped (bytes_of_point c))) × (result ≤ 4) }
{
    match c {
        0..=0x7F => escape_length(c),
        0x80..=0x7FF => 2,
        0x800..=0xFFFF => 3,
        _ => 4,
    }
}

// Two bytes.
fn put_two(out: &mut [u8], at: usize, a: u64, b: u64) -> usize
    requires { (a < 256) × (b < 256) × (at + 2 ≤ length out.old) }
    ensures { Wrote out.old at (a ∷ b ∷ []) result out.new }
{
    out[at] = a as u8;
    out[at + 1] = b as u8;
    at + 2
}

// A byte of a value.
fn put_escape(out: &mut [u8], at: usize, b: u64) -> usize
    requires { (b < 256) × (at + length (escape b) ≤ length out.old) }
    ensures { Wrote out.old at (escape b) result out.new }
{
    if is_special(b) {
        return put_two(out, at, BACKSLASH, letter_of(b));
    }
    out[at] = b as u8;
    at + 1
}

// A code point. Only those of one byte are ever escaped.
pub fn put_point(out: &mut [u8], at: usize, c: u64) -> usize
    requires { (c < 1114112) × (at + length (escaped (bytes_of_point c)) ≤ length out.old) }
    ensures { Wrote out.old at (escaped (bytes_of_point c)) result out.new }
{
    if c < 0x80 {
        return put_escape(out, at, c);
    }
    if c < 0x800 {
        return put_two(out, at, 0xC0 + c / 64, 0x80 + c % 64);
    }
    if c < 0x10000 {
        out[at] = (0xE0 + c / 64 / 64) as u8;
        return put_two(out, at + 1, 0x80 + c / 64 % 64, 0x80 + c % 64);
    }
    let middle = put_two(out, at, 0xF0 + c / 64 / 64 / 64, 0x80 + c / 64 / 64 % 64);
    put_two(out, middle, 0x80 + c / 64 % 64, 0x80 + c % 64)
}
