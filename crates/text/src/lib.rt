// Numbers as text, written to a lent buffer at a place. A writer answers the place behind what it
// wrote.
#![tactic(auto)]

ghost use Rattle.std.specs.Prelude.{◌≡◌, ◌∷◌, [], ◌++◌, ◌+◌, ◌≤◌, ◌<◌, length};
ghost use Rattle.std.proofs.lemmas.List.Edits.{sets};
ghost use Rattle.text.specs.Text.{digit, decimal, hex4, hex8, Wrote};

// A digit of a number to a base of up to 16.
fn digit(d: u64) -> u8
    requires { d < 16 }
    ensures { result ≡ digit d }
{
    if d < 10 {
        b'0' + d as u8
    } else {
        b'a' - 10 + d as u8
    }
}

// A number in decimal: the digits of its tenth, then its last digit.
pub fn put_decimal(out: &mut [u8], at: usize, x: u64) -> usize
    requires { at + length (decimal x) ≤ length out.old }
    ensures { Wrote out.old at (decimal x) result out.new }
{
    if x < 10 {
        out[at] = digit(x);
        return at + 1;
    }
    let last = put_decimal(out, at, x / 10);
    out[last] = digit(x % 10);
    last + 1
}

// A number in decimal, and a byte behind it: a space or a line feed. A 64-bit number has at most 20
// digits.
pub fn put_number(out: &mut [u8], at: usize, x: u64, behind: u8) -> usize
    requires { at + 21 ≤ length out.old }
    ensures { Wrote out.old at (decimal x ++ (behind ∷ [])) result out.new × (result ≤ at + 21) }
{
    let end = put_decimal(out, at, x);
    out[end] = behind;
    end + 1
}

// Bytes as they are.
pub fn put_text(out: &mut [u8], at: usize, text: &[u8]) -> usize
    requires { at + length text.now ≤ length out.old }
    ensures { Wrote out.old at text.now result out.new }
{
    bits::put_bytes(out, at, text);
    at + text.len()
}

// The four hex digits of a 16-bit unit.
pub fn put_hex(out: &mut [u8], at: usize, unit: u64)
    requires { at + 4 ≤ length out.old }
    ensures { out.new ≡ sets out.old at (hex4 unit) }
{
    out[at] = digit(unit / 16 / 16 / 16 % 16);
    out[at + 1] = digit(unit / 16 / 16 % 16);
    out[at + 2] = digit(unit / 16 % 16);
    out[at + 3] = digit(unit % 16);
}

// The eight hex digits of a 32-bit word.
pub fn put_hex_word(out: &mut [u8], at: usize, word: u64) -> usize
    requires { at + 8 ≤ length out.old }
    ensures { Wrote out.old at (hex8 word) result out.new }
{
    put_hex(out, at, word / 65536);
    put_hex(out, at + 4, word % 65536);
    at + 8
}
