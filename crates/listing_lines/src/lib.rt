// The lines of the listing, written to a lent buffer at a place. Each writer answers the place behind
// what it wrote, and needs room for the longest line of its kind.
#![tactic(auto)]

ghost use Rattle.std.specs.Prelude.{◌≡◌, ◌∷◌, [], ◌++◌, ◌+◌, ◌*◌, ◌≤◌, length};
ghost use Rattle.bits.specs.Choice.{pick};
ghost use Rattle.image.specs.Strings.{unit_size};
ghost use Rattle.text.specs.Text.{space, hexes, spaced, Wrote};
ghost use Rattle.listing_lines.specs.Lines.{letter, refused_line, counts_line, string_words, slot_word, gap, closing};
ghost use Rattle.listing_lines.specs.Lines.{function_line, units_shown};

const SPACE: u8 = 32;

const LINE_FEED: u8 = 10;

// ---- lines of words

fn choose(which: bool, yes: u8, no: u8) -> u8
    ensures { result ≡ pick which yes no }
{
    if which { yes } else { no }
}

// The letter `yes` or `no`, and a space.
fn put_letter(out: &mut [u8], at: usize, which: bool, yes: u8, no: u8) -> usize
    requires { at + 2 ≤ length out.old }
    ensures { Wrote out.old at (letter (pick which yes no) ++ (space ∷ [])) result out.new }
{
    out[at] = choose(which, yes, no);
    out[at + 1] = SPACE;
    at + 2
}

pub fn put_refused(out: &mut [u8], at: usize, number: u64) -> usize
    requires { at + 29 ≤ length out.old }
    ensures { Wrote out.old at (refused_line number) result out.new × (result ≤ at + 29) }
{
    let a = text::put_text(out, at, b"refused ");
    text::put_number(out, a, number, LINE_FEED)
}

pub fn put_counts(out: &mut [u8], at: usize, len: u64, strings: u64, functions: u64) -> usize
    requires { at + 69 ≤ length out.old }
    ensures { Wrote out.old at (counts_line len strings functions) result out.new × (result ≤ at + 69) }
{
    let a = text::put_text(out, at, b"image ");
    let b = text::put_number(out, a, len, SPACE);
    let c = text::put_number(out, b, strings, SPACE);
    text::put_number(out, c, functions, LINE_FEED)
}

// The line of a string before its units.
pub fn put_string(
    out: &mut [u8],
    at: usize,
    id: u64,
    wide: bool,
    identifier: bool,
    count: u64,
) -> usize
    requires { at + 48 ≤ length out.old }
    ensures { Wrote out.old at (spaced (string_words id wide identifier count)) result out.new
        × (result ≤ at + 48) }
{
    let a = text::put_text(out, at, b"s ");
    let b = text::put_number(out, a, id, SPACE);
    let c = put_letter(out, b, wide, b'w', b'n');
    let d = put_letter(out, c, identifier, b'i', b's');
    text::put_number(out, d, count, SPACE)
}

pub fn put_function(out: &mut [u8], at: usize, id: u64, large: bool, start: u64, size: u64) -> usize
    requires { at + 67 ≤ length out.old }
    ensures { Wrote out.old at (function_line id large start size) result out.new × (result ≤ at + 67) }
{
    let a = text::put_text(out, at, b"f ");
    let b = text::put_number(out, a, id, SPACE);
    let c = put_letter(out, b, large, b'o', b'p');
    let d = text::put_number(out, c, start, SPACE);
    text::put_number(out, d, size, LINE_FEED)
}

// ---- units

// The hex digits of `n` units from unit `first` on, of a string whose bytes start at `start`.
pub fn put_units(
    out: &mut [u8],
    at: usize,
    image: &[u8],
    start: usize,
    wide: bool,
    first: usize,
    n: usize,
) -> usize
    requires n_in_bounds { at + n * 4 ≤ length out.old }
    requires wide_in_bounds { start + (first + n) * unit_size wide ≤ length image.now }
    ensures { Wrote out.old at (hexes (units_shown image.now start wide first n)) result out.new
        × (result ≡ at + n * 4) }
{
    for i in 0..n {
        text::put_hex(
            out,
            at + i * 4,
            string_walk::unit_at(image, start, wide, first + i),
        );
    }
    at + n * 4
}

// ---- the end of a string's line

// What stands between a string's units and its last field: a dash stands in place of none.
fn put_gap(out: &mut [u8], at: usize, count: usize) -> usize
    requires { at + 2 ≤ length out.old }
    ensures { Wrote out.old at (gap count) result out.new × (result ≤ at + 2) }
{
    if count == 0 {
        return text::put_text(out, at, b"- ");
    }
    text::put_text(out, at, b" ")
}

fn put_slot(out: &mut [u8], at: usize, slot: Option<u64>) -> usize
    requires { at + 8 ≤ length out.old }
    ensures { Wrote out.old at (slot_word slot) result out.new × (result ≤ at + 8) }
{
    match slot {
        Some(hash) => text::put_hex_word(out, at, hash),
        None => text::put_text(out, at, b"-"),
    }
}

// All that stands behind a string's units.
pub fn put_closing(out: &mut [u8], at: usize, count: usize, slot: Option<u64>) -> usize
    requires { at + 11 ≤ length out.old }
    ensures { Wrote out.old at (closing count slot) result out.new × (result ≤ at + 11) }
{
    let a = put_gap(out, at, count);
    let b = put_slot(out, a, slot);
    text::put_text(out, b, b"\n")
}
