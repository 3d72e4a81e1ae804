// Strings of an image as text, where they stand: their units hashed, compared, and read as code points,
// which are judged, counted and written as a translators' file has them (02, No. 1).
#![tactic(auto)]

ghost use Rattle.std.specs.Prelude.{◌≡◌, true, ◌+◌, ◌*◌, ◌≤◌, ◌<◌, length};
ghost use Rattle.format.specs.Hash.{hash_of};
ghost use Rattle.footer.specs.Footer.{same};
ghost use Rattle.text.specs.Text.{Wrote};
ghost use Rattle.utf.specs.Utf16.{is_utf16, utf8_of};
ghost use Rattle.po_text.specs.Written.{escaped};
ghost use Rattle.string_walk.specs.Units.{unit_at};
ghost use Rattle.po_strings.specs.Texts.{is_held, text_of, Inside, units_in, NextPoint};

use string_walk::StringRecord;

// Where the units of a string stand.
#[derive(Clone, Copy)]
pub struct Text {
    pub start: usize,
    pub wide: bool,
    pub count: usize,
}

// That of a string that was found.
pub fn text_of(string: StringRecord) -> Text
    ensures { result ≡ text_of string }
{
    Text {
        start: string.start,
        wide: string.place.wide,
        count: string.place.count,
    }
}

// A code point of a text, and the unit behind it.
#[derive(Clone, Copy)]
struct Point {
    value: u64,
    next: usize,
}

// Unit `i` of a text.
fn unit_of(image: &[u8], t: Text, i: usize) -> u64
    requires { Inside image.now t × (i < t.count) }
    ensures { (result ≡ unit_at image.now t.start t.wide i) × (result < 65536) }
{
    string_walk::unit_at(image, t.start, t.wide, i)
}

// The hash of the units of a text.
pub fn hash_units(image: &[u8], t: Text) -> u32
    requires { Inside image.now t }
    ensures { result ≡ hash_of (units_in image.now t) }
{
    string_find::hash_units(image, t.start, t.wide, t.count)
}

// Whether two texts have the same units, whatever their widths.
pub fn have_same_units(image: &[u8], a: Text, b: Text) -> bool
    requires { Inside image.now a × Inside image.now b }
    ensures { result ≡ same (units_in image.now a) (units_in image.now b) }
{
    if a.count != b.count {
        return false;
    }
    for i in 0..a.count {
        if unit_of(image, a, i) != unit_of(image, b, i) {
            return false;
        }
    }
    true
}

// The code point that starts with high surrogate `high`, which is unit `i`. None where it stands alone.
fn paired(image: &[u8], t: Text, i: usize, high: u64) -> Option<Point>
    requires inside { Inside image.now t × (i < t.count) }
    requires high_value { (high ≡ unit_at image.now t.start t.wide i) × (55296 ≤ high) × (high < 56320) }
    ensures { NextPoint image.now t i result }
{
    let next = i + 1;
    if next == t.count {
        return None;
    }
    let low = unit_of(image, t, next);
    if low < 0xDC00 || 0xE000 <= low {
        return None;
    }
    Some(Point {
        value: 0x10000 + (high - 0xD800) * 0x400 + (low - 0xDC00),
        next: next + 1,
    })
}

// The code point that starts with unit `i`. None at the end, and where a surrogate stands alone.
fn next_point(image: &[u8], t: Text, i: usize) -> Option<Point>
    requires { Inside image.now t × (i ≤ t.count) }
    ensures { NextPoint image.now t i result }
{
    if i == t.count {
        return None;
    }
    let unit = unit_of(image, t, i);
    if unit < 0xD800 || 0xE000 <= unit {
        return Some(Point {
            value: unit,
            next: i + 1,
        });
    }
    if unit < 0xDC00 {
        return paired(image, t, i, unit);
    }
    None
}

// Whether a text is a value that a file has.
pub fn is_held(image: &[u8], t: Text) -> bool
    requires { Inside image.now t }
    ensures { result ≡ is_held (units_in image.now t) }
{
    if t.count == 0 {
        return false;
    }
    let mut i = 0;
    // Stays a while loop, as those below: a code point has one unit or two.
    while let Some(point) = next_point(image, t, i) {
        if !po_text::can_write(point.value) {
            return false;
        }
        i = point.next;
    }
    i == t.count
}

// How many bytes a text is written with.
pub fn written_length(image: &[u8], t: Text) -> usize
    requires { Inside image.now t × (t.count < 4294967296) × (is_utf16 (units_in image.now t) ≡ true) }
    ensures { (result ≡ length (escaped (utf8_of (units_in image.now t)))) × (result ≤ 4 * t.count) }
{
    let mut n = 0;
    let mut i = 0;
    while let Some(point) = next_point(image, t, i) {
        n += po_text::point_length(point.value);
        i = point.next;
    }
    n
}

// A text, stored from `at` on as a file has it.
pub fn put_units(out: &mut [u8], at: usize, image: &[u8], t: Text) -> usize
    requires inside { Inside image.now t × (is_utf16 (units_in image.now t) ≡ true) }
    requires t_in_bounds { at + length (escaped (utf8_of (units_in image.now t))) ≤ length out.old }
    ensures { Wrote out.old at (escaped (utf8_of (units_in image.now t))) result out.new }
{
    let mut to = at;
    let mut i = 0;
    while let Some(point) = next_point(image, t, i) {
        to = po_text::put_point(out, to, point.value);
        i = point.next;
    }
    to
}
