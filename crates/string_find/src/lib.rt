// The lowest string that has the UTF-16 units of a value, and the hash of a string's units. No string is
// decoded into a buffer: counts are compared first, then unit by unit.
#![tactic(auto)]

ghost use Rattle.std.specs.Prelude.{◌≡◌, ◌+◌, ◌*◌, ◌≤◌, ◌<◌, length};
ghost use Rattle.refusals.specs.Numbers as refusals;
ghost use Rattle.format.specs.Hash.{hash_of};
ghost use Rattle.footer.specs.Footer.{same};
ghost use Rattle.image.specs.Strings.{unit_size, units_of, string_of};
ghost use Rattle.utf.specs.Utf8.{utf16, list_of};
ghost use Rattle.sections.specs.Places.{Placed, Laid};
ghost use Rattle.string_walk.specs.Places.{Stands, Locates};
ghost use Rattle.string_find.specs.Find.{units_at, find_id};

use refusals::Refusal;
use sections::Places;
use string_walk::{Location, StringRecord};
use utf::Units;

// Whether the units from unit `j` on are these, of a string whose bytes start at `start`.
fn are_next(image: &[u8], start: usize, wide: bool, j: usize, units: Units) -> bool
    requires { start + (j + length (list_of units)) * unit_size wide ≤ length image.now }
    ensures { result ≡ same (units_at image.now start wide j (length (list_of units))) (list_of units) }
{
    match units {
        Units::None => true,
        Units::One(u) => string_walk::unit_at(image, start, wide, j) == u as u64,
        Units::Two(u, v) => {
            string_walk::unit_at(image, start, wide, j) == u as u64
                && string_walk::unit_at(image, start, wide, j + 1) == v as u64
        }
    }
}

// Whether the units of a string whose bytes start at `start` begin with those of the value.
fn are_units(image: &[u8], start: usize, wide: bool, value: &[u8]) -> bool
    requires { start + length (utf16 value.now) * unit_size wide ≤ length image.now }
    ensures { result ≡ same (units_at image.now start wide 0 (length (utf16 value.now)))
        (utf16 value.now) }
{
    let mut j = 0;
    let mut r = utf::further(0, 0);
    for byte in value {
        r = utf::next_byte(r, *byte);
        let units = utf::completed(r);
        if !are_next(image, start, wide, j, units) {
            return false;
        }
        j += utf::count_of(units);
    }
    true
}

// The hash of the `count` units of a string whose bytes start at `start`.
pub fn hash_units(image: &[u8], start: usize, wide: bool, count: usize) -> u32
    requires { start + count * unit_size wide ≤ length image.now }
    ensures { result ≡ hash_of (units_at image.now start wide 0 count) }
{
    let mut h: u32 = 0;
    for i in 0..count {
        h = utf::hash_step(h, string_walk::unit_at(image, start, wide, i) as u32);
    }
    h
}

// Whether string `i` has the units of the value, which are `count`.
pub fn has_units(
    image: &[u8],
    p: Places,
    i: usize,
    string: StringRecord,
    value: &[u8],
    count: usize,
) -> bool
    requires placed { Placed p image.now × Stands p image.now i string }
    requires count_value { count ≡ length (utf16 value.now) }
    ensures { result ≡ same (units_of (string_of p.layout image.now i)) (utf16 value.now) }
{
    string.place.count == count && are_units(image, string.start, string.place.wide, value)
}

// The lowest string that has the units of `old`; 14 where there is none: one pass.
pub fn find(image: &[u8], p: Places, old: &[u8]) -> Result<Location, Refusal>
    requires { Laid p image.now }
    ensures { Locates p image.now (find_id p.layout image.now (utf16 old.now)) refusals.absent
        result }
{
    let count = utf::count_units(old);
    let mut c = string_walk::first_string();
    for id in 0..p.strings {
        let step = string_walk::string_at(image, p, c);
        let string = step.string;
        if has_units(image, p, id, string, old, count) {
            return Ok(Location {
                id,
                string,
                counts: string_walk::counts_of(step.next),
            });
        }
        c = step.next;
    }
    Err(refusals::ABSENT)
}
