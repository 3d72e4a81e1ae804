// Whether a string shares storage with another: then its bytes are not its own to change.
#![tactic(auto)]

ghost use Rattle.std.specs.Prelude.{◌≡◌, not, eqb};
ghost use Rattle.bits.specs.Choice.{implies};
ghost use Rattle.sections.specs.Places.{Laid};
ghost use Rattle.string_tables.specs.Strings.{as_place};
ghost use Rattle.string_walk.specs.Places.{Stands};
ghost use Rattle.string_overlap.specs.Overlap.{Low, overlap, is_alone, are_in_row};

use sections::Places;
use string_tables::Place;
use string_walk::StringRecord;

// Whether two strings overlap. An empty one overlaps what it stands within.
fn do_overlap(a: Place, b: Place) -> bool
    requires { Low a × Low b }
    ensures { result ≡ overlap (as_place a) (as_place b) }
{
    a.at < b.at + string_tables::size_of(b) && b.at < a.at + string_tables::size_of(a)
}

// Whether string `i`, at `other`, is string `id`, or does not overlap it, which stands at `own`.
pub fn is_apart(i: usize, id: usize, own: Place, other: Place) -> bool
    requires { Low own × Low other }
    ensures { result ≡ implies (not (eqb i id)) (not (overlap (as_place own) (as_place other))) }
{
    i == id || !do_overlap(own, other)
}

// Whether no other entry overlaps that of `id`, whose record is `own`: one pass, every entry counts, wide
// and empty ones too.
pub fn is_alone(image: &[u8], p: Places, id: usize, own: StringRecord) -> bool
    requires laid { Laid p image.now }
    requires stands { Stands p image.now id own }
    ensures { result ≡ is_alone p.layout image.now id }
{
    let mut c = string_walk::first_string();
    for i in 0..p.strings {
        let step = string_walk::string_at(image, p, c);
        let other = step.string;
        if !is_apart(i, id, own.place, other.place) {
            return false;
        }
        c = step.next;
    }
    true
}

// Whether each string starts where the one before it ends, or behind that: then none overlaps another,
// which one pass tells of all of them.
pub fn are_in_row(image: &[u8], p: Places) -> bool
    requires { Laid p image.now }
    ensures { result ≡ are_in_row p.layout image.now }
{
    let mut end = 0;
    let mut c = string_walk::first_string();
    for _id in 0..p.strings {
        let step = string_walk::string_at(image, p, c);
        let place = step.string.place;
        if place.at < end {
            return false;
        }
        end = place.at + string_tables::size_of(place);
        c = step.next;
    }
    true
}
