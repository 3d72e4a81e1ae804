// Large headers against each other and against bodies: the part of refusal 6 that compares functions.
// Functions that lie as compilers lay them out are judged in one pass over them; where they lie
// otherwise, each large header is compared with every function.
#![tactic(auto)]

ghost use Rattle.std.specs.Prelude.{◌≡◌, not, ◌+◌, ◌≤◌, ◌<◌, eqb};
ghost use Rattle.format.specs.Table.{large_row, legacy_large};
ghost use Rattle.image.specs.Sections.{functions_in};
ghost use Rattle.image.specs.Admission.{apart};
ghost use Rattle.function_table.specs.Functions.{as_func, WordSized, Readable};
ghost use Rattle.large_headers.specs.Order.{end_with, first_with, bodies_with, ascends, in_order};
ghost use Rattle.large_headers.specs.Clear.{clear_of_header, clear_of_body, clear_of, header_clear, all_apart};

use format::Layout;
use function_table::Function;

// The size of a large header's words.
fn large_width(layout: Layout) -> usize
    ensures { (result ≡ (large_row layout).width) × (result ≤ legacy_large.width) }
{
    format::large_row(layout).width
}

// ---- in one pass

// Where the last large header ends, with one function more.
fn end_with(f: Function, end: usize, width: usize) -> usize
    requires { WordSized f × (width ≤ legacy_large.width) }
    ensures { result ≡ end_with width end (as_func f) }
{
    if f.large { f.ptr + width } else { end }
}

// Where the first large header starts, with one function more.
fn first_with(f: Function, first: usize) -> usize
    ensures { result ≡ first_with first (as_func f) }
{
    if f.large && f.ptr < first {
        f.ptr
    } else {
        first
    }
}

// Where the last body ends that is not empty, with one function more.
fn bodies_with(f: Function, end: usize) -> usize
    requires { WordSized f }
    ensures { result ≡ bodies_with end (as_func f) }
{
    let own = f.begin + f.size;
    if f.size > 0 && end < own { own } else { end }
}

// Whether a function's large header, if it has one, is behind those that end at `end`.
fn is_behind(f: Function, end: usize) -> bool
    ensures { result ≡ ascends end (as_func f) }
{
    !f.large || end <= f.ptr
}

// Whether the functions lie in order: each large header behind the one before it, and every body
// that is not empty before the first of them.
fn in_order(image: &[u8], layout: Layout, n: usize) -> bool
    requires readable { Readable layout image.now }
    requires n_value { n ≡ functions_in image.now }
    ensures { result ≡ in_order layout image.now }
{
    let width = large_width(layout);
    let mut end = 0;
    let mut first = footer::SIZE_LIMIT;
    let mut bodies = 0;
    for i in 0..n {
        let f = function_table::function_at(image, layout, i);
        if !is_behind(f, end) {
            return false;
        }
        end = end_with(f, end, width);
        first = first_with(f, first);
        bodies = bodies_with(f, bodies);
    }
    bodies <= first
}

// ---- one large header against every function

// Whether `w` bytes from `p` and `v` bytes from `q` share none.
fn are_apart(p: usize, w: usize, q: usize, v: usize) -> bool
    requires { (p + w < 8589934592) × (q + v < 8589934592) }
    ensures { result ≡ apart p w q v }
{
    q + v <= p || p + w <= q
}

// Whether the header of `g` shares no byte with that of `f`, if `f` is another function and has one.
fn is_clear_of_header(g: Function, f: Function, width: usize, other: bool) -> bool
    requires { WordSized g × WordSized f × (width ≤ legacy_large.width) }
    ensures { result ≡ clear_of_header width other (as_func g) (as_func f) }
{
    !other || !f.large || are_apart(f.ptr, width, g.ptr, width)
}

// Whether the header of `g` shares no byte with the body of `f`, which may be the same function.
fn is_clear_of_body(g: Function, f: Function, width: usize) -> bool
    requires { WordSized g × WordSized f × (width ≤ legacy_large.width) }
    ensures { result ≡ clear_of_body width (as_func g) (as_func f) }
{
    f.size == 0 || are_apart(g.ptr, width, f.begin, f.size)
}

fn is_clear_of(g: Function, f: Function, width: usize, other: bool) -> bool
    requires { WordSized g × WordSized f × (width ≤ legacy_large.width) }
    ensures { result ≡ clear_of width other (as_func g) (as_func f) }
{
    is_clear_of_header(g, f, width, other) && is_clear_of_body(g, f, width)
}

// Whether the large header of function `j`, if it has one, is clear of every function.
fn is_header_clear(image: &[u8], layout: Layout, n: usize, j: usize) -> bool
    requires readable { Readable layout image.now }
    requires n_value { (n ≡ functions_in image.now) × (j < n) }
    ensures { result ≡ header_clear layout image.now j }
{
    let g = function_table::function_at(image, layout, j);
    if !g.large {
        return true;
    }
    let width = large_width(layout);
    for i in 0..n {
        let f = function_table::function_at(image, layout, i);
        if !is_clear_of(g, f, width, i != j) {
            return false;
        }
    }
    true
}

// Whether every large header is clear of every function.
fn are_headers_clear(image: &[u8], layout: Layout, n: usize) -> bool
    requires readable { Readable layout image.now }
    requires n_value { n ≡ functions_in image.now }
    ensures { result ≡ all_apart layout image.now }
{
    for j in 0..n {
        if !is_header_clear(image, layout, n, j) {
            return false;
        }
    }
    true
}

// Whether no large header of an image of `n` functions shares a byte with another or with a body.
pub fn are_headers_apart(image: &[u8], layout: Layout, n: usize) -> bool
    requires readable { Readable layout image.now }
    requires n_value { n ≡ functions_in image.now }
    ensures { result ≡ all_apart layout image.now }
{
    in_order(image, layout, n) || are_headers_clear(image, layout, n)
}
