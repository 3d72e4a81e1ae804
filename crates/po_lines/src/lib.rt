// The lines of a translators' file: where each ends, what it is, and its quoted text without the
// escapes.
#![tactic(auto)]

ghost use Rattle.std.specs.Prelude.{◌≡◌, ◌+◌, ◌≤◌, ◌<◌, length};
ghost use Rattle.po_lines.specs.Lines.{is_ended};
ghost use Rattle.po_lines.specs.Quoted.{is_escape, meant, quote_next, is_closed, Stepped, PutTextAs};
ghost use Rattle.po_lines.specs.Kinds.{mark_of, is_quoted, is_outside, begins, marked_as, behind_mark, PutLineAs};
ghost use Rattle.po_lines.specs.Taken.{FirstLow, IsLine, EndsAt, TakenAs};

// What a line is.
#[derive(Clone, Copy)]
pub enum Kind {
    Blank,
    Msgid,
    Msgstr,
    More,
    Outside,
}

// Where quoted text stands.
#[derive(Clone, Copy)]
pub enum Quote {
    Open,
    Escape,
    Closed,
    Wrong,
}

// ---- Quoted text.

const QUOTE_MARK: u8 = 34;

const BACKSLASH: u8 = 92;

// Whether a byte may stand behind a backslash.
fn is_escape(b: u8) -> bool
    ensures { result ≡ is_escape b }
{
    matches!(b, b'n' | b't' | QUOTE_MARK | BACKSLASH)
}

// Where quoted text stands behind an escape.
fn after_escape(b: u8) -> Quote
    ensures { result ≡ quote_next Quote.Escape b }
{
    if is_escape(b) {
        Quote::Open
    } else {
        Quote::Wrong
    }
}

// The byte that an escape stands for.
fn meant(b: u8) -> u8
    ensures { result ≡ meant b }
{
    match b {
        b'n' => b'\n',
        b't' => b'\t',
        other => other,
    }
}

// Whether the closing quote was the last byte.
fn is_closed(quote: Quote) -> bool
    ensures { result ≡ is_closed quote }
{
    matches!(quote, Quote::Closed)
}

// After one byte of quoted text: the place behind what is stored of its value, and where the text
// stands.
#[derive(Clone, Copy)]
pub struct Step {
    pub to: usize,
    pub quote: Quote,
}

// One byte of quoted text, and the byte of the value that it gives, if any, stored at `at`. Both in
// one function, since a match on where the text stands is most of the work.
fn take_byte(out: &mut [u8], at: usize, quote: Quote, b: u8) -> Step
    requires { at < length out.old }
    ensures { Stepped out.old at quote b result out.new }
{
    match quote {
        Quote::Open => {
            if b == QUOTE_MARK {
                return Step {
                    to: at,
                    quote: Quote::Closed,
                };
            }
            if b == BACKSLASH {
                return Step {
                    to: at,
                    quote: Quote::Escape,
                };
            }
            out[at] = b;
            Step {
                to: at + 1,
                quote: Quote::Open,
            }
        }
        Quote::Escape => {
            out[at] = meant(b);
            Step {
                to: at + 1,
                quote: after_escape(b),
            }
        }
        Quote::Closed => Step {
            to: at,
            quote: Quote::Wrong,
        },
        Quote::Wrong => Step {
            to: at,
            quote: Quote::Wrong,
        },
    }
}

// The value of quoted text from behind its opening quote on, stored from `at` on: the place behind it,
// if the text is closed at the end.
fn put_unescaped(out: &mut [u8], at: usize, text: &[u8]) -> Option<usize>
    requires { at + length text.now ≤ length out.old }
    ensures { PutTextAs out.old at text.now result out.new }
{
    let mut to = at;
    let mut quote = Quote::Open;
    for b in text {
        let step = take_byte(out, to, quote, *b);
        to = step.to;
        quote = step.quote;
    }
    if is_closed(quote) { Some(to) } else { None }
}

// ---- The kind of a line.

// Whether a line begins with some bytes.
fn begins(line: &[u8], mark: &[u8]) -> bool
    ensures { result ≡ begins mark.now line.now }
{
    line.starts_with(mark)
}

// The kind of a line by how it begins.
fn marked_as(line: &[u8]) -> Kind
    ensures { result ≡ marked_as line.now }
{
    if line.is_empty() || begins(line, b"#") {
        return Kind::Blank;
    }
    if begins(line, b"msgid \"") {
        return Kind::Msgid;
    }
    if begins(line, b"msgstr \"") {
        return Kind::Msgstr;
    }
    if begins(line, b"\"") {
        return Kind::More;
    }
    Kind::Outside
}

// How many bytes stand before the quoted text of a line, its opening quote with them.
fn mark_len(kind: Kind) -> usize
    ensures { result ≡ length (mark_of kind) }
{
    match kind {
        Kind::Blank | Kind::Outside => 0,
        Kind::Msgid => 7,
        Kind::Msgstr => 8,
        Kind::More => 1,
    }
}

fn is_quoted(kind: Kind) -> bool
    ensures { result ≡ is_quoted kind }
{
    matches!(kind, Kind::Msgid | Kind::Msgstr | Kind::More)
}

fn is_outside(kind: Kind) -> bool
    ensures { result ≡ is_outside kind }
{
    matches!(kind, Kind::Outside)
}

// What stands behind the opening quote of a line of a kind.
fn quoted(line: &[u8], kind: Kind) -> &[u8]
    ensures { result.now ≡ behind_mark kind line.now }
{
    let from = bits::least(mark_len(kind), line.len());
    &line[from..]
}

// The value of a line of a kind, stored from `at` on: the place behind it, if its text, where it has
// any, is closed at the end.
fn put_line(out: &mut [u8], at: usize, line: &[u8], kind: Kind) -> Option<usize>
    requires { at + length line.now ≤ length out.old }
    ensures { PutLineAs out.old at line.now kind result out.new }
{
    if !is_quoted(kind) {
        return Some(at);
    }
    put_unescaped(out, at, quoted(line, kind))
}

// ---- Lines.

// Whether the last line ends with a line feed too.
pub fn is_ended(file: &[u8]) -> bool
    ensures { result ≡ is_ended file.now }
{
    file.is_empty() || file[file.len() - 1] == b'\n'
}

// The first place from `at` on with a byte below 32: in the subset a line feed.
fn first_low(file: &[u8], at: usize) -> usize
    requires { at ≤ length file.now }
    ensures { FirstLow file.now at result }
{
    for i in at..file.len() {
        if file[i] < 32 {
            return i;
        }
    }
    file.len()
}

// The end of the line that starts at `at`: the place of its line feed. None where another byte below
// 32 stands in it, or no line feed behind it.
fn line_end(file: &[u8], at: usize) -> Option<usize>
    requires { at < length file.now }
    ensures { EndsAt file.now at result }
{
    let end = first_low(file, at);
    if file.len() <= end || file[end] != b'\n' {
        return None;
    }
    Some(end)
}

// A line that was read: what it is, the place behind its stored value, and that of the next line.
#[derive(Clone, Copy)]
pub struct Took {
    pub kind: Kind,
    pub to: usize,
    pub next: usize,
}

// The line from `at` up to its line feed at `end`, its value stored from `to` on. None where it is
// outside the subset.
fn take_ended(out: &mut [u8], to: usize, file: &[u8], at: usize, end: usize) -> Option<Took>
    requires { IsLine file.now at end × (to + length file.now ≤ at + length out.old) }
    ensures { TakenAs file.now at out.old to result out.new }
{
    let kind = marked_as(&file[at..end]);
    if is_outside(kind) {
        return None;
    }
    let behind = put_line(out, to, &file[at..end], kind)?;
    Some(Took {
        kind,
        to: behind,
        next: end + 1,
    })
}

// The line that starts at `at`, its value stored from `to` on. None where it is outside the subset.
pub fn take_line(out: &mut [u8], to: usize, file: &[u8], at: usize) -> Option<Took>
    requires { (at < length file.now) × (to + length file.now ≤ at + length out.old) }
    ensures { TakenAs file.now at out.old to result out.new }
{
    let end = line_end(file, at)?;
    take_ended(out, to, file, at, end)
}
