// The frames of a stream of calls, through which our functions are held to the Rust's: a call comes
// in on standard input, its answer goes out on standard output. oracle/README.md describes them.
//
// A frame is read into arrays that the program lends, one frame at a time, so that memory does not
// grow with the stream and each program decides how long a buffer it takes.
#![tactic(auto)]

ghost use Rattle.std.specs.Prelude.{◌≡◌, ◌+◌, ◌*◌, ◌<◌, ◌≤◌, length};

use format::{Layout, Mode};
use refusals::Refusal;
use std::io::{Read, Write};

// The bytes of a call before its buffer: its number, the buffer's length, 32 argument words.
pub const HEAD: usize = 136;

// Where the argument words start.
const ARGUMENTS: usize = 8;

// How many result words an answer has, and the bytes of an answer before its buffer.
const RESULTS: usize = 10;

const ANSWER: usize = 44;

// The most words that a list within a buffer may have.
pub const LIST: usize = 1024;

// The result words of a call. Those that it does not give are 0.
pub type Results = [u32; RESULTS];

// A call's results, or why it is refused. The buffer as the call left it goes out behind.
pub type Answer = Result<Results, Refusal>;

pub fn number(head: &[u8; HEAD]) -> u64 {
    bits::word(head, 0)
}

pub fn buffer_length(head: &[u8; HEAD]) -> usize {
    bits::word(head, 4) as usize
}

// Argument `i`, as it stands.
pub fn word(head: &[u8; HEAD], i: usize) -> u32
    requires { i < 32 }
{
    bits::word(head, ARGUMENTS + 4 * i) as u32
}

// Argument `i` as a byte: the low 8 bits.
pub fn byte(head: &[u8; HEAD], i: usize) -> u8
    requires { i < 32 }
{
    (word(head, i) % 256) as u8
}

// Argument `i` as a yes or no.
pub fn flag(head: &[u8; HEAD], i: usize) -> bool
    requires { i < 32 }
{
    word(head, i) != 0
}

// Argument `i` as a mode: 0 plain, 1 even.
pub fn mode(head: &[u8; HEAD], i: usize) -> Mode
    requires { i < 32 }
{
    match word(head, i) {
        0 => Mode::Plain,
        _ => Mode::Even,
    }
}

// Argument `i` as a layout, by the byte that document 01 gives it.
pub fn layout(head: &[u8; HEAD], i: usize) -> Option<Layout>
    requires { i < 32 }
{
    let b = byte(head, i);
    if b > 4 {
        return None;
    }
    Some(input_records::layout_of(b))
}

// Argument `i` as a signed number of these 32 bits. One with the top bit set is the complement of a
// number without it.
pub fn signed(head: &[u8; HEAD], i: usize) -> i32
    requires { i < 32 }
{
    let x = word(head, i);
    if x < 2147483648 {
        x as i32
    } else {
        !(!x as i32)
    }
}

// Arguments `i` and `i + 1` as one number, the low half first.
pub fn long(head: &[u8; HEAD], i: usize) -> u64
    requires { i < 31 }
{
    bits::word64(head, ARGUMENTS + 4 * i)
}

// Arguments `i` to `i + 4` as the 20 bytes of a hash.
pub fn hash(head: &[u8; HEAD], i: usize) -> [u8; 20]
    requires { i < 28 }
{
    let at = ARGUMENTS + 4 * i;
    let mut hash = [0u8; 20];
    hash.copy_from_slice(&head[at..at + 20]);
    hash
}

// The `count` words of a buffer from `at` on, and zeros.
pub fn list(bytes: &[u8], at: usize, count: usize) -> [u32; LIST]
    requires { (at + count * 4 ≤ length bytes.now) × (count ≤ 1024) }
    ensures { 1024 ≡ length result }
{
    let mut words = [0u32; LIST];
    for i in 0..count {
        words[i] = bits::word(bytes, at + i * 4) as u32;
    }
    words
}

// The other way: the first `count` words of a list, in a buffer from `at` on.
pub fn put_list(bytes: &mut [u8], at: usize, words: &[u32; LIST], count: usize)
    requires { (at + count * 4 ≤ length bytes.old) × (count ≤ 1024) }
{
    for i in 0..count {
        bits::put_word(bytes, at + i * 4, words[i] as u64);
    }
}

// The results of a call that gives these.
pub fn results<const N: usize>(given: [u32; N]) -> Results
    requires { N ≤ 10 }
{
    let mut words = [0; RESULTS];
    words[0..N].copy_from_slice(&given);
    words
}

// A length as a result word. None that a call gives is so long that it would be cut.
pub fn cut(n: usize) -> u32 {
    (n % 4294967296) as u32
}

// The results of an answer, behind its status.
fn put_results(frame: &mut [u8], results: Results)
    requires { 44 ≤ length frame.old }
{
    for i in 0..RESULTS {
        bits::put_word(frame, 4 + 4 * i, results[i] as u64);
    }
}

// An answer as its bytes before the buffer. The status is 0 for done, or a refusal's number.
fn frame_of(answer: Answer) -> [u8; ANSWER] {
    let mut frame = [0u8; ANSWER];
    match answer {
        Ok(results) => put_results(&mut frame, results),
        Err(refusal) => frame[0] = refusal.number(),
    }
    frame
}

// Reads one call and answers it. `None` where the stream ends: where no whole call is left, at a call
// that is not known or whose buffer is too long, and where a write fails.
fn answer_next<
    I: Read,
    O: Write,
    L: Fn(&[u8; HEAD]) -> usize,
    A: Fn(&[u8; HEAD], &mut [u8], &mut [u8]) -> Option<Answer>,
>(
    input: &mut I,
    output: &mut O,
    inputs_room: &mut [u8],
    out_room: &mut [u8],
    inputs_length: L,
    answer_call: A,
) -> Option<()>
    requires length_callable { L.IsAlwaysCallable inputs_length }
    requires answer_callable { A.IsAlwaysCallable answer_call }
{
    let mut head = [0u8; HEAD];
    input.read_exact(&mut head).ok()?;
    let given = inputs_length(&head);
    let rest = buffer_length(&head).checked_sub(given)?;
    if given > inputs_room.len() || rest > out_room.len() {
        return None;
    }
    // Of a part with a start, the check finds the length by itself.
    let inputs = &mut inputs_room[0..given];
    let out = &mut out_room[0..rest];
    input.read_exact(inputs).ok()?;
    input.read_exact(out).ok()?;
    let answer = answer_call(&head, inputs, out)?;
    output.write_all(&frame_of(answer)).ok()?;
    output.write_all(inputs).ok()?;
    output.write_all(out).ok()
}

// Answers a stream of calls. A call's buffer has two parts, each in its room: first inputs, as long as
// `inputs_length` tells, and then an output. Where a call has no output, its room has no byte, and the
// inputs are as long as the buffer. `answer_call` gives `None` where no call has that number: it gets no
// answer, and the stream ends there.
//
// A proved loop has to end, and nothing says that the stream does. So its turns have a bound that no run
// uses up.
pub fn answer_calls<
    I: Read,
    O: Write,
    L: Fn(&[u8; HEAD]) -> usize,
    A: Fn(&[u8; HEAD], &mut [u8], &mut [u8]) -> Option<Answer>,
>(
    input: &mut I,
    output: &mut O,
    inputs_room: &mut [u8],
    out_room: &mut [u8],
    inputs_length: L,
    answer_call: A,
)
    requires length_callable { L.IsAlwaysCallable inputs_length }
    requires answer_callable { A.IsAlwaysCallable answer_call }
{
    for _ in 0..u64::MAX {
        let next = answer_next(
            input,
            output,
            inputs_room,
            out_room,
            &inputs_length,
            &answer_call,
        );
        if next.is_none() {
            break;
        }
    }
}
