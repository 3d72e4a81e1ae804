// Runs a job from its input to its output, a record at a time, so that memory does not grow
// with their number: a head, what it states, the image that is held, the room for the next one. What
// the records mean and what is written is decided by crate `job_records`.
//
// A job is given as many bytes of the input as it may read. Each turn reads one at least, which is
// why a run ends. An input that cannot be read is not taken for one that ends: nothing is written
// then, and the errors have a line, as they have where the output cannot be written.
#![tactic(auto)]

ghost use Rattle.std.specs.Prelude.{◌≤◌, length};

use job_records::Progress;
use std::io::{Read, Write};

// The longest image, and the room for the next one.
const ROOM: usize = 65536;

// How far the job has come, how many bytes it may still read, and whether a read of this turn was short.
#[derive(Clone, Copy)]
struct ReadSoFar {
    progress: Progress,
    left: u64,
    short: bool,
}

// What a read gave: so many bytes, and whether they are fewer than it was asked for. The input ends
// there then, or it cannot be read.
#[derive(Clone, Copy)]
struct Got {
    count: usize,
    short: bool,
}

fn at_most(n: usize, left: u64) -> usize
    ensures { (result ≤ n) × (result ≤ left) }
{
    if left < n as u64 { left as usize } else { n }
}

// Fills `bytes` as far as the input and what is left of it go, and answers how far.
fn read<I: Read>(input: &mut I, bytes: &mut [u8], left: u64) -> Got
    ensures { (result.count ≤ left) × (result.count ≤ length bytes.old) }
{
    let most = at_most(bytes.len(), left);
    let count = whole_reads::read_full(input, &mut bytes[0..most]);
    Got {
        count,
        short: count < most,
    }
}

// Whether the input ends here: behind a read that was short, one more tells an end from a failure.
fn is_at_end<I: Read>(input: &mut I) -> bool {
    let mut byte = [0u8; 1];
    matches!(input.read(&mut byte), Ok(0))
}

// Reads the image record.
fn begin<I: Read>(input: &mut I, image: &mut [u8], left: u64) -> ReadSoFar
    requires { 65536 ≤ length image.old }
    ensures { result.left ≤ left }
{
    let mut head = [0u8; input_records::IMAGE_HEAD];
    let front = read(input, &mut head, left);
    let n = front.count;
    let stated = job_records::stated_image(&head[0..n]);
    let behind = left - n as u64;
    let rest = read(input, &mut image[0..stated], behind);
    let got = rest.count;
    let progress = job_records::begin(&head[0..n], &image[0..got]);
    ReadSoFar {
        progress,
        left: behind - got as u64,
        short: front.short || rest.short,
    }
}

// Reads what the head of a patch record states behind it, and takes the record.
fn take<I: Read>(
    input: &mut I,
    progress: Progress,
    left: u64,
    head: &[u8],
    content: &mut [u8],
    image: &mut [u8],
    out: &mut [u8],
) -> ReadSoFar
    requires in_bounds { 65535 ≤ length content.old }
    requires out_in_bounds { length out.old ≤ length image.old }
    ensures { result.left ≤ left }
{
    let stated = job_records::stated_patch(head);
    let rest = read(input, &mut content[0..stated], left);
    let got = rest.count;
    let next = job_records::step(progress, head, &content[0..got], image, out);
    ReadSoFar {
        progress: next,
        left: left - got as u64,
        short: rest.short,
    }
}

// Writes what a job makes.
fn write<O: Write, E: Write>(output: &mut O, errors: &mut E, bytes: &[u8]) {
    if output.write_all(bytes).is_err() {
        let _ = errors.write_all(b"standard output cannot be written\n");
    }
}

// Runs one job on at most `most` bytes of the input. Answers how many of them it did not read.
pub fn run<I: Read, O: Write, E: Write>(
    input: &mut I,
    output: &mut O,
    errors: &mut E,
    most: u64,
) -> u64 {
    let mut image = [0u8; ROOM];
    let mut out = [0u8; ROOM];
    let mut content = [0u8; job_records::CONTENT_MOST];
    let mut head = [0u8; input_records::PATCH_HEAD];
    let begun = begin(input, &mut image, most);
    let mut progress = begun.progress;
    let mut left = begun.left;
    let mut short = begun.short;
    // Stays a while loop: it reads to the end of the input, and no index is counted.
    while !job_records::is_refused(progress) {
        let front = read(input, &mut head, left);
        let n = front.count;
        if n == 0 {
            short = front.short;
            break;
        }
        let turn = take(
            input,
            progress,
            left - n as u64,
            &head[0..n],
            &mut content,
            &mut image,
            &mut out,
        );
        progress = turn.progress;
        left = turn.left;
        short = front.short || turn.short;
    }
    if short && !is_at_end(input) {
        let _ = errors.write_all(b"standard input cannot be read\n");
        return left;
    }
    let end = job_records::finish(progress, &mut image);
    write(output, errors, &image[0..end]);
    left
}
