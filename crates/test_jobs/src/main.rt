// Many runs of the job program in one: each job that comes in on standard input is answered on standard
// output as program `job` answers it, one after the other.
//
// A job is written as its length in 4 bytes, lowest first, and its bytes. The program stops at the end
// of the input and at a job that is cut short.
#![tactic(auto)]

use std::io::{Read, Write};

// Passes over what a job did not read, and answers whether it is all there.
fn skip<I: Read>(input: &mut I, count: u64) -> bool {
    let mut scrap = [0u8; 4096];
    for _ in 0..count / 4096 {
        if input.read_exact(&mut scrap).is_err() {
            return false;
        }
    }
    let n = (count % 4096) as usize;
    input.read_exact(&mut scrap[0..n]).is_ok()
}

// Runs the next job. Answers whether there can be more.
fn run_next<I: Read, O: Write, E: Write>(input: &mut I, output: &mut O, errors: &mut E) -> bool {
    let mut head = [0u8; 4];
    if input.read_exact(&mut head).is_err() {
        return false;
    }
    let unread = job_io::run(input, output, errors, bits::word(&head, 0));
    skip(input, unread)
}

// A proved loop has to end, and nothing says that the stream does. So its turns have a bound that no
// run uses up.
fn main(rt: HostRuntime) {
    let mut input = rt.stdin();
    let mut output = rt.stdout();
    let mut errors = rt.stderr();
    for _ in 0..u64::MAX {
        if !run_next(&mut input, &mut output, &mut errors) {
            break;
        }
    }
}
