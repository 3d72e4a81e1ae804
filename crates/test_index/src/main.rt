// Answers a stream of calls of the index and of the listing: the calls come in on standard input, the
// answers go out on standard output, in the frames of crate `test_frames`.
#![tactic(auto)]

mod calls;

// The longest image and index that a call may have together, and the longest output.
const LONGEST: usize = 69632;

const OUTPUT: usize = 28672;

fn main(rt: HostRuntime) {
    let mut inputs = [0u8; LONGEST];
    let mut out = [0u8; OUTPUT];
    test_frames::answer_calls(
        &mut rt.stdin(),
        &mut rt.stdout(),
        &mut inputs,
        &mut out,
        calls::inputs_length,
        calls::answer_call,
    );
}
