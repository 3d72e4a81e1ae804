// Answers a stream of calls that ask why a patch rebuilds: the calls come in on standard input, the
// answers go out on standard output, in the frames of crate `test_frames`.
#![tactic(auto)]

mod calls;

// The longest value and image that a call may have together, and the longest index, in bytes.
const LONGEST: usize = 258048;

const INDEX: usize = 4096;

fn main(rt: HostRuntime) {
    let mut inputs = [0u8; LONGEST];
    let mut index = [0u8; INDEX];
    test_frames::answer_calls(
        &mut rt.stdin(),
        &mut rt.stdout(),
        &mut inputs,
        &mut index,
        calls::inputs_length,
        |head, inputs, index| calls::answer_call(head, inputs, index),
    );
}
