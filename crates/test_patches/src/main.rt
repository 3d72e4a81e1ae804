// Answers a stream of calls of the patches: the calls come in on standard input, the answers go out on
// standard output, in the frames of crate `test_frames`.
#![tactic(auto)]

mod calls;

// The longest inputs that a call may have, and the longest output.
const LONGEST: usize = 131072;

fn main(rt: HostRuntime) {
    let mut inputs = [0u8; LONGEST];
    let mut out = [0u8; LONGEST];
    test_frames::answer_calls(
        &mut rt.stdin(),
        &mut rt.stdout(),
        &mut inputs,
        &mut out,
        calls::inputs_length,
        |head, inputs, out| calls::answer_call(head, inputs, out),
    );
}
