// Answers a stream of calls of the functions of crate header_write: the calls come in on standard
// input, the answers go out on standard output, in the frames of crate `test_frames`.
#![tactic(auto)]

mod calls;

// The longest buffer that a call may have.
const LONGEST: usize = 256;

fn main(rt: HostRuntime) {
    let mut room = [0u8; LONGEST];
    test_frames::answer_calls(
        &mut rt.stdin(),
        &mut rt.stdout(),
        &mut room,
        &mut [],
        test_frames::buffer_length,
        |head, buffer, _| calls::answer_call(head, buffer),
    );
}
