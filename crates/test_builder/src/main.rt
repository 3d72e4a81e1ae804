// Answers a stream of calls of the functions of crates footer and serialize: the calls come in on standard
// input, the answers go out on standard output, in the frames of crate `test_frames`.
#![tactic(auto)]

mod calls;

fn main(rt: HostRuntime) {
    let mut room = [0u8; calls::LONGEST];
    test_frames::answer_calls(
        &mut rt.stdin(),
        &mut rt.stdout(),
        &mut room,
        &mut [],
        test_frames::buffer_length,
        |head, buffer, _| calls::answer_call(head, buffer),
    );
}
