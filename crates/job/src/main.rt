// Patches an image. An `IM` record comes in on standard input: the mark, a layout byte, the length in 4
// bytes, the image; then any number of `ST` and `FB` records: the mark, an id in 4 bytes, a length in
// 2, the new string or body. The last image, or `refused K N`, goes out on standard output.
#![tactic(auto)]

fn main(rt: HostRuntime) {
    let mut input = rt.stdin();
    let mut output = rt.stdout();
    let mut errors = rt.stderr();
    job_io::run(&mut input, &mut output, &mut errors, u64::MAX);
}
