// The index on the command line: six fields to a line in, an answer to each out.
#![tactic(auto)]

fn main(rt: HostRuntime) {
    let mut image = [0u8; 11764];
    let mut space = [0u8; 5760];
    index::format(&mut image, 90, 64, 0, 4294967295).unwrap();
    serve::serve(&mut image, &mut space, &mut rt.stdin(), &mut rt.stdout());
}
