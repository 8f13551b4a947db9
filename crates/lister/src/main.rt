// The lister: a recorded stretch of 9P2000.L frames on standard input, a line for each frame on standard output.

#![tactic(auto)]

use listing::input;

// No contract can say what is printed: none speaks of what C's `write` does. A program has no status either, so the script `run` makes one
// of what is said on standard error.
fn main(rt: HostRuntime) {
    // One byte more than may be listed, so that longer input is seen to be longer.
    let mut buf = [0u8; 65537];
    let Some(len) = input::read(&mut rt.stdin(), &mut buf) else {
        io::write_all(2, b"cannot read standard input\n");
        return;
    };
    let mut out = [0u8; listing::ROOM];
    let n = listing::report(&mut out, &buf[..len]);
    // The whole text leaves by one write.
    if !io::write_all(1, &out[..n]) {
        io::write_all(2, b"cannot write standard output\n");
    }
}
