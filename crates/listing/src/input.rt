// A reader's bytes into a buffer. What is read no contract can say; a read that fails is told apart from the end.

ghost use Rattle.listing.specs.Inputs.{Holds};

use std::io::Read;

// Reads until the buffer is full or the input ends: so many bytes stand at the front of the buffer. None where a read fails.
// No `for`: a step is what one read gives.
pub fn read<R: Read>(source: &mut R, buf: &mut [u8]) -> Option<usize>
    ensures { Holds buf.new result }
{
    let mut n = 0;
    while n < buf.len() {
        match source.read(&mut buf[n..]) {
            Ok(0) => return Some(n),
            Ok(more) => n += more,
            Err(_) => return None,
        }
    }
    Some(n)
}
