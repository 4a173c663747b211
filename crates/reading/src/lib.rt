// A whole input, read into lent bytes.
#![tactic(auto)]

ghost use Rattle.std.specs.Io.{ReadsAtMost};

use std::io;
use std::io::Read;

// reads until `text` is full or the input ends, and returns how many bytes
pub fn read_full<R: Read>(input: &mut R, text: &mut [u8]) -> io::Result<usize>
    ensures { ReadsAtMost result text.new }
{
    let mut got = 0;
    while got < text.len() {
        let n = input.read(&mut text[got..])?;
        if n == 0 {
            break;
        }
        got += n;
    }
    Ok(got)
}
