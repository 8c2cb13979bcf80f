// Reading until a buffer is full or the input ends, for the programs that only test. It assumes nothing.
#![tactic(auto)]

ghost use Rattle.std.specs.Prelude.{◌≤◌, ◌<◌, length, take, IfOk};
ghost use Rattle.std.specs.Io.KnownBytes.{Consumes, IsAtEnd};

use std::io;
use std::io::Read;

// Reads until the bytes lent are full or the input ends, and answers how many bytes it read. After an error some may have been read.
pub fn read_full<I: Read>(input: &mut I, text: &mut [u8]) -> io::Result<usize>
    ensures fits { IfOk result (λ n. n ≤ length text.new) }
    ensures read { IfOk result (λ n. Consumes (I.remaining input.old) (I.remaining input.new) (take n text.new)) }
    ensures whole { IfOk result (λ n. n < length text.new → IsAtEnd (I.remaining input.new)) }
{
    let mut done: usize = 0;
    while done < text.len() {
        let n = input.read(&mut text[done..])?;
        if n == 0 {
            return Ok(done);
        }
        done += n;
    }
    Ok(done)
}
