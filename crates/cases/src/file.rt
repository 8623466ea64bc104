// Reading a stored file, into a room that its caller has.
ghost use Rattle.std.specs.Prelude.{◌≤◌, ◌<◌, length, take, IfOk};
ghost use Rattle.std.specs.Io.KnownBytes.{Consumes, IsAtEnd};

use std::io;
use std::io::Read;

// Room for so many bytes. A parameter says how many, since the prover doesn't follow a program that writes a mebibyte of zeros out.
pub fn room<const N: usize>() -> [u8; N] {
    [0; N]
}

// Reads until the buffer is full or the file ends, and answers how many bytes of the file stand at the buffer's front. It is promised
// of a lent buffer (docs/PROMISES.md), and a longer file is cut off there.
pub fn read_full<F: Read>(file: &mut F, buffer: &mut [u8]) -> io::Result<usize>
    ensures bound { IfOk result (λ n. n ≤ length buffer.new) }
    ensures bytes { IfOk result (λ n. Consumes (F.remaining file.old) (F.remaining file.new) (take n buffer.new)) }
    ensures end { IfOk result (λ n. n < length buffer.new → IsAtEnd (F.remaining file.new)) }
{
    let mut done = 0;
    for turn in 0..buffer.len() {
        let n = file.read(&mut buffer[done..])?;
        if n == 0 {
            return Ok(done);
        }
        done += n;
    }
    Ok(done)
}
