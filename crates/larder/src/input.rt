// The lines of the input.
ghost use Rattle.std.specs.Prelude.{IfOk, vec_len};
ghost use Rattle.larder.specs.Filled.{Filled, Gives};

use std::io;
use std::io::{BufRead, ErrorKind};

/// What came of an attempt to read a line: one of three things, none with a value, so no `Option` or `Result`.
pub enum Line {
    /// The buffer holds the line.
    Whole,
    /// There was not enough memory for the line, which was read to its end.
    TooLong,
    /// The input is at its end.
    End,
}

/// Reads a line with its ending into the buffer, in place of what the buffer held.
pub fn next_line<R: BufRead>(input: &mut R, line: &mut Vec<u8>) -> io::Result<Line>
    ensures filled { IfOk result (λ came. Filled came (vec_len line.new)) }

    // Where the bytes of the input are known.
    ensures gives { IfOk result (λ came. Gives came (R.remaining input.old) (R.remaining input.new) line.new.items) }
{
    line.clear();
    match input.read_until(b'\n', line) {
        Ok(0) => Ok(Line::End),
        Ok(_) => Ok(Line::Whole),
        Err(e) if e.kind() == ErrorKind::OutOfMemory => {
            line.clear();
            skip_line(input)?;
            Ok(Line::TooLong)
        }
        Err(e) => Err(e),
    }
}

// Skips the rest of a line, and goes on where a read finds no memory in its turn. A loop that counts nothing would take a
// handle to wait, which no function here may.
fn skip_line<R: BufRead>(input: &mut R) -> io::Result<()> {
    for _ in 0..u64::MAX {
        match input.skip_until(b'\n') {
            Ok(_) => return Ok(()),
            Err(e) if e.kind() == ErrorKind::OutOfMemory => {}
            Err(e) => return Err(e),
        }
    }
    Ok(())
}
