// A word of the input in a message.
ghost use Rattle.std.specs.Prelude.{◌≡◌, Some};
ghost use Rattle.job.specs.Quotes.{quoted, escaped, escaped_byte, plain};

use std::fmt;

// How much of a word is shown.
const SHOWN: usize = 32;

/// A word in quotes: its first 32 bytes, with `..` after the quotes where it goes on. A byte that is no printable ASCII,
/// a quote and a backslash are shown as \x and two hexadecimal digits.
#[derive(Clone, Copy)]
pub struct Quoted<'a>(pub &'a [u8]);

impl fmt::Display for Quoted<'_> {
    ghost output = { λ q. Some (quoted q.0.now) };

    fn fmt<W: fmt::Write>(&self, f: &mut fmt::Formatter<W>) -> fmt::Result {
        let word = self.0;
        if word.len() > SHOWN {
            let front = Escaped(&word[0..SHOWN]);
            write!(f, "\"{front}\"..")
        } else {
            let front = Escaped(word);
            write!(f, "\"{front}\"")
        }
    }
}

#[derive(Clone, Copy)]
struct Escaped<'a>(&'a [u8]);

impl fmt::Display for Escaped<'_> {
    ghost output = { λ e. Some (escaped e.0.now) };

    #[tactic(auto, using(crate::proofs::Pieces::piece_more))]
    fn fmt<W: fmt::Write>(&self, f: &mut fmt::Formatter<W>) -> fmt::Result {
        for b in self.0 {
            let b = EscapedByte(*b);
            write!(f, "{b}")?;
        }
        Ok(())
    }
}

#[derive(Clone, Copy)]
struct EscapedByte(u8);

impl fmt::Display for EscapedByte {
    ghost output = { λ b. Some (escaped_byte b.0) };

    #[tactic(auto, using(crate::proofs::Escapes::plain_shown, crate::proofs::Escapes::other_shown))]
    fn fmt<W: fmt::Write>(&self, f: &mut fmt::Formatter<W>) -> fmt::Result {
        let b = self.0;
        if is_plain(b) {
            f.write_char(b as char)
        } else {
            write!(f, "\\x{b:02x}")
        }
    }
}

fn is_plain(b: u8) -> bool
    ensures { result ≡ plain b }
{
    b.is_ascii_graphic() && b != b'"' && b != b'\\'
}
