// The words of a line, one after another.
ghost use Rattle.std.specs.Prelude.{◌≡◌, ◌<◌, ◌≤◌, [], ◌∷◌, length, IfSome, MatchOption};
ghost use Rattle.std.specs.Iterator.{YieldsFirstRef, item_count};
ghost use Rattle.std.specs.List.{prefix_len};
ghost use Rattle.job.specs.Words.{words, is_space, is_other};

/// The words of a line.
#[derive(Clone, Copy)]
pub struct Words<'a>(pub &'a [u8]);

impl<'a> Iterator for Words<'a> {
    type Item = &'a [u8];

    ghost next_gives = { YieldsFirstRef (λ s. words s.0.now) };

    ghost remaining = { item_count (λ s. words s.0.now) };

    fn next(&mut self) -> Option<&'a [u8]> {
        let (word, rest) = next_word(self.0)?;
        self.0 = rest;
        Some(word)
    }
}

/// The first word of a line and what follows it, or `None` where there is no word.
#[tactic(auto, using(crate::proofs::Cuts::word_cut, crate::proofs::Cuts::no_word))]
pub fn next_word(line: &[u8]) -> Option<(&[u8], &[u8])>
    ensures cut { MatchOption result (words line.now ≡ []) (λ p. words line.now ≡ p.0.now ∷ words p.1.now) }
    ensures some { IfSome result (λ p. 0 < length p.0.now) }
    ensures shorter { IfSome result (λ p. length p.1.now < length line.now) }
{
    let (_, text) = line.split_at(space_count(line));
    let (word, rest) = text.split_at(word_len(text));
    if word.is_empty() {
        None
    } else {
        Some((word, rest))
    }
}

// How many spaces stand in front. It and `word_len` stay two: written out in `next_word` its proof did not close, and one
// function over any test would have a longer contract than both.
fn space_count(line: &[u8]) -> usize
    ensures count { result ≡ prefix_len is_space line.now }
    ensures within { result ≤ length line.now }
{
    line.iter().take_while(|b| **b == b' ').count()
}

// How many bytes stand before the first space.
fn word_len(text: &[u8]) -> usize
    ensures count { result ≡ prefix_len is_other text.now }
    ensures within { result ≤ length text.now }
{
    text.iter().take_while(|b| **b != b' ').count()
}
