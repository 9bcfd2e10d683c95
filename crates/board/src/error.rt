// Why no board is made.
ghost use Rattle.std.specs.Prelude.{◌≡◌};
ghost use Rattle.board.specs.Errors.{number};

/// Why words are no image.
#[derive(Clone, Copy, PartialEq, Eq, Debug)]
pub enum ImageError {
    /// There are not 34 of them.
    WrongSize = 10,
}

impl ImageError {
    /// The number of the refusal. The crates share no error, so each has this line.
    pub fn number(self) -> u32
        ensures { result ≡ number self }
    {
        self as u32
    }
}
