// The word board: a board with words of its own, whose runs take a chosen number of polls.
ghost use Rattle.std.specs.Prelude.{◌≡◌};
ghost use Rattle.board.specs.WordBoards.{word_board, word_spans, new_board, chosen_span};

use crate::control::{Control, with_start};
use crate::inspect::Inspect;
use crate::interface::Board;
use crate::register::{Register, Side};
use crate::side_words::SideWords;
use crate::sources::Sources;
use crate::words::{CameraWords, PanelWords};

/// A board with words of its own.
// Its sides are of two types, so what a call does to a side is in `SideWords`, and each call here names both.
#[derive(Drop)]
pub struct WordBoard {
    sources: Sources,
    panel: SideWords<PanelWords>,
    camera: SideWords<CameraWords>,
}

impl WordBoard {
    /// A board whose fields are all 0, where a run takes `span` polls on either side: 1 to 1,000,000, the nearer end
    /// where `span` lies outside.
    pub fn new(sources: Sources, span: u32) -> WordBoard
        ensures { word_board result ≡ new_board sources (chosen_span span) }
    {
        WordBoard {
            sources,
            panel: SideWords::new(PanelWords::default(), span),
            camera: SideWords::new(CameraWords::default(), span),
        }
    }
}

impl Board for WordBoard {
    ghost meaning = { word_board };

    ghost spans = { word_spans };

    #[tactic(auto, unfolding(crate::specs::States::read))]
    fn read(&self, register: Register) -> u32 {
        match register.side() {
            Side::Panel => with_start(
                register,
                self.panel.control.start,
                self.panel.written(register),
            ),
            Side::Camera => with_start(
                register,
                self.camera.control.start,
                self.camera.written(register),
            ),
        }
    }

    #[tactic(auto, unfolding(crate::specs::States::written))]
    fn write(&mut self, register: Register, word: u32) {
        match register.side() {
            Side::Panel => self.panel.write(register, word),
            Side::Camera => self.camera.write(register, word),
        }
    }

    #[tactic(auto, unfolding(crate::specs::States::polled, crate::specs::States::poll_answer))]
    fn poll(&mut self, side: Side) -> bool {
        match side {
            Side::Panel => self.panel.poll(),
            Side::Camera => self.camera.poll(),
        }
    }

    fn sources(&self) -> Sources {
        self.sources
    }
}

impl Inspect for WordBoard {
    fn in_force(&self, register: Register) -> u32 {
        match register.side() {
            Side::Panel => self.panel.in_force(register),
            Side::Camera => self.camera.in_force(register),
        }
    }

    fn control(&self, side: Side) -> Control {
        match side {
            Side::Panel => self.panel.control,
            Side::Camera => self.camera.control,
        }
    }
}
