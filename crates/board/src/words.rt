// The words of a side's registers.
ghost use Rattle.std.specs.Prelude.{◌≡◌, ℕ};
ghost use Rattle.board.specs.Words.{panel_word, with_panel_word, camera_word, with_camera_word};
ghost use Rattle.board.specs.declared.register.Register.{Register};

use crate::register::Register;

/// The words of the registers of one side. A register of the other side has no word here: it reads as 0, and replaces
/// none.
pub(crate) trait Words: Copy {
    ghost word_of: { Register → Self → ℕ };

    ghost with_word: { Register → ℕ → Self → Self };

    /// The word of a register.
    fn get(&self, register: Register) -> u32
        ensures { result ≡ word_of register self.now };

    /// The words with that of a register replaced.
    fn with(self, register: Register, word: u32) -> Self
        ensures { result ≡ with_word register word self };
}

/// The words of the panel's registers, each without the bits that read as 0 and without start.
#[derive(Clone, Copy, Default)]
pub struct PanelWords {
    pub clock: u32,
    pub user: u32,
    pub misc: u32,
    pub ctrl: u32,
    pub ctrl1: u32,
    pub ctrl2: u32,
    pub rgb_yuv: u32,
    pub dly_mode: u32,
    pub data_dout_mode: u32,
}

/// The words of the camera's registers, each without the bits that read as 0 and without start.
#[derive(Clone, Copy, Default)]
pub struct CameraWords {
    pub ctrl: u32,
    pub ctrl1: u32,
    pub rgb_yuv: u32,
}

impl Words for PanelWords {
    ghost word_of = { panel_word };

    ghost with_word = { with_panel_word };

    fn get(&self, register: Register) -> u32 {
        match register {
            Register::LcdClock => self.clock,
            Register::LcdUser => self.user,
            Register::LcdMisc => self.misc,
            Register::LcdCtrl => self.ctrl,
            Register::LcdCtrl1 => self.ctrl1,
            Register::LcdCtrl2 => self.ctrl2,
            Register::LcdRgbYuv => self.rgb_yuv,
            Register::LcdDlyMode => self.dly_mode,
            Register::LcdDataDoutMode => self.data_dout_mode,
            Register::CamCtrl | Register::CamCtrl1 | Register::CamRgbYuv => 0,
        }
    }

    fn with(mut self, register: Register, word: u32) -> PanelWords {
        match register {
            Register::LcdClock => self.clock = word,
            Register::LcdUser => self.user = word,
            Register::LcdMisc => self.misc = word,
            Register::LcdCtrl => self.ctrl = word,
            Register::LcdCtrl1 => self.ctrl1 = word,
            Register::LcdCtrl2 => self.ctrl2 = word,
            Register::LcdRgbYuv => self.rgb_yuv = word,
            Register::LcdDlyMode => self.dly_mode = word,
            Register::LcdDataDoutMode => self.data_dout_mode = word,
            Register::CamCtrl | Register::CamCtrl1 | Register::CamRgbYuv => {}
        }
        self
    }
}

impl Words for CameraWords {
    ghost word_of = { camera_word };

    ghost with_word = { with_camera_word };

    fn get(&self, register: Register) -> u32 {
        match register {
            Register::CamCtrl => self.ctrl,
            Register::CamCtrl1 => self.ctrl1,
            Register::CamRgbYuv => self.rgb_yuv,
            _ => 0,
        }
    }

    fn with(mut self, register: Register, word: u32) -> CameraWords {
        match register {
            Register::CamCtrl => self.ctrl = word,
            Register::CamCtrl1 => self.ctrl1 = word,
            Register::CamRgbYuv => self.rgb_yuv = word,
            _ => {}
        }
        self
    }
}
