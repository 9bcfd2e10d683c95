// The registers, and the side of the module that each belongs to.
ghost use Rattle.std.specs.Prelude.{◌≡◌};
ghost use Rattle.board.specs.Registers.{index, side, side_registers, name};
ghost use Rattle.board.specs.Fields.{stored_mask, stored};

/// A side of the LCD_CAM module.
#[derive(Clone, Copy, PartialEq, Eq, Debug)]
pub enum Side {
    /// The LCD registers, which drive a panel.
    Panel,
    /// The CAM registers, which take in a camera's frames.
    Camera,
}

/// A register of LCD_CAM, by the manual's name, in the board's order.
#[derive(Clone, Copy)]
pub enum Register {
    LcdClock,
    LcdUser,
    LcdMisc,
    LcdCtrl,
    LcdCtrl1,
    LcdCtrl2,
    LcdRgbYuv,
    LcdDlyMode,
    LcdDataDoutMode,
    CamCtrl,
    CamCtrl1,
    CamRgbYuv,
}

/// The registers in the board's order.
pub const REGISTERS: [Register; 12] = [
    Register::LcdClock,
    Register::LcdUser,
    Register::LcdMisc,
    Register::LcdCtrl,
    Register::LcdCtrl1,
    Register::LcdCtrl2,
    Register::LcdRgbYuv,
    Register::LcdDlyMode,
    Register::LcdDataDoutMode,
    Register::CamCtrl,
    Register::CamCtrl1,
    Register::CamRgbYuv,
];

impl Side {
    /// The registers of the side, in the board's order.
    pub(crate) fn registers(self) -> &'static [Register]
        ensures { result.now ≡ side_registers self }
    {
        match self {
            Side::Panel => &REGISTERS[..9],
            Side::Camera => &REGISTERS[9..],
        }
    }
}

impl Register {
    /// The place in the board's order, from 0.
    pub fn index(self) -> usize
        ensures { result ≡ index self }
    {
        self as usize
    }

    /// The side that the register belongs to.
    pub fn side(self) -> Side
        ensures { result ≡ side self }
    {
        match self {
            Register::CamCtrl | Register::CamCtrl1 | Register::CamRgbYuv => Side::Camera,
            _ => Side::Panel,
        }
    }

    /// The manual's name.
    pub fn name(self) -> &'static str
        ensures { result.now ≡ name self }
    {
        match self {
            Register::LcdClock => "LCD_CLOCK",
            Register::LcdUser => "LCD_USER",
            Register::LcdMisc => "LCD_MISC",
            Register::LcdCtrl => "LCD_CTRL",
            Register::LcdCtrl1 => "LCD_CTRL1",
            Register::LcdCtrl2 => "LCD_CTRL2",
            Register::LcdRgbYuv => "LCD_RGB_YUV",
            Register::LcdDlyMode => "LCD_DLY_MODE",
            Register::LcdDataDoutMode => "LCD_DATA_DOUT_MODE",
            Register::CamCtrl => "CAM_CTRL",
            Register::CamCtrl1 => "CAM_CTRL1",
            Register::CamRgbYuv => "CAM_RGB_YUV",
        }
    }

    /// The bits that a write stores: those of the settings. The others read as 0, but for start.
    pub fn stored_mask(self) -> u32
        ensures { result ≡ stored_mask self }
    {
        match self {
            Register::LcdClock => 0xffff_ffff,
            Register::LcdUser => 0xe7e8_2000,
            Register::LcdMisc => 0xf7ff_fffe,
            Register::LcdCtrl => 0xffff_ffff,
            Register::LcdCtrl1 => 0xffff_ffff,
            Register::LcdCtrl2 => 0xffff_03ff,
            Register::LcdRgbYuv => 0x8000_0000,
            Register::LcdDlyMode => 0x0000_00ff,
            Register::LcdDataDoutMode => 0xffff_ffff,
            Register::CamCtrl => 0x7fff_ffef,
            Register::CamCtrl1 => 0x1fff_ffff,
            Register::CamRgbYuv => 0x8000_0000,
        }
    }

    /// What the register stores of a written word.
    pub fn stored(self, word: u32) -> u32
        ensures { result ≡ stored self word }
    {
        word & self.stored_mask()
    }
}
