// The fields of the registers, as one table: register, low bit, width, and what a write of the field does.
ghost use Rattle.std.specs.Prelude.{◌≡◌, ◌+◌, ◌*◌, ◌%◌, ◌^◌, ◌<◌, ◌≤◌};
ghost use Rattle.board.specs.Table.{place};
ghost use Rattle.board.specs.Fields.{part, put_part, field, put};
ghost use Rattle.board.specs.FieldLaws.{TableLaw, PutLaw};

use crate::register::Register;

/// A field of a register, by the manual's name.
#[derive(Clone, Copy)]
pub enum Field {
    // LCD_CLOCK
    LcdClkcntN,
    LcdClkEquSysclk,
    LcdCkIdleEdge,
    LcdCkOutEdge,
    LcdClkmDivNum,
    LcdClkmDivB,
    LcdClkmDivA,
    LcdClkSel,
    LcdClkEn,
    // LCD_USER
    LcdAlwaysOutEn,
    Lcd8bitsOrder,
    LcdUpdate,
    LcdBitOrder,
    LcdByteOrder,
    Lcd2byteEn,
    LcdDout,
    LcdDummy,
    LcdCmd,
    LcdStart,
    LcdReset,
    LcdDummyCyclelen,
    LcdCmd2CycleEn,
    // LCD_MISC
    LcdAfifoThresholdNum,
    LcdVfkCyclelen,
    LcdVbkCyclelen,
    LcdNextFrameEn,
    LcdBkEn,
    LcdAfifoReset,
    LcdCdDataSet,
    LcdCdDummySet,
    LcdCdCmdSet,
    LcdCdIdleEdge,
    // LCD_CTRL
    LcdHbFront,
    LcdVaHeight,
    LcdVtHeight,
    LcdRgbModeEn,
    // LCD_CTRL1
    LcdVbFront,
    LcdHaWidth,
    LcdHtWidth,
    // LCD_CTRL2
    LcdVsyncWidth,
    LcdVsyncIdlePol,
    LcdDeIdlePol,
    LcdHsBlankEn,
    LcdHsyncWidth,
    LcdHsyncIdlePol,
    LcdHsyncPosition,
    // LCD_RGB_YUV
    LcdConvBypass,
    // LCD_DLY_MODE
    LcdCdMode,
    LcdDeMode,
    LcdHsyncMode,
    LcdVsyncMode,
    // LCD_DATA_DOUT_MODE
    LcdDout0Mode,
    LcdDout1Mode,
    LcdDout2Mode,
    LcdDout3Mode,
    LcdDout4Mode,
    LcdDout5Mode,
    LcdDout6Mode,
    LcdDout7Mode,
    LcdDout8Mode,
    LcdDout9Mode,
    LcdDout10Mode,
    LcdDout11Mode,
    LcdDout12Mode,
    LcdDout13Mode,
    LcdDout14Mode,
    LcdDout15Mode,
    // CAM_CTRL
    CamStopEn,
    CamVsyncFilterThres,
    CamUpdate,
    CamByteOrder,
    CamBitOrder,
    CamLineIntEn,
    CamVsEofEn,
    CamClkmDivNum,
    CamClkmDivB,
    CamClkmDivA,
    CamClkSel,
    // CAM_CTRL1
    CamRecDataBytelen,
    CamLineIntNum,
    CamClkInv,
    CamVsyncFilterEn,
    Cam2byteEn,
    CamDeInv,
    CamHsyncInv,
    CamVsyncInv,
    CamVhDeModeEn,
    CamStart,
    CamReset,
    CamAfifoReset,
    // CAM_RGB_YUV
    CamConvBypass,
}

/// What a write of a field does.
#[derive(Clone, Copy)]
pub enum Role {
    /// The value is stored, and is in force from the next update on.
    Setting,
    /// The same, of a field that selects or divides the clock of its side.
    ClockSetting,
    /// A 1 puts the stored fields of the side in force.
    Update,
    /// A 1 begins a run where both resets are marked, a 0 ends it.
    Start,
    /// A 1 marks the reset of the control unit.
    Reset,
    /// A 1 marks the reset of the asynchronous FIFO.
    AfifoReset,
}

/// Where a field lies, and what it is for.
#[derive(Clone, Copy)]
pub struct Place {
    pub register: Register,
    /// Its lowest bit.
    pub low: u32,
    /// How many bits it has, 1 to 16.
    pub width: u32,
    pub role: Role,
}

// A row of the table: register, low bit, width, role.
macro_rules! at {
    ($register:ident, $low:literal, $width:literal, $role:ident) => {
        Place {
            register: Register::$register,
            low: $low,
            width: $width,
            role: Role::$role,
        }
    };
}

impl Field {
    /// Where the field lies, and what it is for.
    // Inlined, as are `get`, `put` and `bits`: where the source names the field, or chooses between two, its place is then
    // known when the caller is compiled, and is not looked up.
    #[inline(always)]
    pub fn place(self) -> Place
        ensures { result ≡ place self }
    {
        match self {
            // LCD_CLOCK
            Field::LcdClkcntN => at!(LcdClock, 0, 6, Setting),
            Field::LcdClkEquSysclk => at!(LcdClock, 6, 1, Setting),
            Field::LcdCkIdleEdge => at!(LcdClock, 7, 1, Setting),
            Field::LcdCkOutEdge => at!(LcdClock, 8, 1, Setting),
            Field::LcdClkmDivNum => at!(LcdClock, 9, 8, ClockSetting),
            Field::LcdClkmDivB => at!(LcdClock, 17, 6, ClockSetting),
            Field::LcdClkmDivA => at!(LcdClock, 23, 6, ClockSetting),
            Field::LcdClkSel => at!(LcdClock, 29, 2, ClockSetting),
            Field::LcdClkEn => at!(LcdClock, 31, 1, Setting),
            // LCD_USER
            Field::LcdAlwaysOutEn => at!(LcdUser, 13, 1, Setting),
            Field::Lcd8bitsOrder => at!(LcdUser, 19, 1, Setting),
            Field::LcdUpdate => at!(LcdUser, 20, 1, Update),
            Field::LcdBitOrder => at!(LcdUser, 21, 1, Setting),
            Field::LcdByteOrder => at!(LcdUser, 22, 1, Setting),
            Field::Lcd2byteEn => at!(LcdUser, 23, 1, Setting),
            Field::LcdDout => at!(LcdUser, 24, 1, Setting),
            Field::LcdDummy => at!(LcdUser, 25, 1, Setting),
            Field::LcdCmd => at!(LcdUser, 26, 1, Setting),
            Field::LcdStart => at!(LcdUser, 27, 1, Start),
            Field::LcdReset => at!(LcdUser, 28, 1, Reset),
            Field::LcdDummyCyclelen => at!(LcdUser, 29, 2, Setting),
            Field::LcdCmd2CycleEn => at!(LcdUser, 31, 1, Setting),
            // LCD_MISC
            Field::LcdAfifoThresholdNum => at!(LcdMisc, 1, 5, Setting),
            Field::LcdVfkCyclelen => at!(LcdMisc, 6, 6, Setting),
            Field::LcdVbkCyclelen => at!(LcdMisc, 12, 13, Setting),
            Field::LcdNextFrameEn => at!(LcdMisc, 25, 1, Setting),
            Field::LcdBkEn => at!(LcdMisc, 26, 1, Setting),
            Field::LcdAfifoReset => at!(LcdMisc, 27, 1, AfifoReset),
            Field::LcdCdDataSet => at!(LcdMisc, 28, 1, Setting),
            Field::LcdCdDummySet => at!(LcdMisc, 29, 1, Setting),
            Field::LcdCdCmdSet => at!(LcdMisc, 30, 1, Setting),
            Field::LcdCdIdleEdge => at!(LcdMisc, 31, 1, Setting),
            // LCD_CTRL
            Field::LcdHbFront => at!(LcdCtrl, 0, 11, Setting),
            Field::LcdVaHeight => at!(LcdCtrl, 11, 10, Setting),
            Field::LcdVtHeight => at!(LcdCtrl, 21, 10, Setting),
            Field::LcdRgbModeEn => at!(LcdCtrl, 31, 1, Setting),
            // LCD_CTRL1
            Field::LcdVbFront => at!(LcdCtrl1, 0, 8, Setting),
            Field::LcdHaWidth => at!(LcdCtrl1, 8, 12, Setting),
            Field::LcdHtWidth => at!(LcdCtrl1, 20, 12, Setting),
            // LCD_CTRL2
            Field::LcdVsyncWidth => at!(LcdCtrl2, 0, 7, Setting),
            Field::LcdVsyncIdlePol => at!(LcdCtrl2, 7, 1, Setting),
            Field::LcdDeIdlePol => at!(LcdCtrl2, 8, 1, Setting),
            Field::LcdHsBlankEn => at!(LcdCtrl2, 9, 1, Setting),
            Field::LcdHsyncWidth => at!(LcdCtrl2, 16, 7, Setting),
            Field::LcdHsyncIdlePol => at!(LcdCtrl2, 23, 1, Setting),
            Field::LcdHsyncPosition => at!(LcdCtrl2, 24, 8, Setting),
            // LCD_RGB_YUV
            Field::LcdConvBypass => at!(LcdRgbYuv, 31, 1, Setting),
            // LCD_DLY_MODE
            Field::LcdCdMode => at!(LcdDlyMode, 0, 2, Setting),
            Field::LcdDeMode => at!(LcdDlyMode, 2, 2, Setting),
            Field::LcdHsyncMode => at!(LcdDlyMode, 4, 2, Setting),
            Field::LcdVsyncMode => at!(LcdDlyMode, 6, 2, Setting),
            // LCD_DATA_DOUT_MODE
            Field::LcdDout0Mode => at!(LcdDataDoutMode, 0, 2, Setting),
            Field::LcdDout1Mode => at!(LcdDataDoutMode, 2, 2, Setting),
            Field::LcdDout2Mode => at!(LcdDataDoutMode, 4, 2, Setting),
            Field::LcdDout3Mode => at!(LcdDataDoutMode, 6, 2, Setting),
            Field::LcdDout4Mode => at!(LcdDataDoutMode, 8, 2, Setting),
            Field::LcdDout5Mode => at!(LcdDataDoutMode, 10, 2, Setting),
            Field::LcdDout6Mode => at!(LcdDataDoutMode, 12, 2, Setting),
            Field::LcdDout7Mode => at!(LcdDataDoutMode, 14, 2, Setting),
            Field::LcdDout8Mode => at!(LcdDataDoutMode, 16, 2, Setting),
            Field::LcdDout9Mode => at!(LcdDataDoutMode, 18, 2, Setting),
            Field::LcdDout10Mode => at!(LcdDataDoutMode, 20, 2, Setting),
            Field::LcdDout11Mode => at!(LcdDataDoutMode, 22, 2, Setting),
            Field::LcdDout12Mode => at!(LcdDataDoutMode, 24, 2, Setting),
            Field::LcdDout13Mode => at!(LcdDataDoutMode, 26, 2, Setting),
            Field::LcdDout14Mode => at!(LcdDataDoutMode, 28, 2, Setting),
            Field::LcdDout15Mode => at!(LcdDataDoutMode, 30, 2, Setting),
            // CAM_CTRL
            Field::CamStopEn => at!(CamCtrl, 0, 1, Setting),
            Field::CamVsyncFilterThres => at!(CamCtrl, 1, 3, Setting),
            Field::CamUpdate => at!(CamCtrl, 4, 1, Update),
            Field::CamByteOrder => at!(CamCtrl, 5, 1, Setting),
            Field::CamBitOrder => at!(CamCtrl, 6, 1, Setting),
            Field::CamLineIntEn => at!(CamCtrl, 7, 1, Setting),
            Field::CamVsEofEn => at!(CamCtrl, 8, 1, Setting),
            Field::CamClkmDivNum => at!(CamCtrl, 9, 8, ClockSetting),
            Field::CamClkmDivB => at!(CamCtrl, 17, 6, ClockSetting),
            Field::CamClkmDivA => at!(CamCtrl, 23, 6, ClockSetting),
            Field::CamClkSel => at!(CamCtrl, 29, 2, ClockSetting),
            // CAM_CTRL1
            Field::CamRecDataBytelen => at!(CamCtrl1, 0, 16, Setting),
            Field::CamLineIntNum => at!(CamCtrl1, 16, 6, Setting),
            Field::CamClkInv => at!(CamCtrl1, 22, 1, Setting),
            Field::CamVsyncFilterEn => at!(CamCtrl1, 23, 1, Setting),
            Field::Cam2byteEn => at!(CamCtrl1, 24, 1, Setting),
            Field::CamDeInv => at!(CamCtrl1, 25, 1, Setting),
            Field::CamHsyncInv => at!(CamCtrl1, 26, 1, Setting),
            Field::CamVsyncInv => at!(CamCtrl1, 27, 1, Setting),
            Field::CamVhDeModeEn => at!(CamCtrl1, 28, 1, Setting),
            Field::CamStart => at!(CamCtrl1, 29, 1, Start),
            Field::CamReset => at!(CamCtrl1, 30, 1, Reset),
            Field::CamAfifoReset => at!(CamCtrl1, 31, 1, AfifoReset),
            // CAM_RGB_YUV
            Field::CamConvBypass => at!(CamRgbYuv, 31, 1, Setting),
        }
    }

    /// The value of the field in a word of its register.
    #[inline(always)]
    pub fn get(self, word: u32) -> u32
        ensures value { result ≡ field self word }
        ensures cut { result < 2 ^ (place self).width }
        ensures law { TableLaw }
    {
        self.bits().part(word)
    }

    /// A word with the field put to a value, which is cut to the field.
    #[inline(always)]
    pub fn put(self, word: u32, value: u32) -> u32
        ensures value { result ≡ put self value word }
        ensures law { PutLaw self value word }
    {
        self.bits().put(word, value)
    }

    #[inline(always)]
    fn bits(self) -> Bits
        ensures low { result.low ≡ (place self).low }
        ensures width { result.width ≡ (place self).width }
    {
        let place = self.place();
        Bits {
            low: place.low,
            width: place.width,
        }
    }
}

// Some bits of a word: `width` of them, from the bit `low` on.
#[derive(Clone, Copy)]
struct Bits {
    low: u32,
    width: u32,
    ghost within_32: { low + width ≤ 32 },
    ghost not_empty: { 1 ≤ width },
    ghost narrow: { width ≤ 16 },
}

impl Bits {
    // The number that the bits of a word write.
    fn part(self, word: u32) -> u32
        ensures value { result ≡ part self.low self.width word }
        ensures cut { result < 2 ^ self.width }
    {
        self.cut(word >> self.low)
    }

    // The old value of the bits is taken out of a word, and the new one put in.
    fn put(self, word: u32, value: u32) -> u32
        ensures { result ≡ put_part self.low self.width value word }
    {
        let old = self.raised(self.part(word));
        let new = self.raised(self.cut(value));
        word - old + new
    }

    // The lowest bits of a value, as many as these are.
    fn cut(self, value: u32) -> u32
        ensures value { result ≡ value % 2 ^ self.width }
        ensures cut { result < 2 ^ self.width }
    {
        value & ((1 << self.width) - 1)
    }

    // A value of these bits at their place.
    fn raised(self, value: u32) -> u32
        requires { value < 2 ^ self.width }
        ensures { result ≡ value * 2 ^ self.low }
    {
        value << self.low
    }
}
