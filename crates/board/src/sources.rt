// The clocks that a side can divide.

/// The three sources of LCD_CAM, in hertz, in the order of clk_sel from 1.
#[derive(Clone, Copy)]
pub struct Sources {
    /// The crystal.
    pub xtal: u32,
    pub pll_d2: u32,
    /// The crypto clock.
    pub crypto: u32,
}

impl Sources {
    /// The clocks that an ESP32-S3 usually has: 40, 240 and 160 MHz.
    pub const USUAL: Sources = Sources {
        xtal: 40_000_000,
        pll_d2: 240_000_000,
        crypto: 160_000_000,
    };
}
