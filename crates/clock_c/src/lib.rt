// The search of the crate `clock` for callers in C and Rust, as a static library, which a crate that others use cannot be.
#![tactic(auto)]

ghost use Rattle.std.specs.Prelude.{◌≡◌};
ghost use Rattle.clock.specs.Laws.{SearchLaw};
ghost use Rattle.clock.specs.Packed.{lcd_cam_sources, packed, unpacked};
ghost use Rattle.clock.specs.Search.{searched};

/// The source and the divider for a frequency, over the three sources of LCD_CAM in the order of clk_sel.
///
/// Bits 0 to 7 have `div_num`, 8 to 13 `div_b`, 14 to 19 `div_a`, 20 and 21 the source's index plus 1.
/// A refusal is 2,147,483,648 plus its number. C has no `Result`, and takes the sources one by one.
#[unsafe(no_mangle)]
pub extern "C" fn lcd_cam_calculate_clkm(frequency: u32, xtal: u32, pll_d2: u32, crypto: u32) -> u32
    ensures packed { result ≡ packed (searched frequency (lcd_cam_sources xtal pll_d2 crypto)) }
    ensures unpacked { unpacked result ≡ searched frequency (lcd_cam_sources xtal pll_d2 crypto) }
    ensures law { SearchLaw frequency (lcd_cam_sources xtal pll_d2 crypto) (unpacked result) }
{
    clock::entry::lcd_cam_calculate_clkm(frequency, xtal, pll_d2, crypto)
}
