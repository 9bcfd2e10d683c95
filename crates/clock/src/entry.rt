// The search for callers in C and Rust: numbers in, one packed number out.
ghost use Rattle.std.specs.Prelude.{◌≡◌, ◌<◌};
ghost use Rattle.clock.specs.Laws.{SearchLaw, FitsFields};
ghost use Rattle.clock.specs.Packed.{lcd_cam_sources, packed, unpacked};
ghost use Rattle.clock.specs.Search.{searched};
ghost use Rattle.clock.specs.Search.Answer.{setting};

use crate::divider::ClockDivider;
use crate::search::calculate_clkm;

/// The source and the divider for a frequency, over the three sources of LCD_CAM in the order of clk_sel.
///
/// Bits 0 to 7 have `div_num`, 8 to 13 `div_b`, 14 to 19 `div_a`, 20 and 21 the source's index plus 1.
/// A refusal is 2,147,483,648 plus its number. C has no `Result`, and takes the sources one by one.
#[tactic(auto, using(crate::proofs::Bits::three_fit))]
pub fn lcd_cam_calculate_clkm(frequency: u32, xtal: u32, pll_d2: u32, crypto: u32) -> u32
    ensures packed { result ≡ packed (searched frequency (lcd_cam_sources xtal pll_d2 crypto)) }
    ensures unpacked { unpacked result ≡ searched frequency (lcd_cam_sources xtal pll_d2 crypto) }
    ensures law { SearchLaw frequency (lcd_cam_sources xtal pll_d2 crypto) (unpacked result) }
{
    match calculate_clkm(frequency, &[xtal, pll_d2, crypto]) {
        Ok((index, divider)) => pack(index, &divider),
        Err(error) => 0x8000_0000 + error.number(),
    }
}

// A setting of one of three sources, whose divider fits the register fields.
#[tactic(auto, using(crate::proofs::Bits::setting_reads))]
fn pack(index: usize, divider: &ClockDivider) -> u32
    requires known { index < 3 }
    requires fits { FitsFields divider.now }
    ensures packed { result ≡ packed (setting index divider.now) }
    ensures reads { unpacked result ≡ setting index divider.now }
{
    let source = index as u32 + 1;
    divider.div_num as u32
        + ((divider.div_b as u32) << 8)
        + ((divider.div_a as u32) << 14)
        + (source << 20)
}
