// A clock divider of the LCD_CAM module, and the frequency that it makes of a source.
ghost use Rattle.std.specs.Prelude.{◌≡◌, ◌+◌, ◌*◌, ◌/◌, ◌<◌};
ghost use Rattle.clock.specs.Divider.{hertz};

/// The divider between a source clock and the clock of one side of LCD_CAM.
#[derive(Clone, Copy, PartialEq, Eq, Debug)]
pub struct ClockDivider {
    /// Integral part of the divisor (8 bits): 0 is treated as 256, 1 as 2, any other value as itself.
    pub div_num: u8,
    /// Numerator of the fractional part (6 bits).
    pub div_b: u8,
    /// Denominator of the fractional part (6 bits). There is no fractional part where it or `div_b` is 0.
    pub div_a: u8,
}

/// The output of a divider in whole hertz: SOURCE / (N + B/A), rounded down.
pub fn calculate_output_frequency(source_frequency: u32, divider: &ClockDivider) -> u32
    ensures { result ≡ hertz source_frequency divider.now }
{
    let n: u32 = match divider.div_num {
        0 => 256,
        1 => 2,
        whole => whole as u32,
    };
    if divider.div_b != 0 && divider.div_a != 0 {
        divided_by_fraction(source_frequency, n, divider.div_b, divider.div_a)
    } else {
        source_frequency / n
    }
}

// SOURCE / (N + B/A) = (SOURCE * A) / (N * A + B), whose products want 64 bits.
#[tactic(auto, using(crate::proofs::Outputs::hertz_le, crate::proofs::Outputs::divisor_positive))]
fn divided_by_fraction(source: u32, n: u32, b: u8, a: u8) -> u32
    requires whole { 0 < n }
    requires denominator { 0 < a }
    ensures { result ≡ source * a / (n * a + b) }
{
    ((source as u64 * a as u64) / (n as u64 * a as u64 + b as u64)) as u32
}
