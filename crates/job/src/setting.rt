// What the search sets, as it is printed.
ghost use Rattle.std.specs.Prelude.{Some};
ghost use Rattle.job.specs.Evaluated.Answer.{set};
ghost use Rattle.job.specs.Printed.{answer_line};

use clock::divider::ClockDivider;
use std::fmt;

/// A setting for a frequency: the index of the source and its divider, with the place of its fraction in the Farey
/// sequence (0 for none: the script prints that number) and the output in whole hertz.
#[derive(Clone, Copy, PartialEq, Eq, Debug)]
pub struct Setting {
    pub index: usize,
    pub divider: ClockDivider,
    pub count: u32,
    pub hertz: u32,
}

impl fmt::Display for Setting {
    ghost output = { λ s. Some (answer_line (set s)) };

    fn fmt<W: fmt::Write>(&self, f: &mut fmt::Formatter<W>) -> fmt::Result {
        let Setting {
            index,
            divider,
            count,
            hertz,
        } = self;
        let ClockDivider {
            div_num,
            div_b,
            div_a,
        } = divider;
        write!(
            f,
            "source {index} div_num {div_num} div_b {div_b} div_a {div_a} count {count} hertz {hertz}"
        )
    }
}
