// A float cost is written as the eight hexadecimal digits of its bits.
ghost use Rattle.std.specs.Prelude.{Some};
ghost use Rattle.cost.specs.Figures.{float_figures};

use super::Float;
use std::fmt;

impl fmt::Display for Float {
    ghost output = { λ c. Some (float_figures c) };

    #[tactic(auto, using(crate::specs::SumLaws::cost_number))]
    fn fmt<W: fmt::Write>(&self, f: &mut fmt::Formatter<W>) -> fmt::Result {
        write!(f, "{:08X}", self.value.to_bits())
    }
}
