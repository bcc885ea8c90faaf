// The float kind. Samples are floats of size at most 1,000: above 0 they favour bit 0, below 0 bit 1, either zero means nothing; larger
// ones, the infinities and NaN are unfit.
ghost use Rattle.std.specs.Prelude.{◌≡◌, true, false};
ghost use Rattle.std.specs.Bool.{passes};
ghost use Rattle.std.specs.Float.{float_zero, float_one, minus_one};
ghost use Rattle.std.specs.Float.Ieee.{le, eq};
ghost use Rattle.cost.specs.Sums.{is_cost, size, summed, thousand};
ghost use Rattle.cost.specs.SumLaws.{clean_adds_nothing, clean_is_fit, clean_raises_zero, silent_adds_nothing, sums_keep, sums_raise, sums_total, zero_is_fit, zero_is_silent};
ghost use Rattle.cost.specs.Summing.{float_grown, float_lifted, zero_cost};
ghost use Rattle.std.proofs.Common.{rules};
ghost use Rattle.std.proofs.lemmas.Float.{le_trans};
ghost use lib.Ieee.Bits.{is_true};
ghost use denote.Struct.Record.{values_one};
ghost use Rattle.cost.specs.contracts.float.Float.{struct, the_propositions};

use super::Float;
use crate::kind::Cost;

#[tactic(auto, using(crate::specs::SumLaws::zero_is, crate::specs::SumLaws::zero_is_cost, crate::specs::SumLaws::minus_one_is, crate::specs::SumLaws::thousand_is, crate::specs::SumLaws::summed_is_cost))]
impl Cost for Float {
    type Sample = f32;

    type Plain = f32;

    const NOTHING: f32 = 0.0;

    ghost NOTHING = { float_zero };

    const CLEAN_ZERO: f32 = 1.0;

    ghost CLEAN_ZERO = { float_one };

    const CLEAN_ONE: f32 = -1.0;

    ghost CLEAN_ONE = { minus_one };

    const ZERO: Float = Float { value: 0.0 };

    ghost ZERO = { zero_cost };

    ghost fit = { λ s. le (size s) thousand };

    ghost silent = { λ s. eq s float_zero };

    ghost grow = { float_grown };

    ghost le = { λ a b. le a.value b.value };

    ghost lay = { λ a. a.value };

    ghost lift = { float_lifted };

    ghost total = { λ a b h. sums_total a.value b.value a.cost b.cost h };

    ghost trans = { λ a b c h k. is_true _ (le_trans a.value b.value c.value (passes _ h) (passes _ k)) };

    ghost keeps = { λ a b s x f h. sums_keep a.value b.value s x a.cost b.cost h };

    ghost raises = { λ a s x f. sums_raise a.value s x a.cost };

    // By `values_one` two costs are one where their floats are.
    ghost silence = { λ a s x f h. let e = silent_adds_nothing a.value s x h in Prim.search (rules, values_one struct the_propositions) };

    ghost agrees = { λ a x. let e = clean_adds_nothing a.value x in Prim.search (rules, values_one struct the_propositions) };

    ghost differs_one = { clean_raises_zero true };

    ghost differs_zero = { clean_raises_zero false };

    ghost nothing_fit = { zero_is_fit };

    ghost nothing_silent = { zero_is_silent };

    ghost clean_fit = { clean_is_fit };

    ghost laid = { Prim.search (rules, values_one struct the_propositions) };

    ghost unlaid = { λ p never. let h = never (float_lifted p) in Prim.search (rules, values_one struct the_propositions) };

    ghost roomy = { Prim.search rules };

    fn is_fit(s: f32) -> bool {
        s.abs() <= 1000.0
    }

    fn is_silent(s: f32) -> bool {
        s == Self::NOTHING
    }

    fn grown(self, s: f32, bit: bool) -> Float {
        Float {
            value: summed(self.value, s, bit),
        }
    }

    fn at_most(self, other: Float) -> bool {
        self.value <= other.value
    }

    fn to_plain(self) -> f32 {
        self.value
    }

    // A negative form, -0 or NaN is that of no cost.
    fn of_plain(p: f32) -> Float {
        if is_cost(p) {
            Float { value: p }
        } else {
            Self::ZERO
        }
    }
}

// The sum with the size of an overruled sample.
fn summed(sum: f32, s: f32, bit: bool) -> f32
    ensures { result ≡ summed sum s bit }
{
    let overruled = if bit { s > 0.0 } else { s < 0.0 };
    if overruled { sum + s.abs() } else { sum }
}

#[tactic(auto, using(crate::specs::SumLaws::is_cost_where))]
fn is_cost(p: f32) -> bool
    ensures { result ≡ is_cost p }
{
    !p.is_nan() && p.is_sign_positive()
}
