// The sizes of the samples that speak against the path, added up in single precision.
ghost use Rattle.std.specs.Prelude.{◌≡◌, true};
ghost use Rattle.cost.specs.Sums.{is_cost};

pub mod shown;
pub mod weigh;

// From zero up, and always a number: neither negative, -0 included, nor NaN. Infinity is a cost.
#[derive(Clone, Copy, PartialEq, PartialOrd, Debug)]
pub struct Float {
    value: f32,
    ghost cost: { is_cost value ≡ true },
}
