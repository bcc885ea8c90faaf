// A kind of cost by its name, and how it hears a bit of some strength.
use cost::count::Count;
use cost::float::Float;
use cost::kind::Cost;
use cost::ranked::Ranked;

pub(crate) trait Voiced: Cost {
    const NAME: &'static str;

    // The sample of a bit with a strength of 1 to 127, where the kind knows strength.
    fn sample(bit: bool, strength: u8) -> Self::Sample;
}

impl Voiced for Count {
    const NAME: &'static str = "count";

    fn sample(bit: bool, _: u8) -> u8 {
        bit as u8
    }
}

impl Voiced for Ranked {
    const NAME: &'static str = "ranked";

    fn sample(bit: bool, strength: u8) -> i8 {
        let level = i8::try_from(strength).unwrap_or(i8::MAX);
        if bit { -level } else { level }
    }
}

impl Voiced for Float {
    const NAME: &'static str = "float";

    // Seventeenths, so that the sums of the sizes are rounded; 200 on top keeps the sizes close together, so that the message sent wins.
    fn sample(bit: bool, strength: u8) -> f32 {
        let size = f32::from(u16::from(strength) + 200) / 17.0;
        if bit { -size } else { size }
    }
}
