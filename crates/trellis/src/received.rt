// What the coded bits of one block meet: nothing where a bit is not sent, else a sample and whether the bit was turned over.
ghost use Rattle.std.specs.Prelude.{◌≡◌, ℕ, Bool, List};
ghost use Rattle.trellis.specs.Met.{listed, weighed};

use cost::kind::Cost;

pub trait Received {
    type Sample: Copy;

    ghost met: { Self → ℕ → List (Self.Sample × Bool) };

    // A pair: whether the bit was turned tells nothing of whether it was sent.
    fn met_at(&self, j: usize) -> Option<(Self::Sample, bool)>
        ensures { listed result ≡ met self.now j };
}

// An unfit sample is read as nothing.
pub fn weighed<C: Cost>(sample: C::Sample) -> C::Sample
    ensures { result ≡ weighed C.Cost sample }
{
    if C::is_fit(sample) {
        sample
    } else {
        C::NOTHING
    }
}
