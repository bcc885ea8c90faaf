// What a strip keeps, and how its kept entries are numbered.
ghost use Rattle.std.specs.Prelude.{◌≡◌, ◌+◌, ◌^◌, ◌<◌, false, take, slice_index_or};
ghost use Rattle.puncture.specs.Patterns.{kept, numbered, raised};
ghost use Rattle.puncture.specs.Strips.{held};

use super::Strip;

impl Strip {
    #[tactic(auto, using(crate::specs::Packing::read_bit))]
    fn keeps(&self, at: usize) -> bool
        requires { at < self.now.length }
        ensures { result ≡ slice_index_or (held self.now) at false }
    {
        (self.bits >> at) & 1 == 1
    }

    #[tactic(auto, using(crate::specs::Packing::count_before))]
    fn kept_before(&self, at: usize) -> usize
        requires { at < self.now.length }
        ensures { result ≡ kept (take at (held self.now)) }
    {
        (self.bits & ((1 << at) - 1)).count_ones() as usize
    }

    #[tactic(auto, using(crate::specs::Packing::count_all))]
    pub(crate) fn kept(&self) -> usize
        ensures { result ≡ kept (held self.now) }
    {
        self.bits.count_ones() as usize
    }

    // The number of an entry among the kept ones, after those kept before the strip.
    #[tactic(auto, using(crate::specs::Masking::numbering))]
    pub(crate) fn number_of(&self, at: usize, before: usize) -> Option<(usize, bool)>
        requires { before + self.now.length < 2 ^ 64 }
        ensures { result ≡ raised before (numbered (held self.now) at) }
    {
        if at < self.length && self.keeps(at) {
            Some((before + self.kept_before(at), false))
        } else {
            None
        }
    }
}
