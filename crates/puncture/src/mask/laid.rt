// The mask as a line: the place of a coded bit is found without a walk over the tables.
ghost use Rattle.std.specs.Prelude.{◌≡◌, ◌+◌, ◌*◌, ◌≤◌, length};
ghost use Rattle.puncture.specs.Patterns.{kept, numbered, raised};
ghost use Rattle.puncture.specs.Strips.{past_middles, past_prefix, pattern_of, suits};
ghost use Rattle.puncture.specs.Masking.{mask_laws};
ghost use Rattle.puncture.specs.declared.mask.Mask.TheVariants.{Sound};

use super::{Mask, Packed};
use line::laying::Line;

impl Line for Mask {
    ghost coded = { λ l. length (pattern_of l) };

    ghost sent = { λ l. kept (pattern_of l) };

    ghost suited = { λ l. suits l };

    ghost place = { λ l j. numbered (pattern_of l) j };

    ghost within = { mask_laws.within };

    ghost apart = { mask_laws.apart };

    ghost filled = { mask_laws.filled };

    ghost ended = { mask_laws.ended };

    fn coded_bits(&self) -> usize {
        match self {
            Mask::Sound(packed) => packed.coded_bits(),
            Mask::Faulty { coded } => *coded,
        }
    }

    #[tactic(auto, using(crate::specs::PatternsLemmas::kept_ones))]
    fn burst_bits(&self) -> usize {
        match self {
            Mask::Sound(packed) => packed.burst_bits(),
            Mask::Faulty { coded } => *coded,
        }
    }

    fn suits(&self) -> bool {
        matches!(self, Mask::Sound(_))
    }

    #[tactic(auto, using(crate::specs::PatternsLemmas::numbered_whole))]
    fn place_of(&self, j: usize) -> Option<(usize, bool)> {
        match self {
            Mask::Sound(packed) => packed.place_of(j),
            Mask::Faulty { coded } => (j < *coded).then_some((j, false)),
        }
    }
}

impl Packed {
    #[tactic(auto, using(crate::specs::Masking::length_strips))]
    fn coded_bits(&self) -> usize
        ensures { result ≡ length (pattern_of (Sound self.now)) }
    {
        self.prefix.length + self.times * self.middle.length + self.left + self.suffix.length
    }

    #[tactic(auto, using(crate::specs::Masking::held_within, crate::specs::Masking::turns_fit, crate::specs::Masking::kept_pattern))]
    fn burst_bits(&self) -> usize
        ensures { result ≡ kept (pattern_of (Sound self.now)) }
    {
        self.prefix.kept() + self.times * self.middle.kept() + self.left + self.suffix.kept()
    }

    #[tactic(auto, using(crate::specs::Masking::parts))]
    fn place_of(&self, j: usize) -> Option<(usize, bool)>
        ensures { result ≡ numbered (pattern_of (Sound self.now)) j }
    {
        if j < self.prefix.length {
            self.prefix.number_of(j, 0)
        } else {
            self.place_past_prefix(j - self.prefix.length, self.prefix.kept())
        }
    }

    // Places are counted from the end of the part before; so many bits of it and before it are kept.
    #[tactic(auto, using(crate::specs::Masking::parts))]
    fn place_past_prefix(&self, j: usize, before: usize) -> Option<(usize, bool)>
        requires { before ≤ self.now.prefix.length }
        ensures { result ≡ raised before (numbered (past_prefix self.now) j) }
    {
        let period = self.middle.length;
        let kept = self.middle.kept();
        if j < self.times * period {
            self.middle
                .number_of(j % period, before + j / period * kept)
        } else {
            self.place_past_middles(j - self.times * period, before + self.times * kept)
        }
    }

    #[tactic(auto, using(crate::specs::Masking::parts))]
    fn place_past_middles(&self, j: usize, before: usize) -> Option<(usize, bool)>
        requires { before ≤ self.now.prefix.length + self.now.times * self.now.middle.length }
        ensures { result ≡ raised before (numbered (past_middles self.now) j) }
    {
        if j < self.left {
            Some((before + j, false))
        } else {
            self.suffix.number_of(j - self.left, before + self.left)
        }
    }
}
