// Which codes the trellis can run on.
ghost use Rattle.std.specs.Prelude.{◌≡◌, ◌+◌, ◌^◌, ◌≤◌};
ghost use Rattle.trellis.specs.Codes.{rows_of, all_below, sound};

use crate::code::Code;

impl Code {
    // 1 to 5 rows, a memory of 1 to 4 bits, no tap older than the memory, and the newest bit in the first row.
    pub fn is_sound(&self) -> bool
        ensures { result ≡ sound self.now }
    {
        (1..=5).contains(&self.rows)
            && (1..=4).contains(&self.memory)
            && self.taps_within_memory()
            && self.taps[0] & 1 == 1
    }

    // No row has a tap older than the memory.
    fn taps_within_memory(&self) -> bool
        requires rows { self.now.rows ≤ 5 }
        requires memory { self.now.memory ≤ 4 }
        ensures { result ≡ all_below (2 ^ (self.now.memory + 1)) (rows_of self.now) }
    {
        let past = 1 << (self.memory + 1);
        self.taps[..self.rows].iter().all(|taps| *taps < past)
    }
}
