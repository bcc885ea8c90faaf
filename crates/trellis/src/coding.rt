// The encoder: a run is coded step by step.
ghost use Rattle.std.specs.Prelude.{◌≡◌, ℕ, ◌<◌, ◌≤◌, true, false, map, length, slice_index, slice_index_or};
ghost use Rattle.trellis.specs.Bits.{odd, bits};
ghost use Rattle.trellis.specs.Codes.{summed, sound};
ghost use Rattle.trellis.specs.Coding.{coded_bit};

use crate::code::Code;
use crate::register::{masked, window};
use crate::windows::row_bit;

impl Code {
    // Puts the coded bits of a run in their order, as many as there is room for; zeros enter after the run's end. A byte of the run counts
    // as a one where it is odd. Of an unsound code it puts none.
    pub fn encode(&self, run: &[u8], coded: &mut [bool])
        ensures coded { sound self.now ≡ true → (j : ℕ) → j < length coded.old → slice_index_or coded.new j false ≡ coded_bit self.now (map odd run.now) j }
        ensures unsound { sound self.now ≡ false → coded.new ≡ coded.old }
    {
        if !self.is_sound() {
            return;
        }
        let room = coded.len();
        let mut register = 0;
        for t in 0..room.div_ceil(self.rows) {
            let window = window(register, entering(run, t));
            let start = t * self.rows;
            // By range, since of `chunks_mut` a proof keeps the lengths alone.
            self.put_step(window as u8, &mut coded[start..room.min(start + self.rows)]);
            register = masked(window, self.memory);
        }
    }

    // Puts the bits that the rows send at a window, as many as there is room for.
    fn put_step(&self, window: u8, step: &mut [bool])
        requires { (length step.old ≤ self.now.rows) × (self.now.rows ≤ 5) }
        ensures { (i : ℕ) → i < length step.old → slice_index_or step.new i false ≡ summed (slice_index self.now.taps i) (bits 8 window) }
    {
        for (i, bit) in step.iter_mut().enumerate() {
            *bit = row_bit(window, self.taps[i]);
        }
    }
}

// The bit of the run that enters at step t, a zero after the run's end.
fn entering(run: &[u8], t: usize) -> bool
    ensures { result ≡ slice_index_or (map odd run.now) t false }
{
    run.get(t).is_some_and(|byte| *byte & 1 == 1)
}
