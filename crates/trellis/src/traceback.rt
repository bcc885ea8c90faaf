// The traceback: from the empty register after the last step, back along the marks of the path record. The record is lent, so each
// function asks for its length: of a struct that holds it, with that as an invariant, the check makes no proof.
ghost use Rattle.std.specs.Prelude.{◌≡◌, ℕ, ◌*◌, ◌^◌, ◌<◌, Bool, List, map, reverse, length, take, Option, slice_index};
ghost use Rattle.trellis.specs.Bits.{bit_of};
ghost use Rattle.trellis.specs.Tracing.{Recorded, Headed};

use crate::register::shifted_back;
use crate::windows::Trellis;

impl Trellis {
    // Leaves the bits of the path that the empty register kept, the first first, at the front of the record.
    pub(crate) fn traceback(&self, paths: &mut [u8])
        requires whole { length paths.old ≡ self.now.steps * 2 ^ self.now.code.memory }
        ensures { (kept : ℕ → ℕ → Option (List Bool)) (path : List Bool) → Recorded self.now.code.memory self.now.steps kept path paths.old → take self.now.steps paths.new ≡ map bit_of (reverse path) }
    {
        self.trace(paths);
        self.gather(paths);
    }

    // Goes back a step at a time and writes the bit that entered at the head of the step's row.
    // By step number, since it reads and writes one slice.
    fn trace(&self, paths: &mut [u8])
        requires whole { length paths.old ≡ self.now.steps * 2 ^ self.now.code.memory }
        ensures { (kept : ℕ → ℕ → Option (List Bool)) (path : List Bool) → Recorded self.now.code.memory self.now.steps kept path paths.old → (length path ≡ self.now.steps) × Headed self.now.code.memory self.now.steps path paths.new }
    {
        let memory = self.code.memory;
        let mut register = 0;
        for t in (0..self.steps).rev() {
            let row = t << memory;
            let mark = paths[row + register] & 1;
            paths[row] = (register & 1) as u8;
            register = shifted_back(register, mark, memory);
        }
    }

    // Moves the head of each row to its place at the front. By index for the same reason.
    fn gather(&self, paths: &mut [u8])
        requires whole { length paths.old ≡ self.now.steps * 2 ^ self.now.code.memory }
        ensures { (i : ℕ) → i < self.now.steps → slice_index paths.new i ≡ slice_index paths.old (i * 2 ^ self.now.code.memory) }
    {
        let memory = self.code.memory;
        for i in 0..self.steps {
            paths[i] = paths[i << memory];
        }
    }
}
