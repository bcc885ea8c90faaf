// The decoder: the path that the trellis rule answers, and its cost.
ghost use Rattle.std.specs.Prelude.{◌≡◌, ◌*◌, ◌^◌, true, false, length, None};
ghost use Rattle.trellis.specs.Codes.{rows_of};
ghost use Rattle.trellis.specs.Decoding.{Answered, Decodes, has_room, ready};
ghost use Rattle.trellis.specs.Met.{read};

use crate::code::Code;
use crate::received::Received;
use crate::windows::Trellis;
use cost::kind::Cost;

impl Trellis {
    // Whether the steps can run in so much memory.
    fn has_room(&self, cells: usize, paths: usize) -> bool
        ensures { result ≡ has_room self.now.code self.now.steps cells paths }
    {
        let registers = self.registers();
        2 * registers <= cells && self.steps * registers <= paths
    }

    // Forward through all the steps, and back along the path that the empty register kept.
    fn answer<C: Cost, H: Received<Sample = C::Sample>>(
        &self,
        heard: &H,
        cells: &mut [Option<C::Plain>],
        paths: &mut [u8],
    ) -> Option<C>
        requires cells { length cells.old ≡ 2 * 2 ^ self.now.code.memory }
        requires paths { length paths.old ≡ self.now.steps * 2 ^ self.now.code.memory }
        ensures { Answered C.Cost (rows_of self.now.code) (read C.Cost (H.Received.met heard.now)) self.now.code.memory self.now.steps result paths.new }
    {
        let cost = self.forward::<C, H>(heard, cells, paths);
        self.traceback(paths);
        cost
    }
}

// The cost of the answer on what was heard, its bits left at the front of the path record; nothing where the decoder cannot run.
// What was heard and the memory are of one block and of no type here: each is handed by itself.
pub fn decide<C: Cost, H: Received<Sample = C::Sample>>(
    code: &Code,
    steps: usize,
    heard: &H,
    cells: &mut [Option<C::Plain>],
    paths: &mut [u8],
) -> Option<C>
    ensures decided { ready code.now steps (length cells.old) (length paths.old) ≡ true → Decodes C.Cost (rows_of code.now) (read C.Cost (H.Received.met heard.now)) code.now.memory steps result cells.old cells.new paths.old paths.new }
    ensures refused { ready code.now steps (length cells.old) (length paths.old) ≡ false → (result ≡ None) × (cells.new ≡ cells.old) × (paths.new ≡ paths.old) }
{
    let trellis = Trellis::new(code, steps)?;
    if !trellis.has_room(cells.len(), paths.len()) {
        return None;
    }
    let registers = trellis.registers();
    let rows = &mut cells[..2 * registers];
    let record = &mut paths[..trellis.steps * registers];
    trellis.answer::<C, H>(heard, rows, record)
}
