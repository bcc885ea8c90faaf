// The ring of the last bursts: sample k of burst n lies in cell (n mod depth) * burst + k.
ghost use Rattle.std.specs.Prelude.{◌≡◌, ◌+◌, ◌*◌, ◌<◌, ◌≤◌, length, replicate, slice_index_or, unwrap_or};
ghost use Rattle.link.specs.Due.{cell, laid_at, stored};

use crate::format::Format;
use crate::format::agree::MOST_BURST;

// A ring over cells that are lent: which of them are a burst's is told here, and what is done to them by functions over the slice.
#[derive(Drop)]
pub(crate) struct Ring<'a, 'f, S, L> {
    cells: &'a mut [S],
    pub(crate) format: &'f Format<L>,
}

impl<L> Format<L> {
    // How many cells the ring has, at either end.
    pub(crate) fn ring_cells(&self) -> usize
        ensures { result ≡ self.now.depth * self.now.burst }
    {
        self.depth * self.burst
    }

    // Stores burst n in a ring that is lent: a receiver's samples, or a sender's bits.
    pub(crate) fn store<S: Copy>(&self, n: usize, samples: &[S], ring: &mut [S])
        requires whole { length samples.now ≡ self.now.burst }
        requires room { self.now.depth * self.now.burst ≤ length ring.old }
        ensures { ring.new ≡ stored self.now n samples.now ring.old }
    {
        Ring::new(ring, self).store(n, samples);
    }

    // The same of a burst whose samples are all alike.
    pub(crate) fn store_same<S: Copy>(&self, n: usize, sample: S, ring: &mut [S])
        requires { self.now.depth * self.now.burst ≤ length ring.old }
        ensures { ring.new ≡ stored self.now n (replicate self.now.burst sample) ring.old }
    {
        Ring::new(ring, self).store_same(n, sample);
    }
}

impl<'a, 'f, S: Copy, L> Ring<'a, 'f, S, L> {
    pub(crate) fn new(cells: &'a mut [S], format: &'f Format<L>) -> Ring<'a, 'f, S, L>
        ensures cells { result.cells.now ≡ cells.old }
        ensures same { result.cells.ghost_name ≡ cells.entry.ghost_name }
        ensures format { result.format.now ≡ format.now }
    {
        Ring { cells, format }
    }

    // Where burst n begins.
    fn start(&self, n: usize) -> usize
        ensures { result ≡ cell self.now.format.now n 0 }
    {
        n % self.format.depth * self.format.burst
    }

    // Burst n in its cells.
    pub(crate) fn store(&mut self, n: usize, samples: &[S])
        requires whole { length samples.now ≡ self.old.format.now.burst }
        requires room { self.old.format.now.depth * self.old.format.now.burst ≤ length self.old.cells.now }
        ensures cells { self.new.cells.now ≡ stored self.old.format.now n samples.now self.old.cells.now }
        ensures same { self.new.cells.ghost_name ≡ self.old.cells.ghost_name }
    {
        let at = self.start(n);
        lay(samples, at, self.cells);
    }

    // Burst n as one whose samples are all the same.
    pub(crate) fn store_same(&mut self, n: usize, sample: S)
        requires { self.old.format.now.depth * self.old.format.now.burst ≤ length self.old.cells.now }
        ensures cells { self.new.cells.now ≡ stored self.old.format.now n (replicate self.old.format.now.burst sample) self.old.cells.now }
        ensures same { self.new.cells.ghost_name ≡ self.old.cells.ghost_name }
    {
        let at = self.start(n);
        lay_same(sample, self.format.burst, at, self.cells);
    }

    // Sample k of burst n, if the ring reaches so far.
    pub(crate) fn sample(&self, n: usize, k: usize) -> Option<S>
        requires { k < MOST_BURST }
        ensures { (past : S) → unwrap_or result past ≡ slice_index_or self.now.cells.now (cell self.now.format.now n k) past }
    {
        read(self.start(n) + k, self.cells)
    }
}

// Lays samples over the cells, from a place on.
fn lay<S: Copy>(samples: &[S], at: usize, cells: &mut [S])
    requires { at + length samples.now ≤ length cells.old }
    ensures { cells.new ≡ laid_at at samples.now cells.old }
{
    cells[at..at + samples.len()].copy_from_slice(samples);
}

// Lays so many times the same sample. `fill` would ask for a clone that cannot fail, and Copy does not promise one.
fn lay_same<S: Copy>(sample: S, count: usize, at: usize, cells: &mut [S])
    requires { at + count ≤ length cells.old }
    ensures { cells.new ≡ laid_at at (replicate count sample) cells.old }
{
    let part = &mut cells[at..at + count];
    for cell in part.iter_mut() {
        *cell = sample;
    }
}

// The sample at a place, if the cells reach so far.
fn read<S: Copy>(at: usize, cells: &[S]) -> Option<S>
    ensures { (past : S) → unwrap_or result past ≡ slice_index_or cells.now at past }
{
    cells.get(at).copied()
}
