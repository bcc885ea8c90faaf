// The forward pass of the trellis: the path that each register keeps, step by step.
ghost use Rattle.std.specs.Prelude.{◌≡◌, ℕ, suc, ◌+◌, ◌*◌, ◌/◌, ◌^◌, ◌<◌, ◌≤◌, true, false, length, Some, None, slice_index, slice_index_or};
ghost use Rattle.trellis.specs.Bits.{xor};
ghost use Rattle.trellis.specs.Cells.{Cells, Marked, MarkedBelow, cost_kept, kept_at};
ghost use Rattle.trellis.specs.Codes.{rows_of};
ghost use Rattle.trellis.specs.Met.{read};
ghost use Rattle.trellis.specs.Windows.{Chosen, ChosenMarks, Grown, LaidLower, MarkedLower, Spread, Whole, enters, first_cell};

use crate::received::{Received, weighed};
use crate::register::{dropped, masked, register_before, window};
use crate::windows::Trellis;
use cost::kind::{Cost, MOST_WINDOWS};
use std::mem::swap;

// Takes up each register's cost into both its windows, and tells whether every register was reached.
fn spread<C: Cost>(old: &[Option<C::Plain>], costs: &mut [C]) -> bool
    requires room { length costs.old ≡ 2 * length old.now }
    requires few { length costs.old ≤ MOST_WINDOWS }
    ensures costs { Spread C.Cost old.now costs.new }
    ensures whole { result ≡ true → Whole old.now }
{
    let mut whole = true;
    for (p, &cell) in old.iter().enumerate() {
        match cell {
            Some(plain) => {
                let cost = C::of_plain(plain);
                costs[window(p, false)] = cost;
                costs[window(p, true)] = cost;
            }
            None => whole = false,
        }
    }
    whole
}

// Grows each window by one sample against its coded bit.
fn grow_row<C: Cost>(costs: &mut [C], bits: &[bool; MOST_WINDOWS], sample: C::Sample, turned: bool)
    requires few { length costs.old ≤ MOST_WINDOWS }
    requires fit { C.Cost.fit sample ≡ true }
    ensures { (w : ℕ) → w < length costs.old → slice_index_or costs.new w C.Cost.ZERO ≡ C.Cost.grow (slice_index_or costs.old w C.Cost.ZERO) sample (xor (slice_index_or bits.now w false) turned) }
{
    for (w, cost) in costs.iter_mut().enumerate() {
        *cost = cost.grown(sample, bits[w] ^ turned);
    }
}

// No path has reached any register yet.
fn clear<P: Copy>(new: &mut [Option<P>], marks: &mut [u8])
    ensures cells { (s : ℕ) → s < length new.old → slice_index_or new.new s None ≡ None }
    ensures marks { (s : ℕ) → s < length marks.old → slice_index marks.new s ≡ 0 }
{
    new.fill(None);
    marks.fill(0);
}

// Whether a path goes on into a cell: where another has come before the two meet, and that one stays unless it is dearer.
fn enters<C: Cost>(cell: Option<C::Plain>, cost: C) -> bool
    ensures { result ≡ enters C.Cost cell cost }
{
    match cell {
        None => true,
        Some(plain) => !C::of_plain(plain).at_most(cost),
    }
}

// Each register keeps the lower of its two windows, where any may be unreached: in the order of the windows, each path goes on into the
// register of its window, and the first of two that meet is the one that drops a 0.
fn meet_reached<C: Cost>(
    memory: usize,
    old: &[Option<C::Plain>],
    costs: &[C],
    new: &mut [Option<C::Plain>],
    marks: &mut [u8],
)
    requires wide { (memory ≤ 4) × (length old.now ≡ 2 ^ memory) }
    requires room { (length costs.now ≡ 2 * length old.now) × ((length new.old ≡ length old.now) × (length marks.old ≡ length old.now)) }
    ensures cells { LaidLower C.Cost old.now costs.now new.new }
    ensures marks { MarkedLower C.Cost old.now costs.now marks.new }
{
    clear::<C::Plain>(new, marks);
    for (window, &cost) in costs.iter().enumerate() {
        let register = masked(window, memory);
        if old[register_before(window)].is_some() && enters::<C>(new[register], cost) {
            new[register] = Some(cost.to_plain());
            marks[register] = dropped(window, memory);
        }
    }
}

// Puts the lower of windows s and s + registers into window s, and marks which it was.
fn choose<C: Cost>(costs: &mut [C], marks: &mut [u8])
    requires room { length costs.old ≡ 2 * length marks.old }
    ensures kept { Chosen C.Cost (length marks.old) costs.old costs.new }
    ensures marks { ChosenMarks C.Cost (length marks.old) costs.old marks.new }
{
    let registers = marks.len();
    for (s, mark) in marks.iter_mut().enumerate() {
        let first = costs[s];
        let second = costs[s + registers];
        let stays = first.at_most(second);
        costs[s] = if stays { first } else { second };
        *mark = !stays as u8;
    }
}

// Lays the costs of the first windows down, one in each register's cell.
fn lay_down<C: Cost>(costs: &[C], new: &mut [Option<C::Plain>])
    requires { length new.old ≤ length costs.now }
    ensures { (s : ℕ) → s < length new.old → slice_index_or new.new s None ≡ Some (C.Cost.lay (slice_index_or costs.now s C.Cost.ZERO)) }
{
    for (s, cost) in costs[..new.len()].iter().enumerate() {
        // A cell made first and written whole: so the compiler lays many down at once.
        let cell = Some(cost.to_plain());
        new[s] = cell;
    }
}

// Each register keeps the lower of its two windows; where every register was reached, none has to be asked. Asked once a step, by a
// flag of all cells: the loop without tests is what makes the pass fast.
fn meet<C: Cost>(
    whole: bool,
    memory: usize,
    old: &[Option<C::Plain>],
    costs: &mut [C],
    new: &mut [Option<C::Plain>],
    marks: &mut [u8],
)
    requires room { (length costs.old ≡ 2 * length old.now) × ((length new.old ≡ length old.now) × (length marks.old ≡ length old.now)) }
    requires wide { (memory ≤ 4) × (length old.now ≡ 2 ^ memory) }
    requires whole { whole ≡ true → Whole old.now }
    ensures cells { LaidLower C.Cost old.now costs.old new.new }
    ensures marks { MarkedLower C.Cost old.now costs.old marks.new }
{
    if whole {
        choose::<C>(costs, marks);
        lay_down::<C>(costs, new);
    } else {
        meet_reached::<C>(memory, old, costs, new, marks);
    }
}

// Before the first step only register 0 is reached, at no cost.
fn start<C: Cost>(cells: &mut [Option<C::Plain>])
    ensures { (s : ℕ) → s < length cells.old → slice_index_or cells.new s None ≡ first_cell C.Cost s }
{
    for (s, cell) in cells.iter_mut().enumerate() {
        *cell = if s == 0 {
            Some(C::ZERO.to_plain())
        } else {
            None
        };
    }
}

impl Trellis {
    // Grows each window by the samples of step t, row by row; a bit that is not sent grows nothing.
    fn grow_rows<C: Cost, H: Received<Sample = C::Sample>>(
        &self,
        t: usize,
        heard: &H,
        costs: &mut [C],
    )
        requires few { (t < self.now.steps) × (length costs.old ≤ MOST_WINDOWS) }
        ensures { Grown C.Cost (rows_of self.now.code) (read C.Cost (H.Received.met heard.now)) t costs.old costs.new }
    {
        let rows = self.code.rows;
        for (i, bits) in self.table[..rows].iter().enumerate() {
            if let Some((sample, turned)) = heard.met_at(rows * t + i) {
                grow_row::<C>(costs, bits, weighed::<C>(sample), turned);
            }
        }
    }

    // One step: from the cells after t steps to those after one more, and the row of marks between them.
    // Inlined into the loop over the steps, it grows the windows of the ranked kind by branches, and takes a quarter to a half longer.
    #[inline(never)]
    fn step<C: Cost, H: Received<Sample = C::Sample>>(
        &self,
        t: usize,
        heard: &H,
        old: &[Option<C::Plain>],
        new: &mut [Option<C::Plain>],
        marks: &mut [u8],
    )
        requires within { t < self.now.steps }
        requires room { (length old.now ≡ 2 ^ self.now.code.memory) × ((length new.old ≡ 2 ^ self.now.code.memory) × (length marks.old ≡ 2 ^ self.now.code.memory)) }
        requires cells { Cells C.Cost (rows_of self.now.code) (read C.Cost (H.Received.met heard.now)) self.now.code.memory t old.now }
        ensures cells { Cells C.Cost (rows_of self.now.code) (read C.Cost (H.Received.met heard.now)) self.now.code.memory (suc t) new.new }
        ensures marks { (s : ℕ) → s < 2 ^ self.now.code.memory → Marked self.now.code.memory (kept_at C.Cost (rows_of self.now.code) (read C.Cost (H.Received.met heard.now)) self.now.code.memory) (slice_index marks.new s) t s }
    {
        let mut windows = [C::ZERO; MOST_WINDOWS];
        let costs = &mut windows[..2 * old.len()];
        let whole = spread::<C>(old, costs);
        self.grow_rows::<C, H>(t, heard, costs);
        meet::<C>(whole, self.code.memory, old, costs, new, marks);
    }

    // All the steps of a block. The two rows of cells are the halves of the lent memory, and change roles with each step.
    pub(crate) fn forward<C: Cost, H: Received<Sample = C::Sample>>(
        &self,
        heard: &H,
        cells: &mut [Option<C::Plain>],
        paths: &mut [u8],
    ) -> Option<C>
        requires cells { length cells.old ≡ 2 * 2 ^ self.now.code.memory }
        requires paths { length paths.old ≡ self.now.steps * 2 ^ self.now.code.memory }
        ensures marks { MarkedBelow self.now.code.memory (kept_at C.Cost (rows_of self.now.code) (read C.Cost (H.Received.met heard.now)) self.now.code.memory) paths.new self.now.steps }
        ensures value { result ≡ cost_kept C.Cost (rows_of self.now.code) (read C.Cost (H.Received.met heard.now)) (kept_at C.Cost (rows_of self.now.code) (read C.Cost (H.Received.met heard.now)) self.now.code.memory self.now.steps 0) }
    {
        let registers = self.registers();
        let (mut old, mut new) = cells.split_at_mut(registers);
        start::<C>(old);
        for t in 0..self.steps {
            // By range, since of `chunks_exact_mut` a proof keeps the lengths alone.
            let marks = &mut paths[t * registers..(t + 1) * registers];
            self.step::<C, H>(t, heard, old, new, marks);
            swap(&mut old, &mut new);
        }
        let last = old[0];
        last.map(|plain| C::of_plain(plain))
    }
}
