// The trellis of a sound code. A window is a register with the newest bit, window = 2 * register + bit.
ghost use Rattle.std.specs.Prelude.{◌≡◌, ℕ, ◌^◌, ◌<◌, ◌≤◌, true, false, ◌&&◌, MatchOption, slice_index_or};
ghost use Rattle.trellis.specs.Bits.{bits};
ghost use Rattle.trellis.specs.Codes.{summed, rows_of, sound};
ghost use Rattle.trellis.specs.Decoding.{in_range};
ghost use Rattle.trellis.specs.Windows.{Coded};

use crate::code::Code;
use cost::kind::MOST_WINDOWS;

const MOST_STEPS: usize = 2048;

// A sound code, the steps that it runs, and the coded bit that each of its rows sends at each window.
#[derive(Drop)]
pub(crate) struct Trellis {
    pub(crate) code: Code,
    pub(crate) steps: usize,
    pub(crate) table: [[bool; MOST_WINDOWS]; 5],
    ghost checked: { sound code ≡ true },
    ghost closed: { code.memory ≤ steps },
    ghost few: { steps ≤ 2048 },
    ghost coded: { Coded (rows_of code) table },
}

// The window's bits that the taps select, summed modulo 2.
pub(crate) fn row_bit(window: u8, taps: u8) -> bool
    ensures { result ≡ summed taps (bits 8 window) }
{
    (window & taps).count_ones() % 2 == 1
}

// The bit that a row of taps sends at each window.
fn row_bits(taps: u8) -> [bool; MOST_WINDOWS]
    ensures { (w : ℕ) → w < MOST_WINDOWS → slice_index_or result w false ≡ summed taps (bits 8 w) }
{
    let mut bits = [false; MOST_WINDOWS];
    for (window, bit) in bits.iter_mut().enumerate() {
        *bit = row_bit(window as u8, taps);
    }
    bits
}

// The bit that each row of a code sends at each window.
fn coded_bits(code: &Code) -> [[bool; MOST_WINDOWS]; 5]
    ensures { Coded (rows_of code.now) result }
{
    let mut table = [[false; MOST_WINDOWS]; 5];
    for (i, bits) in table.iter_mut().enumerate() {
        *bits = row_bits(code.taps[i]);
    }
    table
}

impl Trellis {
    // Nothing where the code is unsound, or the steps are fewer than its closing zeros or too many.
    pub(crate) fn new(code: &Code, steps: usize) -> Option<Trellis>
        ensures { MatchOption result ((sound code.now && in_range code.now steps) ≡ false) (λ t. (t.code ≡ code.now) × (t.steps ≡ steps)) }
    {
        if !code.is_sound() || !(code.memory..=MOST_STEPS).contains(&steps) {
            return None;
        }
        Some(Trellis {
            code: *code,
            steps,
            table: coded_bits(code),
        })
    }

    pub(crate) fn registers(&self) -> usize
        ensures { result ≡ 2 ^ self.now.code.memory }
    {
        1 << self.code.memory
    }
}
