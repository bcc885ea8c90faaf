// The scrambler over any line: bits are turned over where the masking sequence has a one.
ghost use Rattle.std.specs.Prelude.{◌≡◌, ◌<◌, Bool, false, List, slice_index_or};
ghost use Rattle.line.specs.Lawful.{laws_of};
ghost use Rattle.line.specs.Lines.{scrambled_line};
ghost use Rattle.line.specs.LinesLemmas.{scrambled_laws};
ghost use Rattle.line.specs.Scrambler.{masking, number, register, value};

use crate::laying::Line;

// The first 1,024 values of the masking sequence, value k in bit k mod 64 of word k div 64.
const MASKING: [u64; 16] = [
    0xf7a831f0a423d8c8,
    0xde16c476993756b3,
    0xac1fe84071812506,
    0x282ef0e62254cdfa,
    0x1ce64a55bdfd8c0d,
    0xbab79fb141a785d1,
    0x42938f692376cb36,
    0x3402b80f902160c7,
    0x5a9ddf4cc3aa89ff,
    0xf50a3e3c848b1b3a,
    0x7b411b865915d67c,
    0xee92676d536feb60,
    0xb3d3a8e9f2742d38,
    0x2a12fc6e09643758,
    0xf8a013c068817307,
    0x0f082230cca2abcf,
];

// The elements at the start of a block, element 1 lowest.
const LOADED: u64 = 0x4d4b;

#[derive(Clone, Copy)]
pub struct Scrambled<L: Line>(pub L);

impl<L: Line> Line for Scrambled<L> {
    ghost coded = { (scrambled_line L.Line).coded };

    ghost sent = { (scrambled_line L.Line).sent };

    ghost suited = { (scrambled_line L.Line).suited };

    ghost place = { (scrambled_line L.Line).place };

    ghost within = { (scrambled_laws (laws_of L.Line)).within };

    ghost apart = { (scrambled_laws (laws_of L.Line)).apart };

    ghost filled = { (scrambled_laws (laws_of L.Line)).filled };

    ghost ended = { (scrambled_laws (laws_of L.Line)).ended };

    // Handed on by hand, as in every layer: a trait of layers would be longer.
    fn coded_bits(&self) -> usize {
        self.0.coded_bits()
    }

    fn burst_bits(&self) -> usize {
        self.0.burst_bits()
    }

    fn suits(&self) -> bool {
        self.0.suits()
    }

    fn place_of(&self, j: usize) -> Option<(usize, bool)> {
        let (k, turned) = self.0.place_of(j)?;
        Some((k, turned != masked(k)))
    }
}

// Whether the masking sequence has a one at place k: by the table, beyond it by the register.
fn masked(k: usize) -> bool
    ensures { result ≡ masking k }
{
    match MASKING.get(k / 64) {
        Some(word) => bit(*word, k % 64),
        None => value(run(k)),
    }
}

// The register after that many clocks, element 1 lowest. The clocks are only counted; nothing is indexed.
fn run(clocks: usize) -> u64
    ensures { result ≡ number (register clocks) }
{
    let mut elements = LOADED;
    for _ in 0..clocks {
        elements = ((elements & 0x3fff) << 1) | (value(elements) as u64);
    }
    elements
}

// The sum of the elements 1 and 15.
fn value(elements: u64) -> bool
    ensures { (bs : List Bool) → elements ≡ number bs → result ≡ value bs }
{
    bit(elements, 0) != bit(elements, 14)
}

// Bit i of a word.
fn bit(word: u64, i: usize) -> bool
    requires { i < 64 }
    ensures { (bs : List Bool) → word ≡ number bs → result ≡ slice_index_or bs i false }
{
    word >> i & 1 == 1
}
