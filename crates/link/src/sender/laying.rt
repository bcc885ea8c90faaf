// Laying bits by burst place: those of a block in the ring, and those that a burst takes from the ring.
ghost use Rattle.std.specs.Prelude.{◌≡◌, ◌<◌, ◌≤◌, ◌+◌, ◌*◌, ℕ, Bool, false, List, map, length, reverse, replicate, slice_index_or};
ghost use Rattle.trellis.specs.Bits.{bit_of, bits, odd, xor};
ghost use Rattle.trellis.specs.Parity.{with_parity};
ghost use Rattle.link.specs.Due.{laid_at, stored};
ghost use Rattle.link.specs.Sending.{ByPlace, BlockByPlace, BurstFromRing, carried};

use crate::format::Format;
use crate::format::agree::{MOST_BURST, MOST_CODED, MOST_MESSAGE, MOST_PARITY};
use crate::ring::Ring;
use line::laying::Line;
use trellis::parity::remainder_of;

const MOST_RUN: usize = MOST_MESSAGE + MOST_PARITY;

// The bit of each coded place, at the burst place k where it goes and as it is turned over there or not.
trait PlacedBits {
    ghost bit: { Self → ℕ → ℕ → Bool → Bool };

    fn bit(&self, j: usize, k: usize, turned: bool) -> bool
        requires { k < MOST_BURST }
        ensures { result ≡ bit self.now j k turned };
}

// The coded bits of a block, before turning. Past the last of them a code makes zeros alone.
#[derive(Drop)]
struct Coded<'b> {
    bits: &'b [bool],
}

impl<'b> PlacedBits for Coded<'b> {
    ghost bit = { λ b j k turned. slice_index_or b.bits.now j false };

    fn bit(&self, j: usize, _: usize, _: bool) -> bool {
        self.bits.get(j).is_some_and(|bit| *bit)
    }
}

// The bits that burst `number` takes from the ring.
#[derive(Drop)]
struct Carried<'r, 'a, 'f, L> {
    ring: &'r Ring<'a, 'f, u8, L>,
    number: usize,
}

impl<'r, 'a, 'f, L> Carried<'r, 'a, 'f, L> {
    // What the burst carries at place k before turning.
    fn carried(&self, k: usize) -> bool
        requires { k < MOST_BURST }
        ensures { result ≡ carried self.now.ring.now.format.now self.now.ring.now.cells.now self.now.number k }
    {
        let back = k % self.ring.format.depth;
        if back > self.number {
            return false;
        }
        let byte = self.ring.sample(self.number - back, k);
        byte.is_some_and(|byte| byte > 0)
    }
}

impl<'r, 'a, 'f, L> PlacedBits for Carried<'r, 'a, 'f, L> {
    ghost bit = { λ b j k turned. xor turned (carried b.ring.now.format.now b.ring.now.cells.now b.number k) };

    fn bit(&self, _: usize, k: usize, turned: bool) -> bool {
        turned != self.carried(k)
    }
}

// Writes the lowest bits of a number, the highest first.
fn write_bits(number: u32, row: &mut [u8])
    requires { length row.old ≤ 16 }
    ensures { row.new ≡ map bit_of (reverse (bits (length row.old) number)) }
{
    let highest = row.len();
    for (place, bit) in row.iter_mut().enumerate() {
        *bit = ((number >> (highest - 1 - place)) & 1) as u8;
    }
}

// Writes a run: a message, and its parity in the zeros after it.
fn write_run(message: &[u8], width: usize, run: &mut [u8])
    requires width { width ≤ 16 }
    requires zeros { run.old ≡ replicate (length message.now + width) 0 }
    ensures { map odd run.new ≡ with_parity width (map odd message.now) }
{
    let end = message.len();
    run[..end].copy_from_slice(message);
    let remainder = remainder_of(run);
    write_bits(remainder, &mut run[end..]);
}

impl<L: Line> Format<L> {
    // Puts each bit that is sent at its burst place. Of a format that was agreed on no place is left over, and none answered lies past the
    // burst; a format does not carry the proof of it, so it is tested.
    fn fill<B: PlacedBits>(&self, bits: &B, row: &mut [u8])
        requires { length row.old ≡ self.now.burst }
        ensures { ByPlace L.Line self.now (B.PlacedBits.bit bits.now) row.new }
    {
        for j in 0..self.line.coded_bits() {
            let Some((k, turned)) = self.line.place_of(j) else {
                continue;
            };
            if k < row.len() {
                row[k] = bits.bit(j, k, turned) as u8;
            }
        }
    }

    // Keeps the bits of block `number` in its cells of the ring.
    pub(super) fn keep(&self, number: usize, message: &[u8], ring: &mut [u8])
        requires message { length message.now ≡ self.now.message }
        requires room { self.now.depth * self.now.burst ≤ length ring.old }
        ensures { (block : List ℕ) × BlockByPlace L.Line self.now (map odd message.now) block × (ring.new ≡ stored self.now number block ring.old) }
    {
        let mut protected = [0; MOST_RUN];
        let run = &mut protected[..self.message + self.parity];
        write_run(message, self.parity, run);
        let mut bits = [false; MOST_CODED];
        let coded = &mut bits[..self.code.rows * self.steps()];
        self.code.encode(run, coded);
        let mut places = [0; MOST_BURST];
        let block = &mut places[..self.burst];
        self.fill(&Coded { bits: coded }, block);
        self.store(number, block, ring);
    }

    // Puts burst `number` at the front of the burst memory. The ring is only read.
    pub(super) fn put(&self, number: usize, ring: &mut [u8], burst: &mut [u8])
        requires { self.now.burst ≤ length burst.old }
        ensures put { (row : List ℕ) × BurstFromRing L.Line self.now number ring.old row × (burst.new ≡ laid_at 0 row burst.old) }
        ensures ring { ring.new ≡ ring.old }
    {
        let ring = Ring::new(ring, self);
        let carried = Carried {
            ring: &ring,
            number,
        };
        self.fill(&carried, &mut burst[..self.burst]);
    }
}
