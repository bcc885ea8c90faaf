// Parity of 16 bits over a run: a byte counts as a one where it is odd.
ghost use Rattle.std.specs.Prelude.{◌≡◌, ◌<◌, map, reverse};
ghost use Rattle.trellis.specs.Bits.{odd};
ghost use Rattle.trellis.specs.Parity.{reduced, remainder};

// The plain remainder of the run by the generator, the first bit having the highest power.
pub fn remainder_of(run: &[u8]) -> u32
    ensures { result ≡ remainder (reverse (map odd run.now)) }
{
    run.iter()
        .fold(0, |rem, byte| reduce((rem << 1) | (*byte & 1) as u32))
}

// Takes the generator away where the power 16 stands.
fn reduce(v: u32) -> u32
    ensures { result ≡ reduced v }
{
    if v >= 65536 { v ^ 0x11021 } else { v }
}
