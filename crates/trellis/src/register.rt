// The register of a code as a number whose lowest bit is the newest. With the bit that enters it is the step's window.
ghost use Rattle.std.specs.Prelude.{◌≡◌, ◌+◌, ◌-◌, ◌*◌, ◌/◌, ◌%◌, ◌^◌, ◌<◌, ◌≤◌};
ghost use Rattle.trellis.specs.Bits.{bit_of};

// Shifts the entering bit in.
pub(crate) fn window(register: usize, bit: bool) -> usize
    requires { register < 128 }
    ensures { result ≡ register * 2 + bit_of bit }
{
    (register << 1) | bit as usize
}

// The register that a window comes from.
pub(crate) fn register_before(window: usize) -> usize
    ensures { result ≡ window / 2 }
{
    window >> 1
}

// Masks a window: the register after the step, without the bit that is older than the memory.
pub(crate) fn masked(window: usize, memory: usize) -> usize
    requires { memory ≤ 4 }
    ensures { result ≡ window % 2 ^ memory }
{
    window & ((1 << memory) - 1)
}

// The oldest bit of a window, which the mask drops.
pub(crate) fn dropped(window: usize, memory: usize) -> u8
    requires { (memory ≤ 4) × (window < 2 * 2 ^ memory) }
    ensures { result ≡ window / 2 ^ memory }
{
    (window >> memory) as u8
}

// A step back: shifts the newest bit out, and puts the bit that was dropped back as the oldest.
pub(crate) fn shifted_back(register: usize, dropped: u8, memory: usize) -> usize
    requires memory { (1 ≤ memory) × (memory ≤ 4) }
    requires bits { (register < 2 ^ memory) × (dropped ≤ 1) }
    ensures { result ≡ register / 2 + dropped * 2 ^ (memory - 1) }
{
    (register >> 1) | ((dropped as usize) << (memory - 1))
}
