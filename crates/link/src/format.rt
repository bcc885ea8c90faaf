// The format of a block that both ends agree on.
ghost use Rattle.std.specs.Prelude.{◌≡◌, ◌+◌, ◌*◌, ◌≤◌, true};
ghost use Rattle.trellis.specs.Codes.{sound};

use trellis::code::Code;

pub mod agree;

// Message and parity bits are the protected bits of a block; `depth` bursts carry it, `burst` bits each, as the line told when it was opened.
#[derive(Drop)]
pub struct Format<L> {
    pub(crate) code: Code,
    pub(crate) message: usize,
    pub(crate) parity: usize,
    pub(crate) depth: usize,
    pub(crate) burst: usize,
    pub(crate) line: L,
    ghost codes: { sound code ≡ true },
    ghost least_message: { 1 ≤ message },
    ghost most_message: { message ≤ 512 },
    ghost most_parity: { parity ≤ 16 },
    ghost most_coded: { code.rows * (message + parity + code.memory) ≤ 2048 },
    ghost least_depth: { 1 ≤ depth },
    ghost most_depth: { depth ≤ 3 },
    ghost most_burst: { burst ≤ 1024 },
}
