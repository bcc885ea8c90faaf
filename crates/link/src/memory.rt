// The memory lent at each hear and miss, and how much is lent at each end.
ghost use Rattle.std.specs.Prelude.{◌≡◌};
ghost use Rattle.link.specs.Calls.{lent, sizes};

use cost::kind::Cost;

// The ring of samples, the cost cells, the path record and the block memory. Each loan has a lifetime of its own, since the check
// does not cover parts of one lifetime that are passed on together.
#[derive(Drop)]
pub struct Memory<'r, 'c, 'p, 'b, C: Cost> {
    pub ring: &'r mut [C::Sample],
    pub costs: &'c mut [Option<C::Plain>],
    pub paths: &'p mut [u8],
    pub block: &'b mut [u8],
}

// How many elements each part of a memory has.
#[derive(Clone, Copy, Debug, PartialEq, Eq)]
pub struct Sizes {
    pub ring: usize,
    pub costs: usize,
    pub paths: usize,
    pub block: usize,
}

// The same of what is lent at each send: the ring of bits and the burst memory.
#[derive(Clone, Copy, Debug, PartialEq, Eq)]
pub struct SenderSizes {
    pub ring: usize,
    pub burst: usize,
}

impl<'r, 'c, 'p, 'b, C: Cost> Memory<'r, 'c, 'p, 'b, C> {
    pub fn sizes(&self) -> Sizes
        ensures { result ≡ sizes (lent self.now) }
    {
        Sizes {
            ring: self.ring.len(),
            costs: self.costs.len(),
            paths: self.paths.len(),
            block: self.block.len(),
        }
    }
}
