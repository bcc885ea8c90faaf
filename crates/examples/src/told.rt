// What a receiver is expected to tell of a block.
use cost::count::Count;
use cost::kind::Cost;
use link::report::Report;

pub(crate) fn report(block: usize, cost: u16, heard: usize) -> Report<Count> {
    Report {
        block,
        cost: Count::of_plain(cost),
        heard,
    }
}
