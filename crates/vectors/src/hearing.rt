// The bursts as they are heard under a condition.
use crate::condition::Condition;
use crate::voiced::Voiced;
use link::refusal::Refusal;
use link::report::{Answer, Report};
use stations::station::Station;
use std::alloc::{AllocError, Global};

// The samples of a burst given as figures.
fn samples<C: Voiced>(
    heap: Global,
    condition: Condition,
    n: usize,
    burst: &[u8],
) -> Result<Vec<C::Sample>, AllocError> {
    burst
        .iter()
        .enumerate()
        .map(|(k, figure)| condition.heard::<C>(n, k, *figure == b'1'))
        .collect(heap)
}

// Burst n is heard or missed.
pub(crate) fn take<C: Voiced>(
    heap: Global,
    station: &mut Station<C>,
    condition: Condition,
    n: usize,
    burst: &[u8],
) -> Result<Result<Answer<C>, Refusal<Report<C>>>, AllocError> {
    if condition.loses(n) {
        return Ok(station.miss());
    }
    let heard = samples::<C>(heap, condition, n, burst)?;
    Ok(station.hear(&heard))
}
