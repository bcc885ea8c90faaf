// Worked examples, as tests.
#![tactic(auto)]

#[cfg(test)]
mod bench;
#[cfg(test)]
mod bursts;
#[cfg(test)]
mod codes;
#[cfg(test)]
mod floats;
#[cfg(test)]
mod limits;
#[cfg(test)]
mod lines;
#[cfg(test)]
mod masks;
#[cfg(test)]
mod ranked;
#[cfg(test)]
mod recordings;
#[cfg(test)]
mod sending;
#[cfg(test)]
mod taken;
#[cfg(test)]
mod told;
