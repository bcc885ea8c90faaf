// The convolutional code, and the trellis that answers the path of least cost.
#![tactic(auto)]

pub mod code;
mod code_check;
mod coding;
pub mod decide;
mod forward;
pub mod parity;
pub mod received;
mod register;
mod traceback;
mod windows;
