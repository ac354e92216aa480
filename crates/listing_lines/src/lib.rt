#![tactic(auto)]

mod digits;
pub mod faults;
mod line;
pub mod lines;
