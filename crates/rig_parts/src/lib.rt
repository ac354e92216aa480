#![tactic(auto)]

pub mod faults;
pub mod record;
pub mod told;
