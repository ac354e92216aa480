#![tactic(auto)]

pub mod faults;
pub mod kinds;
pub mod lock;
