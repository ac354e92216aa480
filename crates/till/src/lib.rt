#![tactic(auto)]

pub mod calls;
pub mod faults;
pub mod payout;
pub mod till;
