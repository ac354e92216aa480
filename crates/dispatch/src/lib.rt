#![tactic(auto)]

pub mod dispatch;
pub mod reply;
