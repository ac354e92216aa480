#![tactic(auto)]

pub mod calls;
pub mod lock;
pub mod one_value;
mod parts;
