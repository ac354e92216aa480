#![tactic(auto)]

pub mod call;
pub mod faults;
pub mod reader;
pub mod view;
pub mod word;
