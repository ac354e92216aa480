#![tactic(auto)]

pub mod party;
pub mod steps;
pub mod words;
pub mod wrapping;
