//! A carrier over lent memory, for any way to write items as numbers: a queue with a place to take from and a place to
//! write at. docs/CARRIERS.md has the rules in words.

#![tactic(auto)]

pub mod coding;
pub mod lent;
