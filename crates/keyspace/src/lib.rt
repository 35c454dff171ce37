//! Key spaces and the index over them. docs/VALUES.md has the rules, under "Key spaces and the index".

#![tactic(auto)]

pub mod fields;
pub mod index;
pub mod name;
mod number;
pub mod slot;
pub mod space;
