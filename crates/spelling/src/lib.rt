//! What words of the script language spell: numbers and names, and why a line is no call.
//! docs/SCRIPT.md has the language in words.

#![tactic(auto)]

pub mod bad;
pub mod layers;
pub mod names;
pub mod numbers;
