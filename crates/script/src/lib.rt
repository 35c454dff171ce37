//! The calls of the script language, one a line. docs/SCRIPT.md has the language in words.

#![tactic(auto)]

pub mod call;
pub mod items;
mod keys;
pub mod line;
pub mod sought;
