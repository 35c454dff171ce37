//! The ordered map over a key space, and what two lists of entries have in common. docs/VALUES.md has the rules, under
//! "Maps".

#![tactic(auto)]

pub mod content;
pub mod entry;
pub mod map;
