//! Items that go through a carrier several at a time, proved from the carrier's meaning and laws alone.
//! docs/CARRIERS.md has the rules in words.

#![tactic(auto)]

pub mod calls;
pub mod cells;
