//! Items in 64-bit words, and a carrier over a row of them.
//!
//! An item's code begins with the number of its kind. Behind it stand, for a truth 0 or 1, for a
//! whole its two's complement, for a single and a double its bits, for a run its length and a word
//! for each byte, for a fixed a word for each byte.

#![tactic(auto)]

ghost use Rattle.std.specs.Prelude.{◌≡◌, [], length};
ghost use Rattle.carrier.specs.Items.{Laws};
ghost use Rattle.queue.specs.Queues.{state_of};
ghost use Rattle.words.specs.Words.{word_code};

mod coding;
mod finding;
mod writing;

use queue::lent::Queue;

/// The number of an item's kind, which stands first in its code.
// An enum of its own: one with the nouns of the script language would tie the code to that language.
#[derive(Clone, Copy)]
enum Tag {
    Truth = 0,
    Whole = 1,
    Single = 2,
    Double = 3,
    Run = 4,
    Fixed = 5,
}

/// The code of items in words.
#[derive(Clone, Copy)]
pub struct Words;

/// A queue of words in lent memory.
pub type WordCarrier<'a> = Queue<'a, Words>;

/// An empty carrier, with as much room as the memory has words.
pub fn on_memory(words: &mut [u64]) -> WordCarrier<'_>
    ensures row_is_empty { (state_of result).row ≡ [] }
    ensures capacity_is_the_memory { (state_of result).capacity ≡ length words.old }
    ensures count_is_zero { (state_of result).count ≡ 0 }
    ensures code_keeps_the_laws { Laws word_code }
{
    Queue::on_memory(words)
}
