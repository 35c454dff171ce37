//! Keys that are looked for: the words before `find`, and the one behind it. No verb reads them yet.

ghost use Rattle.std.specs.Prelude.{◌≡◌, ℕ, List, Option, Result};
ghost use Rattle.std.specs.Option.{option_map};
ghost use Rattle.spelling.specs.declared.bad.Bad.{Bad};
ghost use Rattle.script.specs.Cutting.{left};
ghost use Rattle.script.specs.Seeking.{behind_all, last_in, quest_of, seeks, so_far};
ghost use Rattle.script.specs.Shapes.{Meets};

use crate::line::Tokens;
use spelling::bad::Bad;
use spelling::names::is;
use std::alloc::Global;

/// A kind of key that words spell.
pub(crate) trait Spelled: Copy {
    ghost Value: { Type 0 };

    ghost means: { Self → Value };

    // what a word spells: none where it is well formed and spells no key
    ghost spelled: { List ℕ → Result (Option Value) Bad };

    /// The key that the word spells.
    fn read(heap: Global, word: &[u8]) -> Result<Option<Self>, Bad>
        ensures as_spelled { Meets (option_map means) result (spelled word.now) };
}

/// Keys, and the one that is looked for among them.
#[derive(Drop)]
pub struct Sought<K> {
    pub among: Vec<K>,
    pub key: K,
}

/// The key behind `find`, which ends the line.
fn read_last<K: Spelled>(
    tokens: &mut Tokens,
    among: Option<Vec<K>>,
) -> Result<Option<Sought<K>>, Bad>
    ensures as_spelled { Meets (option_map (quest_of K.Spelled.means)) result (behind_all (so_far K.Spelled.means among) (last_in K.Spelled.spelled (left tokens.old))) }
{
    let word = tokens.word()?;
    tokens.end()?;
    let key = K::read(tokens.heap, word)?;
    Ok(among.zip(key).map(|(among, key)| Sought { among, key }))
}

/// The keys up to `find`, and the one behind it. None where a word is well formed and spells no key.
pub(crate) fn read_sought<K: Spelled>(tokens: &mut Tokens) -> Result<Option<Sought<K>>, Bad>
    ensures as_spelled { Meets (option_map (quest_of K.Spelled.means)) result (seeks K.Spelled.spelled (left tokens.old)) }
{
    let mut among = Some(Vec::new(tokens.heap));
    loop {
        let word = tokens.word()?;
        if is(word, "find") {
            return read_last(tokens, among);
        }
        match (K::read(tokens.heap, word)?, &mut among) {
            (Some(key), Some(keys)) => keys.push(key)?,
            _ => among = None,
        }
    }
}
