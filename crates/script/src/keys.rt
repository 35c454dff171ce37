//! Field ids and field names as keys that words spell.

ghost use Rattle.std.specs.Prelude.{◌≡◌, ℕ, List};
ghost use Rattle.keyspace.specs.Names.{text_of};
ghost use Rattle.script.specs.Keys.{id_of, name_of};

use crate::sought::Spelled;
use keyspace::name::Name;
use refusal::FieldId;
use spelling::bad::Bad;
use spelling::numbers::short;
use std::alloc::Global;
use texts::add_text;

impl Spelled for FieldId {
    ghost Value = { ℕ };

    ghost means = { λ id. id.0 };

    ghost spelled = { id_of };

    fn read(_heap: Global, word: &[u8]) -> Result<Option<FieldId>, Bad> {
        Ok(Some(FieldId(short(word)?)))
    }
}

impl Spelled for Name {
    ghost Value = { List ℕ };

    ghost means = { text_of };

    ghost spelled = { name_of };

    fn read(heap: Global, word: &[u8]) -> Result<Option<Name>, Bad> {
        let mut text = Vec::new(heap);
        add_text(&mut text, word)?;
        Ok(Name::new(&text).ok())
    }
}
