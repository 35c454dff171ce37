//! The key spaces of field ids and field names, and where among fields an id or a name stands.

ghost use Rattle.std.specs.Prelude.{◌≡◌, ℕ, true, false, List, length, is_ok, nat_le};
ghost use Rattle.keyspace.specs.Fields.{FirstField};
ghost use Rattle.keyspace.specs.Names.{text_of};
ghost use Rattle.keyspace.specs.Numbers.{spread, name_number};
ghost use Rattle.keyspace.specs.Slots.{IndexOf};

use crate::index::KeyedList;
use crate::name::Name;
use crate::number::{number_of_name, scatter};
use crate::slot::{Slot, TooFewSlots};
use crate::space::{KeySpace, Keyed, NumberedKeySpace};
use refusal::{FieldId, FieldPosition};

/// Field ids: an id means its number.
#[derive(Clone, Copy)]
pub struct FieldIds;

impl KeySpace for FieldIds {
    type Key = FieldId;

    ghost Value = { ℕ };

    ghost means = { λ _ id. id.0 };

    ghost numberof = { spread };

    fn same(&self, a: FieldId, b: FieldId) -> bool {
        a == b
    }
}

impl NumberedKeySpace for FieldIds {
    fn number(&self, id: FieldId) -> u32 {
        scatter(id.0)
    }
}

/// Field names: a name means its bytes.
#[derive(Clone, Copy)]
pub struct FieldNames;

impl KeySpace for FieldNames {
    type Key = Name;

    ghost Value = { List ℕ };

    ghost means = { λ _ name. text_of name };

    ghost numberof = { name_number };

    fn same(&self, a: Name, b: Name) -> bool {
        a.text() == b.text()
    }
}

impl NumberedKeySpace for FieldNames {
    fn number(&self, name: Name) -> u32 {
        number_of_name(name.text())
    }
}

/// The position of the first field whose key means what `key` means, or none. Fewer slots than keys are refused, and
/// stay as they were; else the slots are an index of the keys afterwards.
pub fn position_of<S: NumberedKeySpace>(
    space: &S,
    keys: &[S::Key],
    slots: &mut [Slot],
    key: S::Key,
) -> Result<Option<FieldPosition>, TooFewSlots>
    ensures first_position { FirstField (S.means space.now) keys.now (S.means space.now key) result }
    ensures refused_exactly { is_ok result ≡ nat_le (length keys.now) (length slots.old) }
    ensures refused_without_change { is_ok result ≡ false → slots.new ≡ slots.old }
    ensures indexed { is_ok result ≡ true → IndexOf (S.means space.now) S.numberof keys.now (length keys.now) slots.new }
{
    let fields = KeyedList {
        space,
        entries: keys,
    };
    Ok(fields.find(slots, key)?.map(FieldPosition))
}

/// The position of the first field with this id, or none. Fewer slots than ids are refused, and stay as they were; else
/// the slots are an index of the ids afterwards.
pub fn position_of_id(
    ids: &[FieldId],
    slots: &mut [Slot],
    id: FieldId,
) -> Result<Option<FieldPosition>, TooFewSlots>
    ensures first_position { FirstField (λ i. i.0) ids.now id.0 result }
    ensures refused_exactly { is_ok result ≡ nat_le (length ids.now) (length slots.old) }
    ensures refused_without_change { is_ok result ≡ false → slots.new ≡ slots.old }
    ensures indexed { is_ok result ≡ true → IndexOf (λ i. i.0) spread ids.now (length ids.now) slots.new }
{
    position_of(&FieldIds, ids, slots, id)
}

/// The position of the first field with this name, or none, as `position_of_id` answers it.
pub fn position_of_name(
    names: &[Name],
    slots: &mut [Slot],
    name: Name,
) -> Result<Option<FieldPosition>, TooFewSlots>
    ensures first_position { FirstField text_of names.now (text_of name) result }
    ensures refused_exactly { is_ok result ≡ nat_le (length names.now) (length slots.old) }
    ensures refused_without_change { is_ok result ≡ false → slots.new ≡ slots.old }
    ensures indexed { is_ok result ≡ true → IndexOf text_of name_number names.now (length names.now) slots.new }
{
    position_of(&FieldNames, names, slots, name)
}
