//! The calls on keys: where an id or a name stands among others. No line of a script makes them yet.

ghost use Rattle.std.specs.Prelude.{◌≤◌, IfOk, vec_len};

use keyspace::fields::position_of;
use keyspace::slot::Slot;
use keyspace::space::{KeySpace, NumberedKeySpace};
use ordered_map::entry::Entry;
use ordered_map::map::OrderedMap;
use refusal::{Case, FieldId, FieldPosition, Layer, Refusal};
use script::sought::Sought;
use std::alloc::{AllocError, Global};

// Twice as many slots as keys, so that look-ups are short.
fn slots_for(heap: Global, keys: usize) -> Result<Vec<Slot>, AllocError>
    ensures enough { IfOk result (λ v. keys ≤ vec_len v) }
{
    vec![in heap; None; keys.saturating_mul(2)]
}

// How many of the keys are different.
fn count_different<S: NumberedKeySpace>(
    heap: Global,
    space: &S,
    keys: &[S::Key],
) -> Result<usize, AllocError>
where
    S::Key: Clone,
{
    if keys.is_empty() {
        return Ok(0);
    }
    let mut entries = vec![in heap; Entry {
        key: keys[0],
        value: ()
    }; keys.len()]?;
    let mut slots = slots_for(heap, keys.len())?;
    let mut map = OrderedMap::new(space, &mut entries, &mut slots);
    for key in keys {
        let _ = map.insert(space, *key, ());
    }
    Ok(map.len())
}

// Where a key stands among others of its key space, which `what` names for people: "ids: " or "names: ".
pub(crate) fn say_sought<S: NumberedKeySpace>(
    heap: Global,
    space: &S,
    what: &str,
    sought: &Sought<S::Key>,
    out: &mut String,
) -> Result<(), AllocError>
where
    S::Key: Clone,
{
    let among = sought.among.as_slice();
    let mut slots = slots_for(heap, among.len())?;
    let Ok(place) = position_of(space, among, &mut slots, sought.key) else {
        unreachable!()
    };
    match place {
        Some(FieldPosition(place)) => {
            out.push_str("ok ")?;
            print::number(out, place as u64)?
        }
        None => out.push_str("none")?,
    }

    // Behind the answer, for people: how many keys there are, and how many of them are different.
    let different = count_different(heap, space, among)?;
    out.push_str(" -- ")?;
    out.push_str(what)?;
    print::number(out, among.len() as u64)?;
    out.push_str(", different: ")?;
    print::number(out, different as u64)
}

pub(crate) fn say_no_name(out: &mut String) -> Result<(), AllocError> {
    answers::case(
        out,
        Case {
            refusal: Refusal::BadName,
            layer: Layer::Types,
            field: FieldId(0),
            taken: None,
        },
    )
}
