//! Field names.

ghost use Rattle.std.specs.Prelude.{◌≡◌, ℕ, ◌<◌, ◌≤◌, ◌⊎◌, length, take, IfOk, MatchResult};
ghost use Rattle.refusal.specs.declared.Refusal.TheVariants.{BadName};

use refusal::Refusal;

const MOST: usize = 64;

/// A name of 1 to 64 bytes.
// An array and how many of its bytes are the name's: names are copied, and this crate takes no memory from the heap.
#[derive(Clone, Copy)]
pub struct Name {
    bytes: [u8; MOST],
    len: usize,
    ghost some: { 1 ≤ len },
    ghost most: { len ≤ 64 },
}

impl Name {
    /// The name of these bytes. None or more than 64 are refused.
    pub fn new(text: &[u8]) -> Result<Name, Refusal>
        ensures its_text { IfOk result (λ n. take n.len n.bytes ≡ text.now) }
        ensures refused_exactly { MatchResult result (λ _. (1 ≤ length text.now) × (length text.now ≤ 64)) (λ e. (e ≡ BadName) × ((length text.now ≡ 0) ⊎ (64 < length text.now))) }
    {
        if text.len() == 0 || text.len() > MOST {
            return Err(Refusal::BadName);
        }
        let mut bytes = [0; MOST];
        let len = text.len();
        bytes[0..len].copy_from_slice(text);
        Ok(Name { bytes, len })
    }

    /// Its bytes.
    pub fn text(&self) -> &[u8]
        ensures its_bytes { result.now ≡ take self.now.len self.now.bytes }
    {
        &self.bytes[0..self.len]
    }
}
