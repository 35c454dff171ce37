//! Words that are names, and what they name.

ghost use Rattle.std.specs.Prelude.{◌≡◌, ℕ, List};
ghost use Rattle.std.specs.Str.{bytes_eq};
ghost use Rattle.spelling.specs.Naming.{truth_name, lookup};

/// What has a name in the language.
pub trait Named {
    ghost called: { Self → List ℕ };

    fn name(&self) -> &'static str
        ensures { result.now ≡ called self.now };
}

impl Named for bool {
    ghost called = { λ b. truth_name b };

    fn name(&self) -> &'static str {
        if *self { "true" } else { "false" }
    }
}

/// Whether the word is the one named.
pub fn is(word: &[u8], name: &str) -> bool
    ensures compared { result ≡ bytes_eq word.now name.now }
{
    word == name.as_bytes()
}

/// The first of them that goes by the word.
pub fn pick<T: Named + Copy>(word: &[u8], all: &[T]) -> Option<T>
    ensures first_so_called { result ≡ lookup T.called word.now all.now }
{
    all.iter().find(|x| is(word, x.name())).copied()
}
