//! The names of the library's parts.

ghost use Rattle.refusal.specs.Sentences.{layer_name};

use crate::names::Named;
use refusal::Layer;

impl Named for Layer {
    ghost called = { λ l. layer_name l };

    fn name(&self) -> &'static str {
        Layer::name(*self)
    }
}
