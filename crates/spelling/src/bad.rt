//! Why a line is no call.

ghost use Rattle.std.specs.Prelude.{◌≡◌, Some};
ghost use Rattle.spelling.specs.Reasons.{reason_of};
ghost use Rattle.spelling.specs.declared.bad.Bad.TheVariants.{NoMemory};

use std::alloc::{AllocError, AllocFailed};
use std::error::Error;
use std::fmt;

/// The reasons, each of which stands behind `bad line N: `.
#[derive(Clone, Copy, Debug, PartialEq, Eq)]
pub enum Bad {
    NoVerb,
    UnknownVerb,
    MissingArgument,
    NotANumber,
    NotBytes,
    NotBits,
    NotText,
    NotAnItem,
    NotAKind,
    NotACarrier,
    Brackets,
    TooMuch,
    NoMemory,
    NoCarrier,
}

impl Bad {
    /// The reason in words, for people.
    pub fn reason(self) -> &'static str
        ensures in_words { result.now ≡ reason_of self }
    {
        match self {
            Bad::NoVerb => "the line has no verb",
            Bad::UnknownVerb => "unknown verb",
            Bad::MissingArgument => "an argument is missing",
            Bad::NotANumber => "not a number, or past its range",
            Bad::NotBytes => "not bytes: x and pairs of hex digits",
            Bad::NotBits => "not bits: x and all hex digits, 8 for a single, 16 for a double",
            Bad::NotText => "not a text: \"..\" with \\xHH for what may not stand there",
            Bad::NotAnItem => "not an item",
            Bad::NotAKind => "not a kind",
            Bad::NotACarrier => "not a carrier: avro, words or avro-written",
            Bad::Brackets => "a bracket is missing or misplaced",
            Bad::TooMuch => "too much on the line",
            Bad::NoMemory => "no memory",
            Bad::NoCarrier => "no carrier is open",
        }
    }
}

impl fmt::Display for Bad {
    ghost output = { λ b. Some (reason_of b) };

    fn fmt<W: fmt::Write>(&self, f: &mut fmt::Formatter<W>) -> fmt::Result {
        f.write_str(self.reason())
    }
}

impl Error for Bad {}

impl From<AllocError> for Bad {
    ghost from_gives = { λ _ r. r ≡ NoMemory };

    fn from(_e: AllocError) -> Bad {
        Bad::NoMemory
    }
}

impl<T: Drop> From<AllocFailed<T>> for Bad {
    ghost from_gives = { λ _ r. r ≡ NoMemory };

    fn from(_e: AllocFailed<T>) -> Bad {
        Bad::NoMemory
    }
}
