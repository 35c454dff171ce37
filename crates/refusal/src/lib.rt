//! Why a call says no, one number for each reason, and the two counts by which a field is named.

#![tactic(auto)]

ghost use Rattle.std.specs.Prelude.{◌≡◌, Some};
ghost use Rattle.refusal.specs.Numbers.{number_of};
ghost use Rattle.refusal.specs.Sentences.{sentence_of, layer_name};

use std::error::Error;
use std::fmt;

/// The reasons, in the order of their numbers. docs/REFUSALS.md has a line for each.
#[derive(Clone, Copy, Debug, PartialEq, Eq)]
pub enum Refusal {
    NotThere = 1,
    WorkMemory = 2,
    Waiting = 3,
    BadName = 4,
    NameTaken = 5,
    BadType = 6,
    EditTarget = 7,
    EditRule = 8,
    IdsSpent = 9,
    HistoryFull = 10,
    WrongKind = 11,
    Unfit = 12,
    RecordField = 13,
    Absent = 14,
    MapEntry = 15,
    ByteLength = 16,
    OutOfRange = 17,
    OverLimit = 18,
    ResultMemory = 19,
    Narrowing = 20,
    CarrierFull = 21,
    NoSuchItem = 22,
}

impl Refusal {
    /// The number that users see.
    pub fn number(self) -> u8
        ensures its_number { result ≡ number_of self }
    {
        self as u8
    }

    /// The reason in words, for people.
    pub fn sentence(self) -> &'static str
        ensures in_words { result.now ≡ sentence_of self }
    {
        match self {
            Refusal::NotThere => "no node, byte, field or schema has that number",
            Refusal::WorkMemory => "the work, table or result memory is below what the call needs",
            Refusal::Waiting => "nothing waits, or something waits where nothing may",
            Refusal::BadName => "a name is empty or longer than 64 bytes",
            Refusal::NameTaken => "the struct has a field of that name already",
            Refusal::BadType => "the type breaks a rule of types",
            Refusal::EditTarget => "the edit aims at a map key or at no struct field",
            Refusal::EditRule => "the edit is not allowed there",
            Refusal::IdsSpent => "the last id has been given out",
            Refusal::HistoryFull => "there are too many schemas or fields",
            Refusal::WrongKind => "the type does not take a value of that kind",
            Refusal::Unfit => "the value does not fit its schema",
            Refusal::RecordField => "a record has a field that the struct lacks, or one twice",
            Refusal::Absent => "a required value is null or absent",
            Refusal::MapEntry => "a map entry is no record of key and value",
            Refusal::ByteLength => "bytes have the wrong length, or a byte list another element",
            Refusal::OutOfRange => "a number lies outside its type",
            Refusal::OverLimit => "a value passes the limits",
            Refusal::ResultMemory => "the result memory is too small",
            Refusal::Narrowing => "showing would narrow a value",
            Refusal::CarrierFull => "the carrier lacks space",
            Refusal::NoSuchItem => "the row begins with no such item",
        }
    }
}

impl fmt::Display for Refusal {
    ghost output = { λ r. Some (sentence_of r) };

    fn fmt<W: fmt::Write>(&self, f: &mut fmt::Formatter<W>) -> fmt::Result {
        f.write_str(self.sentence())
    }
}

impl Error for Refusal {}

/// The part of the library that said no.
#[derive(Clone, Copy, Debug, PartialEq, Eq)]
pub enum Layer {
    Carrier,
    Conversion,
    History,
    Types,
    Values,
}

impl Layer {
    /// Its name, as users see it.
    pub fn name(self) -> &'static str
        ensures its_name { result.now ≡ layer_name self }
    {
        match self {
            Layer::Carrier => "carrier",
            Layer::Conversion => "conversion",
            Layer::History => "history",
            Layer::Types => "types",
            Layer::Values => "values",
        }
    }
}

impl fmt::Display for Layer {
    ghost output = { λ l. Some (layer_name l) };

    fn fmt<W: fmt::Write>(&self, f: &mut fmt::Formatter<W>) -> fmt::Result {
        f.write_str(self.name())
    }
}

/// A refusal as users see it. Field 0 stands for none; `taken` is there where a carrier refused.
#[derive(Clone, Copy)]
pub struct Case {
    pub refusal: Refusal,
    pub layer: Layer,
    pub field: FieldId,
    pub taken: Option<u64>,
}

/// The number that a field keeps for life.
#[derive(Clone, Copy, PartialEq, Eq)]
pub struct FieldId(pub u32);

/// The place of a field among its siblings, from 0.
#[derive(Clone, Copy, PartialEq, Eq)]
pub struct FieldPosition(pub usize);
