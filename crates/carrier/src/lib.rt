//! Carriers: queues of numbers through which items pass, by their meaning alone.
//! docs/CARRIERS.md has the rules in words.

#![tactic(auto)]

ghost use Rattle.std.specs.Prelude.{◌≡◌, ℕ, ◌-◌, ◌^◌, ◌<◌, min, List, length, nat_lt};
ghost use Rattle.carrier.specs.Items.{Datum, truth, whole, single, double, bulk, Laws};
ghost use Rattle.carrier.specs.Meaning.{datum, full, no_such_item, no_memory, case_of};
ghost use Rattle.carrier.specs.Steps.{State, Puts, Takes, TakesFixed, TakesRun};

pub mod held;

use refusal::{Case, FieldId, Layer, Refusal};

/// What goes through a carrier in one piece. A run and a fixed have bytes: borrowed, owned, or a place in other memory.
#[derive(Clone, Copy, Drop)]
pub enum Item<B> {
    Truth(bool),
    Whole(i64),
    Single(u32),
    Double(u64),
    Run(B),
    Fixed(B),
}

/// What a taker names: a kind, for a run the most bytes that it may have, for a fixed its length.
#[derive(Clone, Copy)]
pub enum Kind {
    Truth,
    Whole,
    Single,
    Double,
    Run(usize),
    Fixed(usize),
}

/// A carrier's refusal, with how many numbers the outermost call had taken before it.
#[derive(Clone, Copy)]
pub struct CarrierFault {
    pub refusal: Refusal,
    pub taken: u64,
}

impl CarrierFault {
    /// The carrier lacks room. A put takes nothing.
    pub fn full() -> CarrierFault
        ensures is { result ≡ full }
    {
        CarrierFault {
            refusal: Refusal::CarrierFull,
            taken: 0,
        }
    }

    /// No such item stands at the front of the row.
    pub fn no_such_item(taken: u64) -> CarrierFault
        ensures is { result ≡ no_such_item taken }
    {
        CarrierFault {
            refusal: Refusal::NoSuchItem,
            taken,
        }
    }

    /// The lent memory is too small.
    pub fn no_memory(taken: u64) -> CarrierFault
        ensures is { result ≡ no_memory taken }
    {
        CarrierFault {
            refusal: Refusal::ResultMemory,
            taken,
        }
    }
}

/// The fault as users see it.
impl From<CarrierFault> for Case {
    ghost from_gives = { λ fault r. r ≡ case_of fault };

    fn from(fault: CarrierFault) -> Case {
        Case {
            refusal: fault.refusal,
            layer: Layer::Carrier,
            field: FieldId(0),
            taken: Some(fault.taken),
        }
    }
}

impl<'a> Item<&'a [u8]> {
    /// The bytes of a run or a fixed.
    pub fn bulk(self) -> usize
        ensures its_bytes { result ≡ bulk (datum self.entry) }
    {
        match self {
            Item::Run(s) => s.len(),
            Item::Fixed(s) => s.len(),
            _ => 0,
        }
    }
}

/// A row of numbers that wait, a fixed capacity and a count in use, and a code that turns an item
/// into numbers. Each taking call is told how many numbers the outermost call has taken so far.
pub trait Carrier {
    ghost state: { Self → State };

    ghost code: { Datum → List ℕ };

    // what each carrier's code keeps
    ghost laws: { Laws code };

    /// The length of the item's code.
    fn price(&self, item: Item<&[u8]>) -> u64
        ensures { result ≡ length (code (datum item.entry)) };

    /// Whether the row is not empty.
    fn waiting(&self) -> bool
        ensures not_empty { result ≡ nat_lt 0 (length (state self.now).row) }
        ensures few { length (state self.now).row < 2 ^ 64 };

    /// The capacity less the count.
    fn room(&self) -> u64
        ensures { result ≡ (state self.now).capacity - (state self.now).count };

    /// Adds the item's code to the row, or changes nothing where it is longer than the room.
    fn put(&mut self, item: Item<&[u8]>) -> Result<(), CarrierFault>
        ensures { Puts (code (datum item.entry)) result (state self.old) (state self.new) };

    // A call for each plain kind: one for all would need a trait over the four types, and its impls for each carrier.
    fn take_truth(&mut self, taken: u64) -> Result<bool, CarrierFault>
        ensures { Takes code Kind.Truth truth taken result (state self.old) (state self.new) };

    fn take_whole(&mut self, taken: u64) -> Result<i64, CarrierFault>
        ensures { Takes code Kind.Whole whole taken result (state self.old) (state self.new) };

    fn take_single(&mut self, taken: u64) -> Result<u32, CarrierFault>
        ensures { Takes code Kind.Single single taken result (state self.old) (state self.new) };

    fn take_double(&mut self, taken: u64) -> Result<u64, CarrierFault>
        ensures { Takes code Kind.Double double taken result (state self.old) (state self.new) };

    /// Takes a fixed of as many bytes as `out` has.
    fn take_fixed(&mut self, out: &mut [u8], taken: u64) -> Result<(), CarrierFault>
        ensures { TakesFixed code taken result out.old out.new (state self.old) (state self.new) };

    /// Takes a run of at most `most` bytes, or at most as many as `out` has where that is less, and
    /// answers how many it had.
    fn take_run(&mut self, most: usize, out: &mut [u8], taken: u64) -> Result<usize, CarrierFault>
        ensures { TakesRun code (min most (length out.old)) taken result out.old out.new (state self.old) (state self.new) };
}
