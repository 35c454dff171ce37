//! What a queue does, and that it is a carrier.

ghost use Rattle.std.specs.Prelude.{◌≡◌, ◌≤◌, [], length, map, IfSome};
ghost use Rattle.carrier.specs.Items.{Laws};
ghost use Rattle.queue.specs.Queues.{state_of, Skipped, Takes};

use crate::coding::Coding;
use crate::lent::Queue;
use carrier::{Carrier, CarrierFault, Item};

impl<'a, C: Coding> Queue<'a, C> {
    /// An empty queue over memory to fill.
    pub fn on_memory(memory: &'a mut [C::Number]) -> Queue<'a, C>
        ensures empty { state_of result ≡ record { row = []; capacity = length memory.old; count = 0 } }
        ensures keeps_both_laws { Laws C.code }
        ensures published_codes { C.samples.says }
    {
        let capacity = memory.len();
        Queue {
            memory,
            take_at: 0,
            write_at: 0,
            capacity,
        }
    }

    /// A queue over written numbers, which wait. Nothing can be put.
    pub fn on_written(memory: &'a mut [C::Number]) -> Queue<'a, C>
        ensures waiting { state_of result ≡ record { row = map C.number memory.old; capacity = 0; count = 0 } }
    {
        let write_at = memory.len();
        Queue {
            memory,
            take_at: 0,
            write_at,
            capacity: 0,
        }
    }

    /// What waits.
    pub fn row(&self) -> &[C::Number]
        ensures its_row { map C.number result.now ≡ (state_of self.now).row }
    {
        &self.memory[self.take_at..self.write_at]
    }

    /// Lets the first `n` numbers of the row go. With the last of them both places go back to the start.
    fn skip(&mut self, n: usize)
        requires { n ≤ length (state_of self.old).row }
        ensures { Skipped n (state_of self.old) (state_of self.new) }
    {
        self.take_at += n;
        if self.take_at == self.write_at {
            self.take_at = 0;
            self.write_at = 0;
        }
    }

    /// Takes what was found at the front of the row, beside which stands how many numbers it is.
    fn take<T: Copy>(&mut self, found: Option<(T, usize)>, taken: u64) -> Result<T, CarrierFault>
        requires { IfSome found (λ p. p.1 ≤ length (state_of self.old).row) }
        ensures { Takes found taken result (state_of self.old) (state_of self.new) }
    {
        let (item, n) = found.ok_or(CarrierFault::no_such_item(taken))?;
        self.skip(n);
        Ok(item)
    }
}

impl<'a, C: Coding> Carrier for Queue<'a, C> {
    ghost state = { state_of };

    ghost code = { C.code };

    ghost laws = { C.laws };

    fn price(&self, item: Item<&[u8]>) -> u64 {
        C::len(item) as u64
    }

    fn waiting(&self) -> bool {
        !self.row().is_empty()
    }

    fn room(&self) -> u64 {
        self.capacity.saturating_sub(self.write_at) as u64
    }

    fn put(&mut self, item: Item<&[u8]>) -> Result<(), CarrierFault> {
        let free = self.write_at..self.capacity.max(self.write_at);
        let n = C::write(&mut self.memory[free], item).ok_or(CarrierFault::full())?;
        self.write_at += n;
        Ok(())
    }

    fn take_truth(&mut self, taken: u64) -> Result<bool, CarrierFault> {
        self.take(C::find_truth(self.row()), taken)
    }

    fn take_whole(&mut self, taken: u64) -> Result<i64, CarrierFault> {
        self.take(C::find_whole(self.row()), taken)
    }

    fn take_single(&mut self, taken: u64) -> Result<u32, CarrierFault> {
        self.take(C::find_single(self.row()), taken)
    }

    fn take_double(&mut self, taken: u64) -> Result<u64, CarrierFault> {
        self.take(C::find_double(self.row()), taken)
    }

    fn take_fixed(&mut self, out: &mut [u8], taken: u64) -> Result<(), CarrierFault> {
        let n = C::copy_fixed(self.row(), out).ok_or(CarrierFault::no_such_item(taken))?;
        self.skip(n);
        Ok(())
    }

    fn take_run(&mut self, most: usize, out: &mut [u8], taken: u64) -> Result<usize, CarrierFault> {
        let found = C::copy_run(self.row(), most, out);
        self.take(found, taken)
    }
}
