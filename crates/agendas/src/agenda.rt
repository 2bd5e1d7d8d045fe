//! The questions that every agenda answers.
ghost use Rattle.std.specs.Prelude.{◌≡◌, ℕ, List, length};
ghost use Rattle.agendas.specs.Bags.{PutSays, TakeSays};

use crate::fault::AgendaFault;

/// A bag of entries, a number as often as it was put, in which each waits to be taken.
///
/// `bag` says what waits, in no order, and `limit` how much can wait at most.
pub trait Agenda {
    ghost bag: { Self → List ℕ };

    ghost limit: { Self → ℕ };

    /// How many entries wait.
    fn waiting(&self) -> usize
        ensures { result ≡ length (bag self.now) };

    /// How many entries can wait at most.
    fn capacity(&self) -> usize
        ensures { result ≡ limit self.now };

    /// One entry more, with the time and the cost of its label; at capacity, a refusal that changes nothing.
    fn put(&mut self, entry: u16, time: u32, cost: i64) -> Result<(), AgendaFault>
        ensures says { PutSays result (bag self.old) (bag self.new) (limit self.old) entry }
        ensures room { limit self.new ≡ limit self.old };

    /// One entry less, which is the answer, or `None` where nothing waits.
    fn take(&mut self) -> Option<u16>
        ensures says { TakeSays result (bag self.old) (bag self.new) }
        ensures room { limit self.new ≡ limit self.old };
}
