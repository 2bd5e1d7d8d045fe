//! The agenda that takes the oldest entry.
ghost use Rattle.std.specs.Prelude.{◌≤◌, length};
ghost use Rattle.agendas.specs.Bags.{room_for};

use crate::agenda::Agenda;
use crate::capacity::capacity_of;
use crate::fault::AgendaFault;

/// First in, first out: a ring in a borrowed table.
///
/// `count` entries wait from the place `first` on, and go on at the table's start.
#[derive(Drop)]
pub struct FirstIn<'a> {
    table: &'a mut [u16],
    first: usize,
    /// how many places are used: the table is the caller's, so this stands beside it
    count: usize,
    ghost sound: { (count ≤ room_for (length table.now)) × (first ≤ length table.now) },
}

impl<'a> FirstIn<'a> {
    ghost use Rattle.std.specs.Prelude.{◌≡◌, ◌<◌, []};
    ghost use Rattle.agendas.specs.Queues.{queue, queue_room, place};

    /// An empty agenda over a table.
    pub fn over(table: &'a mut [u16]) -> FirstIn<'a>
        ensures empty { queue result ≡ [] }
        ensures room { queue_room result ≡ room_for (length table.old) }
    {
        FirstIn {
            table,
            first: 0,
            count: 0,
        }
    }

    /// The place `k` places after the first, going on at the table's start.
    fn place(&self, k: usize) -> usize
        requires { k < length self.now.table.now }
        ensures within { result < length self.now.table.now }
        ensures value { result ≡ place (length self.now.table.now) self.now.first k }
    {
        let at = self.first + k;
        if at < self.table.len() {
            at
        } else {
            at - self.table.len()
        }
    }
}

#[tactic(auto, using(crate::proofs::Rings::rings))]
impl Agenda for FirstIn<'_> {
    ghost use Rattle.std.specs.Prelude.{◌≡◌};
    ghost use Rattle.agendas.specs.Bags.{PutSays, TakeSays};
    ghost use Rattle.agendas.specs.Queues.{queue, queue_room, QueuePut, QueueTake};

    ghost bag = { queue };

    ghost limit = { queue_room };

    fn waiting(&self) -> usize {
        self.count
    }

    fn capacity(&self) -> usize {
        capacity_of(self.table.len())
    }

    /// The entry is the last.
    fn put(&mut self, entry: u16, _time: u32, _cost: i64) -> Result<(), AgendaFault>
        ensures says { PutSays result (queue self.old) (queue self.new) (queue_room self.old) entry }
        ensures room { queue_room self.new ≡ queue_room self.old }
        ensures order { QueuePut result (queue self.old) (queue self.new) entry }
    {
        if self.count == self.capacity() {
            return Err(AgendaFault::Full);
        }
        let count = self.count;
        let end = self.place(count);
        self.table[end] = entry;
        self.count += 1;
        Ok(())
    }

    /// The first entry.
    fn take(&mut self) -> Option<u16>
        ensures says { TakeSays result (queue self.old) (queue self.new) }
        ensures room { queue_room self.new ≡ queue_room self.old }
        ensures order { QueueTake result (queue self.old) (queue self.new) }
    {
        self.count = self.count.checked_sub(1)?;
        let at = self.place(0);
        self.first = at + 1;
        Some(self.table[at])
    }
}
