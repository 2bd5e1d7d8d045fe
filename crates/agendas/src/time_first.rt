//! The agenda that takes the entry of the least time.
ghost use Rattle.std.specs.Prelude.{◌≤◌, length};
ghost use Rattle.agendas.specs.Bags.{room_for};
ghost use Rattle.agendas.specs.Timeds.{sooner};
ghost use Rattle.agendas.specs.Heaps.{at, Heap};

use crate::agenda::Agenda;
use crate::capacity::capacity_of;
use crate::fault::AgendaFault;
use crate::heap::{pop, rise};
use crate::timed::Timed;

/// The least time first, then the least cost, then the least number: a heap in a borrowed table.
#[derive(Drop)]
pub struct TimeFirst<'a> {
    table: &'a mut [Timed],
    /// how many places are used: the table is the caller's, so this stands beside it
    count: usize,
    ghost sound: { count ≤ room_for (length table.now) },
    ghost heaped: { Heap sooner (at table.now) count },
}

impl<'a> TimeFirst<'a> {
    ghost use Rattle.std.specs.Prelude.{◌≡◌, []};
    ghost use Rattle.agendas.specs.TimeFirsts.{held, held_room};

    /// An empty agenda over a table.
    pub fn over(table: &'a mut [Timed]) -> TimeFirst<'a>
        ensures empty { held result ≡ [] }
        ensures room { held_room result ≡ room_for (length table.old) }
    {
        TimeFirst { table, count: 0 }
    }
}

impl Agenda for TimeFirst<'_> {
    ghost use Rattle.std.specs.Prelude.{◌≡◌};
    ghost use Rattle.agendas.specs.Bags.{PutSays, TakeSays};
    ghost use Rattle.agendas.specs.Timeds.{timed, TimedPut, TimedTake};
    ghost use Rattle.agendas.specs.TimeFirsts.{held, numbers, held_room};

    ghost bag = { numbers };

    ghost limit = { held_room };

    // `waiting` and `capacity` are those of `FirstIn`: a struct in both would only have its calls passed on.
    fn waiting(&self) -> usize {
        self.count
    }

    fn capacity(&self) -> usize {
        capacity_of(self.table.len())
    }

    /// The entry waits with its time and its cost.
    fn put(&mut self, entry: u16, time: u32, cost: i64) -> Result<(), AgendaFault>
        ensures says { PutSays result (numbers self.old) (numbers self.new) (held_room self.old) entry }
        ensures room { held_room self.new ≡ held_room self.old }
        ensures order { TimedPut result (held self.old) (held self.new) (timed time cost entry) }
    {
        if self.count == self.capacity() {
            return Err(AgendaFault::Full);
        }
        self.table[self.count] = Timed { time, cost, entry };
        rise(&mut self.table[..=self.count]);
        self.count += 1;
        Ok(())
    }

    /// The soonest entry.
    fn take(&mut self) -> Option<u16>
        ensures says { TakeSays result (numbers self.old) (numbers self.new) }
        ensures room { held_room self.new ≡ held_room self.old }
        ensures order { TimedTake result (held self.old) (held self.new) }
    {
        self.count = self.count.checked_sub(1)?;
        let soonest = pop(&mut self.table[..=self.count]);
        Some(soonest.entry)
    }
}
