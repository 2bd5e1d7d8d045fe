//! The agenda that takes the last entry.
ghost use Rattle.std.specs.Prelude.{◌≤◌, length};
ghost use Rattle.agendas.specs.Bags.{room_for};

use agendas::agenda::Agenda;
use agendas::capacity::capacity_of;
use agendas::fault::AgendaFault;

/// Last in, first out: a pile in the front of a borrowed table, of which `count` entries wait.
#[derive(Drop)]
pub struct LastIn<'a> {
    table: &'a mut [u16],
    count: usize,
    ghost room: { count ≤ room_for (length table.now) },
}

impl<'a> LastIn<'a> {
    ghost use Rattle.std.specs.Prelude.{◌≡◌, []};
    ghost use Rattle.own_parts.specs.LastIn.{pile, pile_room};

    /// An empty agenda over a table.
    pub fn over(table: &'a mut [u16]) -> LastIn<'a>
        ensures empty { pile result ≡ [] }
        ensures room { pile_room result ≡ room_for (length table.old) }
    {
        LastIn { table, count: 0 }
    }
}

impl<'a> Agenda for LastIn<'a> {
    ghost use Rattle.std.specs.Prelude.{◌≡◌};
    ghost use Rattle.agendas.specs.Bags.{PutSays, TakeSays};
    ghost use Rattle.own_parts.specs.LastIn.{pile, pile_room, PilePut, PileTake};

    ghost bag = { pile };

    ghost limit = { pile_room };

    fn waiting(&self) -> usize {
        self.count
    }

    fn capacity(&self) -> usize {
        capacity_of(self.table.len())
    }

    /// The entry lies on top.
    fn put(&mut self, entry: u16, _time: u32, _cost: i64) -> Result<(), AgendaFault>
        ensures says { PutSays result (pile self.old) (pile self.new) (pile_room self.old) entry }
        ensures room { pile_room self.new ≡ pile_room self.old }
        ensures order { PilePut result (pile self.old) (pile self.new) entry }
    {
        if self.count >= capacity_of(self.table.len()) {
            return Err(AgendaFault::Full);
        }
        self.table[self.count] = entry;
        self.count += 1;
        Ok(())
    }

    /// The entry on top.
    fn take(&mut self) -> Option<u16>
        ensures says { TakeSays result (pile self.old) (pile self.new) }
        ensures room { pile_room self.new ≡ pile_room self.old }
        ensures order { PileTake result (pile self.old) (pile self.new) }
    {
        if self.count == 0 {
            return None;
        }
        self.count -= 1;
        Some(self.table[self.count])
    }
}
