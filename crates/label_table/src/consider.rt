//! How labels are considered.
ghost use Rattle.std.specs.Prelude.{◌≡◌, ◌+◌, ◌<◌, ◌≤◌, ◌++◌, map, length, take, drop, slice_index_or, is_ok, if◌then◌else◌};
ghost use Rattle.network.specs.Meaning.{legs_at, no_leg};
ghost use Rattle.label_table.specs.Rows.{lowered};
ghost use Rattle.label_table.specs.Considering.{EntersMore, along_row, placed, row_along, stop_in, told_entering};

use crate::fault::{Cause, RunFault};
use crate::row::Row;
use crate::table::{Departure, LabelTable};
use agendas::agenda::Agenda;
use labels::label::Label;
use network::fault::met_at;
use network::network::Network;
use paths::asking::step_at;
use std::ops::Range;

impl<L: Label> Departure<L> {
    /// The new row that leg `k` of the node gives, or `None` where the leg leads outside.
    fn row_along<N: Network>(&self, net: &N, k: u16) -> Option<Row<L>>
        requires node { self.now.node < (N.meaning net.now).n }
        requires within { k < length (legs_at (N.meaning net.now) self.now.node) }
        ensures { result ≡ row_along (N.meaning net.now) L.kind self.now k (slice_index_or (legs_at (N.meaning net.now) self.now.node) k no_leg) }
    {
        let step = step_at(net, self.node, k);
        let label = self.label.extend(&step)?;
        Some(Row {
            node: step.head,
            parent: self.entry,
            leg: k,
            label,
            stands: true,
            treated: false,
        })
    }
}

impl<L: Label> LabelTable<'_, L> {
    /// The rows that are entered.
    fn entries(&self) -> &[Row<L>]
        ensures { result.now ≡ take self.now.entered self.now.rows.now }
    {
        &self.rows[..self.entered as usize]
    }

    /// The standing entries at a node that a label covers cease to stand.
    fn unstand(&mut self, node: u16, label: &L)
        ensures same_reference { self.new.rows.ghost_name ≡ self.old.rows.ghost_name }
        ensures count { self.new.entered ≡ self.old.entered }
        ensures rows { self.new.rows.now ≡ map (lowered L.kind node label.now) (take self.old.entered self.old.rows.now) ++ drop self.old.entered self.old.rows.now }
    {
        let rows = &mut *self.rows;
        // by number: a form that the project asks for (docs/DECISIONS.md)
        for i in 0..self.entered as usize {
            rows[i] = rows[i].lowered(node, label);
        }
    }

    /// A row that no entry covers enters as the next entry, and waits; where the agenda is full, nothing changes.
    fn enter<A: Agenda>(&mut self, agenda: &mut A, row: Row<L>) -> Result<(), RunFault>
        requires { self.old.entered < length self.old.rows.now }
        ensures does { (told_entering result, self.new.rows.now) ≡ placed L.kind (A.limit agenda.old) self.old.entered (length (A.bag agenda.old)) row self.old.rows.now }
        ensures count { self.new.entered ≡ (if is_ok result then self.old.entered + 1 else self.old.entered) }
        ensures more { EntersMore self.old self.new (A.bag agenda.old) (A.bag agenda.new) }
        ensures keeps { A.limit agenda.new ≡ A.limit agenda.old }
    {
        let put = agenda.put(self.entered, row.label.time(), row.label.cost());
        met_at(put, row.parent)?;
        self.unstand(row.node, &row.label);
        self.rows[self.entered as usize] = row;
        self.entered += 1;
        Ok(())
    }

    /// Extends the label of an entry along these legs of its node, in order, and considers each result: it is covered, or
    /// enters, or has no place; then the legs after it are left out.
    pub fn consider<N: Network, A: Agenda>(
        &mut self,
        net: &N,
        agenda: &mut A,
        from: &Departure<L>,
        legs: Range<u16>,
    ) -> Result<(), RunFault>
        requires node { from.now.node < (N.meaning net.now).n }
        requires row { legs.end ≤ length (legs_at (N.meaning net.now) from.now.node) }
        ensures does { (self.new.entered, stop_in result, self.new.rows.now) ≡ along_row (N.meaning net.now) L.kind (A.limit agenda.old) from.now legs.start legs.end self.old.entered (length (A.bag agenda.old)) self.old.rows.now }
        ensures more { EntersMore self.old self.new (A.bag agenda.old) (A.bag agenda.new) }
        ensures keeps { A.limit agenda.new ≡ A.limit agenda.old }
    {
        let len = self.rows.len();
        // left from inside the scan of the rows: a form that the project asks for (docs/DECISIONS.md)
        'legs: for k in legs {
            let Some(new) = from.row_along(net, k) else {
                continue 'legs;
            };
            'rows: for (at, row) in self.entries().iter().enumerate() {
                if row.stands_over(new.node, &new.label) {
                    continue 'legs;
                }
                if at + 1 == len {
                    return Err(Cause::TableFull.at(from.entry));
                }
            }
            self.enter(agenda, new)?;
        }
        Ok(())
    }
}
