//! What tables answer.
ghost use Rattle.std.specs.Prelude.{◌≡◌, ◌<◌, ◌≤◌, length, MatchResult};
ghost use Rattle.network.specs.declared.fault.NetworkFault.TheVariants.{NoNode};
ghost use Rattle.tables.specs.Lawful.{table_lawful};
ghost use Rattle.tables.specs.Source.{source_net, start_in, IsSpan, IsRow};

use crate::source::TableSource;
use network::fault::{NetworkFault, known};
use network::leg::{Leg, Window};
use network::network::Network;
use std::ops::Range;

impl TableSource<'_> {
    /// Where the row of node `i` starts among the legs, and the row before it ends.
    fn row_start(&self, i: usize) -> usize
        ensures { result ≡ start_in self.now i }
    {
        self.nodes
            .get(i)
            .map_or(self.legs.len(), |node| node.first_leg as usize)
    }

    /// Where the row of node `i` starts and ends among the legs.
    fn span(&self, i: usize) -> Range<usize>
        requires { i < length self.now.nodes.now }
        ensures { IsSpan self.now i result.start result.end }
    {
        self.row_start(i)..self.row_start(i + 1)
    }

    /// The legs of node `i`.
    fn row(&self, i: u16) -> Result<&[Leg], NetworkFault>
        ensures { MatchResult result (λ row. IsRow self.now i row.now) (λ f. (f ≡ NoNode i) × (length self.now.nodes.now ≤ i)) }
    {
        known(i, self.node_count())?;
        Ok(&self.legs[self.span(i as usize)])
    }
}

impl Network for TableSource<'_> {
    ghost meaning = { source_net };

    ghost lawful = { λ s. table_lawful s.nodes.now s.legs.now s.depot s.sink s.sound };

    fn node_count(&self) -> u16 {
        self.nodes.len() as u16
    }

    fn depot(&self) -> u16 {
        self.depot
    }

    fn sink(&self) -> u16 {
        self.sink
    }

    fn reach(&self) -> u32 {
        self.reach
    }

    fn window(&self, i: u16) -> Result<Window, NetworkFault> {
        let node = self.nodes.get(i as usize);
        node.map(|node| node.window())
            .ok_or(NetworkFault::NoNode { node: i })
    }

    fn row_len(&self, i: u16) -> Result<u16, NetworkFault> {
        let row = self.row(i)?;
        Ok(row.len() as u16)
    }

    fn leg(&self, i: u16, k: u16) -> Result<Leg, NetworkFault> {
        let row = self.row(i)?;
        row.get(k as usize)
            .copied()
            .ok_or(NetworkFault::NoLeg { node: i })
    }
}
