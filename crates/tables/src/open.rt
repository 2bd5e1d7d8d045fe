//! How a source comes by its tables.
ghost use Rattle.std.specs.Prelude.{◌≡◌, [], MatchResult};
ghost use Rattle.network.specs.Refusals.{told_file, verdict};
ghost use Rattle.tables.specs.Tables.{largest_size, one_node};
ghost use Rattle.tables.specs.Judge.{table_fault};
ghost use Rattle.tables.specs.Source.{Holds};

use crate::judge::judge;
use crate::record::NodeRecord;
use crate::source::TableSource;
use network::fault::FileFault;
use network::leg::Leg;
use network::limits::MAX_TIME;

static ONE_NODE: [NodeRecord; 1] = [NodeRecord {
    opens: 0,
    closes: MAX_TIME,
    first_leg: 0,
}];

static NO_LEGS: [Leg; 0] = [];

/// The largest size of a cost, 0 without legs.
fn largest_size(legs: &[Leg]) -> u32
    ensures { result ≡ largest_size legs.now }
{
    let mut largest = 0;
    for leg in legs {
        largest = leg.cost.unsigned_abs().max(largest);
    }
    largest
}

impl<'a> TableSource<'a> {
    /// One node, open from 0 to the latest time, and no leg.
    pub fn built_in() -> TableSource<'a>
        ensures { Holds result one_node [] 0 0 }
    {
        TableSource {
            nodes: &ONE_NODE,
            legs: &NO_LEGS,
            depot: 0,
            sink: 0,
            reach: 0,
        }
    }

    /// Takes over tables that have no fault; a refusal answers the first fault, and changes nothing.
    pub fn open(
        &mut self,
        nodes: &'a [NodeRecord],
        legs: &'a [Leg],
        depot: u16,
        sink: u16,
    ) -> Result<(), FileFault>
        ensures verdict { told_file result ≡ verdict (table_fault nodes.now legs.now depot sink) }
        ensures effect { MatchResult result (λ _. Holds self.new nodes.now legs.now depot sink) (λ _. self.new ≡ self.old) }
    {
        judge(nodes, legs, depot, sink)?;
        *self = TableSource {
            nodes,
            legs,
            depot,
            sink,
            reach: largest_size(legs),
        };
        Ok(())
    }
}
