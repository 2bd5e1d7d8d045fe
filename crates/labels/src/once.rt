//! The once-only label: a plain label that goes back to no node numbered below 64.
ghost use Rattle.labels.specs.Onces.{once_kind};
ghost use Rattle.labels.specs.OncesLemmas.{once_laws};

use crate::label::Label;
use crate::node_set::NodeSet;
use crate::plain::Plain;
use crate::step::Step;

/// A plain label, and the nodes numbered below 64 that the way has visited.
#[derive(Clone, Copy, PartialEq, Eq, Debug)]
pub struct Once {
    pub plain: Plain,
    pub visited: NodeSet,
}

impl Label for Once {
    ghost kind = { once_kind };

    ghost lawful = { once_laws };

    fn start(opens: u32, depot: u16) -> Once {
        Once {
            plain: Plain::start(opens, depot),
            visited: NodeSet::empty().with(depot),
        }
    }

    fn extend(&self, step: &Step) -> Option<Once> {
        if self.visited.has(step.head) {
            return None;
        }
        Some(Once {
            plain: self.plain.extend(step)?,
            visited: self.visited.with(step.head),
        })
    }

    fn covers(&self, other: &Once) -> bool {
        self.plain.covers(&other.plain) && self.visited.within(other.visited)
    }

    fn time(&self) -> u32 {
        self.plain.time
    }

    fn cost(&self) -> i64 {
        self.plain.cost
    }
}
