//! Labels that also count legs.
ghost use Rattle.own_parts.specs.Hops.{hops_kind};
ghost use Rattle.own_parts.specs.HopsLemmas.{hops_laws};

use labels::label::Label;
use labels::plain::Plain;
use labels::step::Step;

/// A plain label, and how many legs the way has gone along: `MOST` at most.
#[derive(Clone, Copy, PartialEq, Eq, Debug)]
pub struct Hops<const MOST: u16> {
    pub plain: Plain,
    pub legs: u16,
}

impl<const MOST: u16> Label for Hops<MOST> {
    ghost kind = { hops_kind MOST };

    ghost lawful = { hops_laws MOST };

    fn start(opens: u32, depot: u16) -> Hops<MOST> {
        Hops {
            plain: Plain::start(opens, depot),
            legs: 0,
        }
    }

    fn extend(&self, step: &Step) -> Option<Hops<MOST>> {
        if self.legs >= MOST {
            return None;
        }
        let plain = self.plain.extend(step)?;
        Some(Hops {
            plain,
            legs: self.legs + 1,
        })
    }

    fn covers(&self, other: &Hops<MOST>) -> bool {
        self.plain.covers(&other.plain) && self.legs <= other.legs
    }

    fn time(&self) -> u32 {
        self.plain.time
    }

    fn cost(&self) -> i64 {
        self.plain.cost
    }
}
