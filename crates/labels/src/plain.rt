//! The plain label: a time and a cost.
ghost use Rattle.labels.specs.Plains.{plain_kind};
ghost use Rattle.labels.specs.PlainsLemmas.{plain_laws};

use crate::label::{Label, in_bounds};
use crate::step::Step;

/// When a way is where it is, and what it cost so far.
#[derive(Clone, Copy, PartialEq, Eq, Debug)]
pub struct Plain {
    pub time: u32,
    pub cost: i64,
}

impl Label for Plain {
    ghost kind = { plain_kind };

    ghost lawful = { plain_laws };

    fn start(opens: u32, _depot: u16) -> Plain {
        Plain {
            time: opens,
            cost: 0,
        }
    }

    fn extend(&self, step: &Step) -> Option<Plain> {
        if !in_bounds(self.time, self.cost) {
            return None;
        }
        let arrives = self.time.checked_add(step.duration)?;
        if arrives > step.closes {
            return None;
        }
        Some(Plain {
            time: step.opens.max(arrives),
            cost: self.cost + i64::from(step.cost),
        })
    }

    fn covers(&self, other: &Plain) -> bool {
        self.time <= other.time && self.cost <= other.cost
    }

    fn time(&self) -> u32 {
        self.time
    }

    fn cost(&self) -> i64 {
        self.cost
    }
}
