//! The questions that every label answers.
ghost use Rattle.std.specs.Prelude.{◌≡◌};
ghost use Rattle.labels.specs.Kinds.{Kind, Laws, inside};

use crate::step::Step;
use network::limits::{MAX_REACH, MAX_TIME};

/// A kind of label, which is the type of its labels.
///
/// `kind` says what each question answers, and `lawful` proves what a search may use of it.
pub trait Label: Copy {
    ghost kind: { Kind Self };

    /// The label with which a way starts, at the depot when it opens.
    fn start(opens: u32, depot: u16) -> Self
        ensures { result ≡ kind.start opens depot };

    /// The label one step further, or `None` where the step leads outside.
    fn extend(&self, step: &Step) -> Option<Self>
        ensures { result ≡ kind.extend self.now step.now };

    /// Whether this label makes the other needless.
    fn covers(&self, other: &Self) -> bool
        ensures { result ≡ kind.covers self.now other.now };

    fn time(&self) -> u32
        ensures { result ≡ kind.time self.now };

    fn cost(&self) -> i64
        ensures { result ≡ kind.cost self.now };

    ghost lawful: { Laws kind };
}

/// Whether a time and a cost are within the bounds of every label.
pub fn in_bounds(time: u32, cost: i64) -> bool
    ensures { result ≡ inside time cost }
{
    time <= MAX_TIME && cost.unsigned_abs() <= u64::from(time) * u64::from(MAX_REACH)
}
