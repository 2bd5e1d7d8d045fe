//! Entries with a time and a cost.
ghost use Rattle.std.specs.Prelude.{◌≡◌};
ghost use Rattle.agendas.specs.Timeds.{sooner};

/// An entry that waits, with the time and the cost of its label.
///
/// The order is by time, then cost, then number.
#[derive(Clone, Copy, PartialEq, Eq, PartialOrd, Ord, Debug)]
pub struct Timed {
    pub time: u32,
    pub cost: i64,
    pub entry: u16,
}

/// Whether an entry comes before another: it pins what the derived order is, for readers.
pub fn is_sooner(x: &Timed, y: &Timed) -> bool
    ensures { result ≡ sooner x.now y.now }
{
    x < y
}
