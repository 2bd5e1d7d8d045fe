//! Rows by first legs: they begin at 0, never fall, and end at the number of legs.
ghost use Rattle.std.specs.Prelude.{◌≡◌};
ghost use Rattle.network.specs.Rows.{most_first};

/// The most that the first leg of node `i` may be.
pub fn most_first(legs: u32, i: usize) -> u32
    ensures { result ≡ most_first legs i }
{
    if i == 0 { 0 } else { legs }
}
