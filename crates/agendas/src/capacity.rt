//! The capacity of agendas over borrowed tables.
ghost use Rattle.std.specs.Prelude.{◌≡◌};
ghost use Rattle.agendas.specs.Bags.{room_for};

/// The most entries that can wait in any table.
pub const MAX_WAITING: usize = 65_535;

/// How many entries can wait in a table of this length.
pub fn capacity_of(len: usize) -> usize
    ensures { result ≡ room_for len }
{
    len.min(MAX_WAITING)
}
