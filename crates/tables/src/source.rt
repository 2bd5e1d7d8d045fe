//! The source: tables that were judged.
ghost use Rattle.std.specs.Prelude.{◌≡◌};
ghost use Rattle.tables.specs.Tables.{largest_size};
ghost use Rattle.tables.specs.Judge.{Sound};

use crate::record::NodeRecord;
use network::leg::Leg;

/// A network over borrowed tables without fault.
#[derive(Clone, Copy)]
pub struct TableSource<'a> {
    pub(crate) nodes: &'a [NodeRecord],
    pub(crate) legs: &'a [Leg],
    pub(crate) depot: u16,
    pub(crate) sink: u16,
    pub(crate) reach: u32,
    ghost sound: { Sound nodes.now legs.now depot sink },
    ghost reached: { reach ≡ largest_size legs.now },
}
