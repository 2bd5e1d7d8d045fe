//! The records of a node table.
ghost use Rattle.std.specs.Prelude.{◌≡◌};
ghost use Rattle.tables.specs.Tables.{window_of};

use network::leg::Window;

/// A node: its opening hours, and where its row begins among the legs.
///
/// The row runs up to the first leg of the next node, the last row up to the last leg.
#[derive(Clone, Copy, PartialEq, Eq, Debug)]
pub struct NodeRecord {
    pub opens: u32,
    pub closes: u32,
    pub first_leg: u32,
}

impl NodeRecord {
    /// The opening hours.
    pub fn window(&self) -> Window
        ensures { result ≡ window_of self.now }
    {
        Window {
            opens: self.opens,
            closes: self.closes,
        }
    }
}
