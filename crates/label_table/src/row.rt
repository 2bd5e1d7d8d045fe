//! A row of the label table.
ghost use Rattle.std.specs.Prelude.{◌≡◌};
ghost use Rattle.label_table.specs.Rows.{stands_over, lowered, marked};

use labels::label::Label;

/// An entry: a label at a node, the entry and the leg that it came by, and what became of it.
///
/// The first entry has parent 0 and the leg number [`NO_LEG_TAKEN`](paths::stop::NO_LEG_TAKEN).
#[derive(Clone, Copy, PartialEq, Eq, Debug)]
pub struct Row<L> {
    pub node: u16,
    pub parent: u16,
    pub leg: u16,
    pub label: L,
    /// no later entry at its node covers it
    pub stands: bool,
    /// it was extended along the legs of its node
    pub treated: bool,
}

impl<L: Label> Row<L> {
    /// Whether it stands at a node and covers a label.
    pub fn stands_over(&self, node: u16, label: &L) -> bool
        ensures { result ≡ stands_over L.kind node label.now self.now }
    {
        self.stands && self.node == node && self.label.covers(label)
    }

    /// The row once a label has entered at a node: it stands no more if it stood there and the label covers it.
    pub fn lowered(self, node: u16, label: &L) -> Row<L>
        ensures { result ≡ lowered L.kind node label.now self }
    {
        let beaten = self.node == node && label.covers(&self.label);
        Row {
            stands: self.stands && !beaten,
            ..self
        }
    }

    /// The row, treated.
    pub fn marked(self) -> Row<L>
        ensures { result ≡ marked self }
    {
        Row {
            treated: true,
            ..self
        }
    }
}
