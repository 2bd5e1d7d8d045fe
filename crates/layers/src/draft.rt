//! Drafts and sealed layers.
ghost use Rattle.std.specs.Prelude.{◌≡◌};

/// A layer that is being changed, and does not answer as a network.
#[derive(Drop)]
pub struct Draft<L> {
    pub(crate) layer: L,
}

/// A layer that stays as it is, and answers as a network.
// Both layers hand node count, depot, sink and windows on: a trait for all layers would take more lines than these take twice.
#[derive(Drop)]
pub struct Sealed<L> {
    pub(crate) layer: L,
}

impl<L> Draft<L> {
    /// Moves the layer, as it is, out of the draft.
    pub fn seal(self) -> Sealed<L>
        ensures { result.layer ≡ self.layer }
    {
        let Draft { layer } = self;
        Sealed { layer }
    }
}

impl<L> Sealed<L> {
    /// Moves the layer, as it is, back into a draft.
    pub fn unseal(self) -> Draft<L>
        ensures { result.layer ≡ self.layer }
    {
        let Sealed { layer } = self;
        Draft { layer }
    }
}
