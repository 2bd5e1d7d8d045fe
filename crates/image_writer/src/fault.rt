//! Why a network is not written.
ghost use Rattle.std.specs.Prelude.{◌≡◌};
ghost use Rattle.image_writer.specs.Write.{write_refusal};
ghost use Rattle.image_writer.specs.declared.fault.WriteFault.TheVariants.{Network};

use network::fault::NetworkFault;

/// A row that cannot be read, a node with a cost that an image cannot hold, or a buffer that is too short.
#[derive(Clone, Copy, PartialEq, Eq, Debug)]
pub enum WriteFault {
    Network(NetworkFault),
    CostTooLarge { node: u16 },
    NoRoom,
}

impl WriteFault {
    /// The number of the refusal.
    pub fn number(&self) -> u8
        ensures { result ≡ (write_refusal self.now).number }
    {
        match self {
            WriteFault::Network(fault) => fault.number(),
            WriteFault::CostTooLarge { .. } => 20,
            WriteFault::NoRoom => 19,
        }
    }
}

impl From<NetworkFault> for WriteFault {
    ghost from_gives = { λ f r. r ≡ Network f };

    fn from(f: NetworkFault) -> WriteFault {
        WriteFault::Network(f)
    }
}
