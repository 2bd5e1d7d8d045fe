//! Why a run refuses.
ghost use Rattle.std.specs.Prelude.{◌≡◌};
ghost use Rattle.label_table.specs.Refusals.{cause_number, fault_at};
ghost use Rattle.label_table.specs.declared.fault.Cause.TheVariants.{Network as OfNetwork, AgendaFull};

use agendas::fault::AgendaFault;
use network::fault::{Met, NetworkFault};

/// What stands in the way of a call on a run.
#[derive(Clone, Copy, PartialEq, Eq, Debug)]
pub enum Cause {
    /// the network does not answer: its own fault, whole
    Network(NetworkFault),
    /// the agenda is at its capacity
    AgendaFull,
    /// a table of another length than the run's, or of one that no run can have; or a network of another size
    WrongTable,
    /// an entry waits in the agenda already, or not all that the table can hold can wait
    AgendaUnready,
    /// the run has stopped
    Stopped,
    /// no such entry, or one whose row cannot be one of this run
    NoEntry,
    /// every row of the table is entered
    TableFull,
    /// an entry waits, or the run has stopped
    NotIdle,
    /// the buffer is too short
    ShortBuffer,
}

impl Cause {
    /// The number of the refusal.
    pub fn number(&self) -> u8
        ensures { result ≡ cause_number self.now }
    {
        match self {
            Cause::Network(below) => below.number(),
            Cause::AgendaFull => 12,
            Cause::WrongTable => 13,
            Cause::AgendaUnready => 14,
            Cause::Stopped => 15,
            Cause::NoEntry => 16,
            Cause::TableFull => 17,
            Cause::NotIdle => 18,
            Cause::ShortBuffer => 19,
        }
    }

    /// A fault with this cause, at an entry.
    pub fn at(self, entry: u16) -> RunFault
        ensures { result ≡ fault_at self entry }
    {
        RunFault { entry, cause: self }
    }
}

/// Why a call on a run is refused, and the entry that was taken or named: 0 where there is none.
#[derive(Clone, Copy, PartialEq, Eq, Debug)]
pub struct RunFault {
    pub entry: u16,
    pub cause: Cause,
}

impl RunFault {
    /// The number of the refusal.
    pub fn number(&self) -> u8
        ensures { result ≡ cause_number self.now.cause }
    {
        self.cause.number()
    }
}

impl From<Met<NetworkFault>> for RunFault {
    ghost from_gives = { λ m r. r ≡ fault_at (OfNetwork m.fault) m.at };

    fn from(m: Met<NetworkFault>) -> RunFault {
        Cause::Network(m.fault).at(m.at)
    }
}

impl From<Met<AgendaFault>> for RunFault {
    ghost from_gives = { λ m r. r ≡ fault_at AgendaFull m.at };

    fn from(m: Met<AgendaFault>) -> RunFault {
        Cause::AgendaFull.at(m.at)
    }
}
