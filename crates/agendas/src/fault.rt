//! Why an agenda does not take an entry.
ghost use Rattle.std.specs.Prelude.{◌≡◌};
ghost use Rattle.agendas.specs.Bags.{fault_number};

/// Why an agenda does not take an entry.
#[derive(Clone, Copy, PartialEq, Eq, Debug)]
pub enum AgendaFault {
    /// as many entries wait as there is room for
    Full = 12,
}

impl AgendaFault {
    /// The number of the refusal.
    pub fn number(self) -> u8
        ensures { result ≡ fault_number self }
    {
        self as u8
    }
}
