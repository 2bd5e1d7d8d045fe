//! The questions that every network answers.
ghost use Rattle.std.specs.Prelude.{◌≡◌};
ghost use Rattle.network.specs.Meaning.{Net};
ghost use Rattle.network.specs.Lawful.{Lawful};
ghost use Rattle.network.specs.Answers.{window_answer, length_answer, leg_answer};
ghost use Rattle.network.specs.Refusals.{told};

use crate::fault::NetworkFault;
use crate::leg::{Leg, Window};

/// A network: a source, or a layer over another network.
///
/// `meaning` says which network a value stands for, and `lawful` proves that it keeps the limits. Each question
/// answers from the meaning, alike each time, and changes nothing.
pub trait Network {
    ghost meaning: { Self → Net };

    ghost lawful: { (x : Self) → Lawful (meaning x) };

    /// How many nodes there are.
    fn node_count(&self) -> u16
        ensures { result ≡ (meaning self.now).n };

    fn depot(&self) -> u16
        ensures { result ≡ (meaning self.now).depot };

    fn sink(&self) -> u16
        ensures { result ≡ (meaning self.now).sink };

    /// A size that no cost exceeds.
    fn reach(&self) -> u32
        ensures { result ≡ (meaning self.now).reach };

    /// The opening hours of node `i`.
    fn window(&self, i: u16) -> Result<Window, NetworkFault>
        ensures { told result ≡ window_answer (meaning self.now) i };

    /// How many legs leave node `i`.
    fn row_len(&self, i: u16) -> Result<u16, NetworkFault>
        ensures { told result ≡ length_answer (meaning self.now) i };

    /// Leg `k` of node `i`, counted from 0.
    fn leg(&self, i: u16, k: u16) -> Result<Leg, NetworkFault>
        ensures { told result ≡ leg_answer (meaning self.now) i k };
}
