//! A network through a reference: whatever is written for networks works over a borrowed one too.
use crate::fault::NetworkFault;
use crate::leg::{Leg, Window};
use crate::network::Network;

impl<'a, N: Network> Network for &'a N {
    ghost meaning = { λ s. N.Network.meaning s.now };

    ghost lawful = { λ s. N.Network.lawful s.now };

    fn node_count(&self) -> u16 {
        (**self).node_count()
    }

    fn depot(&self) -> u16 {
        (**self).depot()
    }

    fn sink(&self) -> u16 {
        (**self).sink()
    }

    fn reach(&self) -> u32 {
        (**self).reach()
    }

    fn window(&self, i: u16) -> Result<Window, NetworkFault> {
        (**self).window(i)
    }

    fn row_len(&self, i: u16) -> Result<u16, NetworkFault> {
        (**self).row_len(i)
    }

    fn leg(&self, i: u16, k: u16) -> Result<Leg, NetworkFault> {
        (**self).leg(i, k)
    }
}
