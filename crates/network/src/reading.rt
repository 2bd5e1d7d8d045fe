//! Readers of what is known to be there, for loops over a network that was judged before.
ghost use Rattle.std.specs.Prelude.{◌≡◌, ◌<◌, length, None, slice_index_or};
ghost use Rattle.network.specs.Meaning.{legs_at, fault_in, no_leg};

use crate::leg::{Leg, Window};
use crate::network::Network;

/// The window of a node that is there.
pub fn window_at<N: Network>(net: &N, i: u16) -> Window
    requires node { i < (N.meaning net.now).n }
    ensures { result ≡ (N.meaning net.now).window i }
{
    net.window(i).unwrap()
}

/// The length of a row that can be read.
pub fn len_at<N: Network>(net: &N, i: u16) -> u16
    requires node { i < (N.meaning net.now).n }
    requires readable { fault_in ((N.meaning net.now).row i) ≡ None }
    ensures { result ≡ length (legs_at (N.meaning net.now) i) }
{
    net.row_len(i).unwrap()
}

/// A leg that is there.
pub fn leg_at<N: Network>(net: &N, i: u16, k: u16) -> Leg
    requires node { i < (N.meaning net.now).n }
    requires within { k < length (legs_at (N.meaning net.now) i) }
    ensures { result ≡ slice_index_or (legs_at (N.meaning net.now) i) k no_leg }
{
    net.leg(i, k).unwrap()
}
