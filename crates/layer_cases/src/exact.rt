//! What a program may count on: no cost of a price layer is cut.
ghost use Rattle.std.specs.Prelude.{◌≡◌, ℕ, ◌<◌, map};
ghost use Rattle.layers.specs.Layer.{on_legs};
ghost use Rattle.layers.specs.Prices.{cheaper, price_of, priced};

use layers::draft::Sealed;
use layers::prices::Prices;
use network::network::Network;

/// No cost of a price layer is cut: every leg costs what it costs below, less the price of the node that it leaves.
pub fn no_cost_is_cut<N: Network>(net: &Sealed<Prices<N>>)
    ensures { (i : ℕ) → i < (N.meaning net.now.layer.below).n → (priced net.now.layer.prices (N.meaning net.now.layer.below)).row i ≡ on_legs (map (cheaper (price_of net.now.layer.prices i))) ((N.meaning net.now.layer.below).row i) }
{}

/// A network with two prices, as far as they are accepted: every leg costs what it costs below, less the price of the
/// node that it leaves.
pub fn priced_twice<N: Network>(net: N, first: (u16, i32), second: (u16, i32)) -> Sealed<Prices<N>>
    ensures { (i : ℕ) → i < (N.meaning net).n → (priced result.layer.prices (N.meaning result.layer.below)).row i ≡ on_legs (map (cheaper (price_of result.layer.prices i))) ((N.meaning net).row i) }
{
    let mut draft = Prices::over(net);
    let _ = draft.price(first.0, first.1);
    let mut draft = draft.seal().unseal();
    let _ = draft.price(second.0, second.1);
    draft.seal()
}
