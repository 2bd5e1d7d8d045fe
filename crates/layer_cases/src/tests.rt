//! Prices and bars over an image, over tables and over a ring, alone and in piles.
ghost use Rattle.std.specs.Prelude.{◌+◌, ◌≤◌, length};

use image::source::ImageSource;
use layers::bars::{Bars, MAX_PAIRS};
use layers::draft::Draft;
use layers::fault::LayerFault;
use layers::prices::Prices;
use network::fault::{FileFault, FilePart, NetworkFault};
use network::leg::{Leg, Window};
use network::network::Network;
use ring::Ring;
use std::process::Abort;
use std::test::Fail;
use table_cases::{four_nodes, leg, node, six_legs, source_over};

/// How many bytes the image of four stops has.
const IMAGE_SIZE: usize = 1536;

/// Puts bytes into an image.
fn put(image: &mut [u8; IMAGE_SIZE], at: usize, bytes: &[u8])
    requires { at + length bytes.now ≤ 1536 }
{
    image[at..at + bytes.len()].copy_from_slice(bytes);
}

/// The image of four stops: the depot is 0 and the sink is 3, and two legs leave each of the others.
fn image_of_stops() -> [u8; IMAGE_SIZE] {
    let mut image = [0; IMAGE_SIZE];
    put(
        &mut image,
        0,
        b"\x01\x00\x00\x00\x04\x00\x00\x00\x03\x00\x06",
    );
    put(&mut image, 508, b"\x0e\x00\x72");
    put(&mut image, 512, b"\x02\x00\x01");
    put(&mut image, 528, b"\x02\x00\x00\x00\x05\x00\x00\x00\x02");
    put(&mut image, 540, b"\x01\x00\x00\x00\x09\x00\x00\x00\x04");
    put(&mut image, 552, b"\x04\x00\x00\x00\x0a\x00\x00\x00\x06");
    put(&mut image, 1020, b"\x2e\x00\x28\x06");
    put(&mut image, 1024, b"\x03\x00\x02");
    put(&mut image, 1028, b"\x01\x00\x00\x00\x02\x00\x00\x00\x04");
    put(&mut image, 1040, b"\x02\x00\x00\x00\x03\x00\x00\x00\x01");
    put(
        &mut image,
        1052,
        b"\x03\x00\x00\x00\x02\x00\x00\x00\xfd\xff\xff\xff",
    );
    put(
        &mut image,
        1064,
        b"\x02\x00\x00\x00\x01\x00\x00\x00\xfe\xff\xff\xff",
    );
    put(
        &mut image,
        1076,
        b"\x01\x00\x00\x00\x01\x00\x00\x00\xfe\xff\xff\xff",
    );
    put(&mut image, 1088, b"\x03\x00\x00\x00\x04\x00\x00\x00\x02");
    put(&mut image, 1532, b"\x15\x0c\xc5\x5f");
    image
}

/// The source of an image.
fn image_source(image: &[u8]) -> Result<ImageSource<'_>, FileFault> {
    let mut source = ImageSource::built_in();
    source.open(image)?;
    Ok(source)
}

/// A ring of so many stops, whose legs last 1 minute.
fn ring_of(stops: u16, cost: i32) -> Result<Ring, Fail> {
    Ring::new(stops, 1, cost).ok_or_else(|| Fail::new("no ring"))
}

/// Checks that these are the legs of node `i`, and no more.
fn check_row<N: Network>(rt: &impl Abort, net: &N, i: u16, legs: &[Leg]) -> Result<(), Fail> {
    let len = u16::try_from(legs.len())?;
    for (k, leg) in (0..len).zip(legs) {
        assert_eq!(rt; net.leg(i, k), Ok(*leg));
    }
    assert_eq!(rt; net.row_len(i), Ok(len));
    assert_eq!(rt; net.leg(i, len), Err(NetworkFault::NoLeg { node: i }));
    Ok(())
}

/// Bars the first `count` pairs that leave node 0.
fn bar_many<N: Network>(draft: &mut Draft<Bars<N>>, count: u16) -> Result<(), LayerFault> {
    (0..count).try_for_each(|j| draft.bar(0, j))
}

/// A price at node 2 of the four stops, which takes the place of an earlier one.
fn priced<N: Network + Drop>(rt: &impl Abort, net: N, reach: u32) -> Result<(), Fail> {
    let mut draft = Prices::over(net);
    draft.price(2, 9)?;
    draft.price(2, 5)?;
    let net = draft.seal();
    assert_eq!(rt; net.reach(), reach.saturating_add(10_000_000));
    assert_eq!(rt;
        net.window(2),
        Ok(Window {
            opens: 1,
            closes: 9,
        })
    );
    check_row(rt, &net, 0, &[leg(1, 2, 4), leg(2, 3, 1)])?;
    check_row(rt, &net, 2, &[leg(1, 1, -7), leg(3, 4, -3)])
}

/// A bar from node 1 to node 3 of the four stops.
fn barred<N: Network + Drop>(rt: &impl Abort, net: N, reach: u32) -> Result<(), Fail> {
    let mut draft = Bars::over(net);
    draft.bar(1, 3)?;
    let net = draft.seal();
    assert_eq!(rt; net.reach(), reach);
    check_row(rt, &net, 1, &[leg(2, 1, -2)])?;
    check_row(rt, &net, 2, &[leg(1, 1, -2), leg(3, 4, 2)])?;
    assert_eq!(rt; net.leg(4, 0), Err(NetworkFault::NoNode { node: 4 }));
    Ok(())
}

/// A price over a bar over a price on the four stops.
fn price_bar_price<N: Network + Drop>(rt: &impl Abort, net: N, reach: u32) -> Result<(), Fail> {
    let mut prices = Prices::over(net);
    prices.price(2, 5)?;
    let mut bars = Bars::over(prices.seal());
    bars.bar(1, 3)?;
    let two = bars.seal();
    check_row(rt, &two, 1, &[leg(2, 1, -2)])?;
    check_row(rt, &two, 2, &[leg(1, 1, -7), leg(3, 4, -3)])?;
    let mut more = Prices::over(two);
    more.price(1, -4)?;
    let three = more.seal();
    assert_eq!(rt; three.reach(), reach.saturating_add(20_000_000));
    check_row(rt, &three, 1, &[leg(2, 1, 2)])?;
    check_row(rt, &three, 2, &[leg(1, 1, -7), leg(3, 4, -3)])
}

/// A bar over a price over a bar on the four stops.
fn bar_price_bar<N: Network + Drop>(rt: &impl Abort, net: N, reach: u32) -> Result<(), Fail> {
    let mut bars = Bars::over(net);
    bars.bar(1, 3)?;
    let mut prices = Prices::over(bars.seal());
    prices.price(1, 1)?;
    let two = prices.seal();
    check_row(rt, &two, 1, &[leg(2, 1, -3)])?;
    let mut more = Bars::over(two);
    more.bar(1, 2)?;
    more.bar(2, 1)?;
    let three = more.seal();
    assert_eq!(rt; three.reach(), reach.saturating_add(10_000_000));
    check_row(rt, &three, 1, &[])?;
    check_row(rt, &three, 2, &[leg(3, 4, 2)])
}

/// Rows of the four stops that cannot be read stay so, with their fault.
fn unreadable<N: Network + Drop>(rt: &impl Abort, net: N) -> Result<(), Fail> {
    let below = FilePart::Check.at(2, 508);
    let mut bars = Bars::over(net);
    bars.bar(1, 3)?;
    let mut prices = Prices::over(bars.seal());
    prices.price(1, 5)?;
    let net = prices.seal();
    assert_eq!(rt;
        net.row_len(1),
        Err(NetworkFault::UnreadableRow { node: 1, below })
    );
    for node in 1..3 {
        assert_eq!(rt;
            net.leg(node, 0),
            Err(NetworkFault::UnreadableRow { node, below })
        );
    }
    Ok(())
}

/// Prices and bars over the four stops, alone and in piles.
fn layered<N: Network>(rt: &impl Abort, net: &N, reach: u32) -> Result<(), Fail> {
    priced(rt, net, reach)?;
    barred(rt, net, reach)?;
    price_bar_price(rt, net, reach)?;
    bar_price_bar(rt, net, reach)
}

#[test]
fn over_an_image(rt: HostRuntime) -> Result<(), Fail> {
    let image = image_of_stops();
    layered(&rt, &image_source(&image)?, 10_000_000)
}

#[test]
fn over_a_damaged_image(rt: HostRuntime) -> Result<(), Fail> {
    let mut image = image_of_stops();
    put(&mut image, 1028, b"\x02");
    unreadable(&rt, image_source(&image)?)
}

#[test]
fn over_tables(rt: HostRuntime) -> Result<(), Fail> {
    let (nodes, legs) = (four_nodes(), six_legs());
    layered(&rt, &source_over(&nodes, &legs, 0, 3)?, 4)
}

#[test]
fn a_price_at_no_node(rt: HostRuntime) -> Result<(), Fail> {
    let (nodes, legs) = (four_nodes(), six_legs());
    let mut draft = Prices::over(source_over(&nodes, &legs, 0, 3)?);
    assert_eq!(rt; draft.price(4, 0), Err(LayerFault::NoNode { node: 4 }));
    assert_eq!(rt;
        draft.price(4, 10_000_001),
        Err(LayerFault::NoNode { node: 4 })
    );
    Ok(())
}

/// Prices of the largest size, over costs of 100 and -100.
fn largest_sizes<N: Network + Drop>(rt: &impl Abort, net: N) -> Result<(), Fail> {
    let mut draft = Prices::over(net);
    draft.price(0, 10_000_000)?;
    draft.price(1, -10_000_000)?;
    for (node, price) in [(0, 10_000_001), (1, -10_000_001), (1, i32::MIN)] {
        assert_eq!(rt;
            draft.price(node, price),
            Err(LayerFault::PriceTooLarge { node })
        );
    }
    let net = draft.seal();
    assert_eq!(rt; net.reach(), 10_000_100);
    check_row(rt, &net, 0, &[leg(1, 1, -9_999_900)])?;
    check_row(rt, &net, 1, &[leg(0, 1, 9_999_900)])
}

/// Prices that with the reach below come to the largest reach, over costs of 995,000,000 and -995,000,000.
fn largest_reach<N: Network + Drop>(rt: &impl Abort, net: N) -> Result<(), Fail> {
    let mut draft = Prices::over(net);
    draft.price(0, -5_000_000)?;
    draft.price(1, 5_000_000)?;
    for (node, price) in [(0, -5_000_001), (1, 5_000_001)] {
        assert_eq!(rt;
            draft.price(node, price),
            Err(LayerFault::PriceTooLarge { node })
        );
    }
    let net = draft.seal();
    assert_eq!(rt; net.reach(), 1_000_000_000);
    check_row(rt, &net, 0, &[leg(1, 1, 1_000_000_000)])?;
    check_row(rt, &net, 1, &[leg(0, 1, -1_000_000_000)])?;
    let mut more = Prices::over(net);
    more.price(0, 0)?;
    assert_eq!(rt;
        more.price(0, 1),
        Err(LayerFault::PriceTooLarge { node: 0 })
    );
    Ok(())
}

#[test]
fn prices_at_their_limits(rt: HostRuntime) -> Result<(), Fail> {
    let nodes = [node(0, 9, 0), node(0, 9, 1)];
    let small = [leg(1, 1, 100), leg(0, 1, -100)];
    let large = [leg(1, 1, 995_000_000), leg(0, 1, -995_000_000)];
    largest_sizes(&rt, source_over(&nodes, &small, 0, 1)?)?;
    largest_reach(&rt, source_over(&nodes, &large, 0, 1)?)
}

#[test]
fn bars_at_no_node(rt: HostRuntime) -> Result<(), Fail> {
    let mut draft = Bars::over(ring_of(3, 7)?);
    assert_eq!(rt; draft.bar(4, 3), Err(LayerFault::NoNode { node: 4 }));
    assert_eq!(rt; draft.bar(2, 3), Err(LayerFault::NoNode { node: 3 }));
    Ok(())
}

#[test]
fn as_many_bars_as_there_are_places(rt: HostRuntime) -> Result<(), Fail> {
    let mut draft = Bars::over(ring_of(300, -7)?);
    bar_many(&mut draft, MAX_PAIRS)?;
    assert_eq!(rt; draft.bar(0, 256), Err(LayerFault::TooManyBars { node: 0 }));
    assert_eq!(rt; draft.bar(5, 6), Err(LayerFault::TooManyBars { node: 5 }));
    draft.bar(0, 255)?;
    let net = draft.seal();
    check_row(&rt, &net, 0, &[])?;
    check_row(&rt, &net, 5, &[leg(6, 1, -7)])
}

#[test]
fn a_pair_barred_twice_takes_one_place(rt: HostRuntime) -> Result<(), Fail> {
    let mut draft = Bars::over(ring_of(300, 7)?);
    draft.bar(1, 2)?;
    draft.bar(1, 2)?;
    bar_many(&mut draft, MAX_PAIRS - 1)?;
    assert_eq!(rt; draft.bar(2, 3), Err(LayerFault::TooManyBars { node: 2 }));
    check_row(&rt, &draft.seal(), 1, &[])
}

#[test]
fn unsealed_changed_and_sealed_again(rt: HostRuntime) -> Result<(), Fail> {
    let mut prices = Prices::over(ring_of(3, 10)?);
    prices.price(0, 4)?;
    let mut prices = prices.seal().unseal();
    prices.price(0, 6)?;
    let mut bars = Bars::over(prices.seal());
    bars.bar(1, 2)?;
    let mut bars = bars.seal().unseal();
    bars.bar(2, 0)?;
    let net = bars.seal();
    check_row(&rt, &net, 0, &[leg(1, 1, 4)])?;
    check_row(&rt, &net, 1, &[])?;
    check_row(&rt, &net, 2, &[])
}
