//! Tests of writing by example: what is written, what is refused, and what a buffer holds then.
#![tactic(auto)]

ghost use Rattle.std.specs.Prelude.{◌≤◌};

#[cfg(test)]
mod tests {
    use image::source::ImageSource;
    use image_writer::fault::WriteFault;
    use image_writer::write::write;
    use network::fault::{FileFault, FilePart, NetworkFault};
    use network::leg::{Leg, Window};
    use network::network::Network;
    use round_trip::{copy, rewrite};
    use std::test::Fail;
    use table_cases::{leg, node, source_over};
    use tables::record::NodeRecord;

    fn nodes() -> [NodeRecord; 3] {
        [node(0, 9, 0), node(1, 8, 1), node(2, 7, 2)]
    }

    /// Legs 0 to 1, 1 to 2 and 2 to 0 at these costs.
    fn legs(a: i32, b: i32, c: i32) -> [Leg; 3] {
        [leg(1, 3, a), leg(2, 4, b), leg(0, 5, c)]
    }

    /// What writing that network at these costs answers, into a buffer of sevens, and whether the buffer still is one.
    fn attempt(
        a: i32,
        b: i32,
        c: i32,
        room: usize,
    ) -> Result<(Result<usize, WriteFault>, bool), FileFault>
        requires { room ≤ 2048 }
    {
        let (nodes, legs) = (nodes(), legs(a, b, c));
        let source = source_over(&nodes, &legs, 0, 2)?;
        let mut buffer = [7u8; 2048];
        let answer = write(&source, &mut buffer[..room]);
        Ok((answer, buffer == [7u8; 2048]))
    }

    #[test]
    fn costs_at_the_limit_are_written(rt: HostRuntime) -> Result<(), Fail> {
        assert_eq!(rt;
            attempt(10_000_000, -10_000_000, 0, 2048)?,
            (Ok(1536), false)
        );
        Ok(())
    }

    #[test]
    fn lowest_node_with_a_large_cost(rt: HostRuntime) -> Result<(), Fail> {
        let large = Err(WriteFault::CostTooLarge { node: 1 });
        assert_eq!(rt; attempt(0, 10_000_001, -10_000_001, 2048)?, (large, true));
        Ok(())
    }

    #[test]
    fn large_cost_comes_before_short_buffer(rt: HostRuntime) -> Result<(), Fail> {
        let large = Err(WriteFault::CostTooLarge { node: 2 });
        assert_eq!(rt; attempt(0, 0, -10_000_001, 0)?, (large, true));
        Ok(())
    }

    #[test]
    fn short_buffer(rt: HostRuntime) -> Result<(), Fail> {
        assert_eq!(rt; attempt(1, 2, 3, 1535)?, (Err(WriteFault::NoRoom), true));
        assert_eq!(rt; attempt(1, 2, 3, 1536)?, (Ok(1536), false));
        Ok(())
    }

    #[test]
    fn bytes_beyond_the_image_stay(rt: HostRuntime) -> Result<(), Fail> {
        let (nodes, legs) = (nodes(), legs(1, 2, 3));
        let source = source_over(&nodes, &legs, 0, 2)?;
        let mut buffer = [7u8; 1600];
        write(&source, &mut buffer)?;
        assert!(rt; buffer[1536] == 7 && buffer[1599] == 7);
        Ok(())
    }

    #[test]
    fn copy_reads_back(rt: HostRuntime) -> Result<(), Fail> {
        let (nodes, legs) = (nodes(), legs(1, 2, 3));
        let source = source_over(&nodes, &legs, 1, 2)?;
        let mut buffer = [0u8; 1536];
        let mut copied = ImageSource::built_in();
        copy(&source, &mut buffer, &mut copied)?;
        assert_eq!(rt;
            (copied.node_count(), copied.depot(), copied.sink()),
            (3, 1, 2)
        );
        assert_eq!(rt;
            copied.window(2)?,
            Window {
                opens: 2,
                closes: 7,
            }
        );
        Ok(())
    }

    /// The sample network's image.
    fn image() -> Result<[u8; 1536], Fail> {
        let (nodes, legs) = (nodes(), legs(1, 2, 3));
        let source = source_over(&nodes, &legs, 0, 2)?;
        let mut image = [0u8; 1536];
        write(&source, &mut image)?;
        Ok(image)
    }

    #[test]
    fn unreadable_row_is_not_written(rt: HostRuntime) -> Result<(), Fail> {
        let mut image = image()?;
        image[1100] = 1;
        let mut source = ImageSource::built_in();
        source.open(&image)?;
        let mut buffer = [7u8; 1536];
        let below = FilePart::Check.at(2, 508);
        let unread = NetworkFault::UnreadableRow { node: 0, below };
        assert_eq!(rt;
            rewrite(&source, &mut buffer),
            Err(WriteFault::Network(unread))
        );
        assert!(rt; buffer == [7u8; 1536]);
        Ok(())
    }

    #[test]
    fn opened_image_is_written_again(rt: HostRuntime) -> Result<(), Fail> {
        let image = image()?;
        let mut source = ImageSource::built_in();
        source.open(&image)?;
        let mut buffer = [7u8; 1536];
        assert_eq!(rt; rewrite(&source, &mut buffer), Ok(1536));
        assert!(rt; buffer == image);
        Ok(())
    }
}
