//! The check of a block.
ghost use Rattle.std.specs.Prelude.{◌≡◌};
ghost use Rattle.blocks.specs.Numbers.{u16_at, bytes16, plain_check, weighted_check};
ghost use Rattle.blocks.specs.Over.{over};

use crate::block::{Block, CHECK_AT};
use crate::bytes::{le16, put16};

/// The two sums of a check.
#[derive(Clone, Copy, PartialEq, Eq)]
pub struct Check {
    pub plain: u16,
    pub weighted: u16,
}

/// What both sums are taken modulo: the largest prime below 2^16.
const MODULUS: u32 = 65_521;

impl Check {
    /// The check that a block should have.
    pub fn of(block: &Block) -> Check
        ensures plain { result.plain ≡ plain_check block.now }
        ensures weighted { result.weighted ≡ weighted_check block.now }
    {
        let mut plain: u32 = 0;
        let mut weighted: u32 = 0;
        for (i, byte) in block[..CHECK_AT].iter().enumerate() {
            let byte = *byte as u32;
            plain += byte;
            weighted += (i as u32 + 1) * byte;
        }
        Check {
            plain: (plain % MODULUS) as u16,
            weighted: (weighted % MODULUS) as u16,
        }
    }

    /// The check that a block has.
    pub fn stored_in(block: &Block) -> Check
        ensures plain { result.plain ≡ u16_at block.now 508 }
        ensures weighted { result.weighted ≡ u16_at block.now 510 }
    {
        Check {
            plain: le16(block, CHECK_AT),
            weighted: le16(block, CHECK_AT + 2),
        }
    }

    /// Writes the check into a block.
    pub fn store_in(self, block: &mut Block)
        ensures { block.new ≡ over (over block.old 508 (bytes16 self.plain)) 510 (bytes16 self.weighted) }
    {
        put16(block, CHECK_AT, self.plain);
        put16(block, CHECK_AT + 2, self.weighted);
    }
}
