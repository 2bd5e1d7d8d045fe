//! Why a file is refused, and why a network does not answer.
ghost use Rattle.std.specs.Prelude.{◌≡◌, cond, nat_lt, Some, Ok, Err};
ghost use Rattle.std.specs.Result.{result_map_both};
ghost use Rattle.network.specs.Refusals.{part_number, fault, file_refusal, file_refusal_text, network_refusal};
ghost use Rattle.network.specs.declared.fault.NetworkFault.TheVariants.{NoNode, UnreadableRow};

use crate::each::unless;
use std::fmt;

/// The part of a file that is wrong.
#[derive(Clone, Copy, PartialEq, Eq, Debug)]
pub enum FilePart {
    /// how many bytes there are
    Size = 1,
    /// the check of a block
    Check = 2,
    /// kind, zero byte or number of a block
    Frame = 3,
    /// what counts nodes and legs, and names depot and sink
    Header = 4,
    /// a record of a node
    NodeTable = 5,
    /// a record of a leg
    LegTable = 6,
}

impl FilePart {
    /// The number of the refusal.
    pub fn number(self) -> u8
        ensures { result ≡ part_number self }
    {
        self as u8
    }

    /// A fault of this part, at a byte of a block.
    pub fn at(self, block: u16, byte: u16) -> FileFault
        ensures { result ≡ fault self block byte }
    {
        FileFault {
            part: self,
            block,
            byte,
        }
    }
}

/// What is wrong with a file, and where: in an image a block and a byte of it, in a table block 0 and a record.
#[derive(Clone, Copy, PartialEq, Eq, Debug)]
pub struct FileFault {
    pub part: FilePart,
    pub block: u16,
    pub byte: u16,
}

/// The number of the refusal, the block and the byte.
impl fmt::Display for FileFault {
    ghost output = { λ f. Some (file_refusal_text (file_refusal f)) };

    fn fmt<W: fmt::Write>(&self, f: &mut fmt::Formatter<W>) -> fmt::Result {
        write!(f, "{} {} {}", self.part.number(), self.block, self.byte)
    }
}

/// Why a network does not answer, the node asked about, and the fault of the file below.
#[derive(Clone, Copy, PartialEq, Eq, Debug)]
pub enum NetworkFault {
    NoNode { node: u16 },
    NoLeg { node: u16 },
    UnreadableRow { node: u16, below: FileFault },
}

impl NetworkFault {
    /// The number of the refusal.
    pub fn number(&self) -> u8
        ensures { result ≡ (network_refusal self.now).number }
    {
        match self {
            NetworkFault::NoNode { .. } => 7,
            NetworkFault::NoLeg { .. } => 8,
            NetworkFault::UnreadableRow { .. } => 9,
        }
    }
}

/// Refuses a node that is not among `n` nodes.
pub fn known(i: u16, n: u16) -> Result<(), NetworkFault>
    ensures { result ≡ cond (nat_lt i n) (Ok tt) (Err (NoNode i)) }
{
    unless(i < n, NetworkFault::NoNode { node: i })
}

/// A fault of what lies below, and the place where it was met: the node or the entry that was asked about.
#[derive(Clone, Copy, PartialEq, Eq, Debug)]
pub struct Met<F> {
    pub at: u16,
    pub fault: F,
}

/// What came of something below, met at a place.
pub fn met_at<T, F>(r: Result<T, F>, at: u16) -> Result<T, Met<F>>
    ensures { result ≡ result_map_both (λ x. x) (λ f. record { at = at; fault = f }) r }
{
    r.map_err(|fault| Met { at, fault })
}

impl From<Met<FileFault>> for NetworkFault {
    ghost from_gives = { λ m r. r ≡ UnreadableRow m.at m.fault };

    fn from(m: Met<FileFault>) -> NetworkFault {
        NetworkFault::UnreadableRow {
            node: m.at,
            below: m.fault,
        }
    }
}
