//! Sets of nodes numbered below 64.
ghost use Rattle.std.specs.Prelude.{◌≡◌, ◌^◌, cond, nat_lt, true};
ghost use Rattle.labels.specs.Sets.{no_nodes, Empty, has, adding, OneMore, within, Subset};

/// A set of nodes numbered below 64: bit `i` stands for node `i`.
#[derive(Clone, Copy, PartialEq, Eq, Debug)]
pub struct NodeSet {
    bits: u64,
}

/// The bit of a node, or none where the node is not below 64.
fn bit(node: u16) -> u64
    ensures { result ≡ cond (nat_lt node 64) (2 ^ node) 0 }
{
    1u64.checked_shl(u32::from(node)).unwrap_or(0)
}

#[tactic(auto, using(crate::specs::SetsLemmas::sets))]
impl NodeSet {
    pub fn empty() -> NodeSet
        ensures set { result ≡ no_nodes }
        ensures members { Empty result }
    {
        NodeSet { bits: 0 }
    }

    /// Whether a node is in the set.
    pub fn has(self, node: u16) -> bool
        ensures { result ≡ has self node }
    {
        self.bits & bit(node) != 0
    }

    /// The set with one node more, or the same where the node is not below 64.
    pub fn with(self, node: u16) -> NodeSet
        ensures set { result ≡ adding self node }
        ensures members { OneMore self node result }
    {
        NodeSet {
            bits: self.bits | bit(node),
        }
    }

    /// Whether every node of the set is in the other.
    pub fn within(self, other: NodeSet) -> bool
        ensures bits { result ≡ within self other }
        ensures each { result ≡ true → Subset self other }
        ensures only { Subset self other → result ≡ true }
    {
        self.bits | other.bits == other.bits
    }
}
