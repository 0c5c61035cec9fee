use crate::sleeper::Sleeper;

/// The key under which the slab has a node.
#[derive(Clone, Copy, PartialEq, Eq, Debug)]
pub struct NodeKey(pub usize);

/// A sleeper in the chain of its bucket.
#[derive(Clone, Copy, PartialEq, Eq, Debug)]
pub struct Node {
    /// Who sleeps, and where.
    pub sleeper: Sleeper,
    /// Who came next to the bucket, if anybody did.
    pub next: Option<NodeKey>,
}

/// The chain of a bucket's nodes, in the order in which they came. Both ends are there, or neither is.
#[derive(Clone, Copy, PartialEq, Eq, Debug)]
pub struct Chain {
    /// Who came first.
    pub first: Option<NodeKey>,
    /// Who came last.
    pub last: Option<NodeKey>,
}

/// Where a node stands in its chain.
#[derive(Clone, Copy, PartialEq, Eq, Debug)]
pub struct Spot {
    /// The node before it.
    pub before: Option<NodeKey>,
    /// The node.
    pub key: NodeKey,
    /// The node after it.
    pub next: Option<NodeKey>,
}
