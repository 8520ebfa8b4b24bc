// What a domain is sent with, as plain data.
use cd_tree::NodeId;
use std::collections::LinkedList;

/// What a domain is sent with: its words over the ranges of its reach, in order; the begin counts of its subtree, in preorder;
/// the words of the link of each of its outer references, in order; and, but for the root, the number of a pass's store. It is
/// for contracts: no value of it is made.
pub struct Ask {
    pub node: NodeId,
    pub words: LinkedList<u64>,
    pub counts: LinkedList<u64>,
    pub links: LinkedList<LinkedList<u64>>,
    pub store: Option<u64>,
}
