// The id under which words are kept.
/// What words are kept under: a block of the store, and a serial that tells the keeps in that block apart.
#[derive(Debug, Clone, Copy, PartialEq, Eq, PartialOrd, Ord, Hash)]
pub struct KeepId {
    pub block: u32,
    pub serial: u64,
}
