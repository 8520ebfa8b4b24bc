// What a seat at the table of blocks knows of its pass. It is there in proofs alone.
use cd_keep::KeepId;
use std::collections::LinkedList;

/// Words under an id. No value of it is made.
pub struct Piece {
    pub id: KeepId,
    pub words: LinkedList<u64>,
}

/// A gone answer: the id that was asked for, and the serial that its block had. No value of it is made.
pub struct Miss {
    pub id: KeepId,
    pub found: u64,
}

/// A control word that was met, and the block whose it was. No value of it is made.
pub struct Look {
    pub block: u32,
    pub word: u64,
}

/// What a pass holds, the words of all that it holds or has seen, what it is filling and trying, its room, its gone answers,
/// the control words that it met and did not change, and how often it took, shared and left a block. No value of it is made.
pub struct View {
    pub holds: LinkedList<KeepId>,
    pub known: LinkedList<Piece>,
    pub filling: Option<Piece>,
    pub trying: Option<u32>,
    pub room: u32,
    pub gone: LinkedList<Miss>,
    pub looks: LinkedList<Look>,
    pub takes: u64,
    pub shares: u64,
    pub leaves: u64,
}
