// What a seat at the table of cells knows of its pass, and what a cell has at home.
use atomic_table::Badge;
use cd_core::Ask;
use std::collections::LinkedList;

/// Which step met a word. The root's arrival has a word of its own.
pub enum Meeting {
    Claim,
    Close,
    Arrival,
    RootArrival,
    Look,
}

/// A word that was met, and the domain whose it was. No value of it is made.
pub struct Met {
    pub by: Meeting,
    pub cell: u32,
    pub word: u64,
}

/// What a pass has the right to post, what it has in hand, and with which ask: what it turned, what it claimed or took to go on
/// with, what it closed; whose members it has the right to take, which of them it owes a taking, has taken and has cleared; which
/// domains it names; how often it posted, claimed and arrived with each domain, and stopped; the words that it met, the latest
/// first. And what the table was opened for, and which table it is. No value of it is made.
pub struct View<K> {
    pub key: Option<K>,
    pub table: LinkedList<u64>,
    pub fresh: u64,
    pub rights: LinkedList<u32>,
    pub turns: LinkedList<Ask>,
    pub holds: LinkedList<Ask>,
    pub shuts: LinkedList<u32>,
    pub lasts: LinkedList<u32>,
    pub owes: LinkedList<u32>,
    pub takes: LinkedList<u32>,
    pub clears: LinkedList<u32>,
    pub named: LinkedList<Ask>,
    pub posts: LinkedList<u32>,
    pub claims: LinkedList<u32>,
    pub arrives: LinkedList<u32>,
    pub stops: u64,
    pub met: LinkedList<Met>,
}

/// What a cell has at home: a state, the ticket of its domain, and an empty list, which for a state that waits has capacity for
/// the members of its group.
#[derive(Drop)]
pub struct Cell<K, T> {
    pub state: T,
    pub ticket: Badge<View<K>>,
    pub list: Vec<T>,
}
