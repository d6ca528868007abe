// What a seat of the table knows. No value of these types is made.
use std::collections::LinkedList;

/// Of one log: how many appends it has, modulo 2^64, where the seat owns it, and what was seen of it.
pub struct Page<I> {
    pub number: Option<u64>,
    pub seen: LinkedList<I>,
}

pub struct View<I> {
    /// It isn't spent.
    pub live: bool,
    /// The log that is handed out next.
    pub dealt: u64,
    /// A page for each log.
    pub pages: LinkedList<Page<I>>,
    /// What the two views had seen that were joined last.
    pub earlier: LinkedList<LinkedList<Page<I>>>,
}
