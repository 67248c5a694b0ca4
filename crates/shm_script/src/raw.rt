//! Lines by their shape alone: their numbers may have any size, and stand at any place.

/// An item of an order; a number from 2^64 on is `None`.
#[derive(Clone, Copy, Drop)]
pub struct RawItem {
    pub client: Option<u64>,
    pub turns: Option<Option<u64>>,
}

/// A command; a number from 2^64 on is `None`.
#[derive(Clone, Copy, Drop)]
pub enum RawCommand {
    Put(Option<u64>, Option<u64>),
    Del(Option<u64>),
    Get(Option<u64>, Option<u64>),
    Copy(Option<u64>, Option<u64>, Option<u64>),
    Send(Option<u64>, Option<u64>),
    Recv(Option<u64>, Option<u64>),
}

/// A line of a trace; a number from 2^64 on is `None`. That of a pool tells first whether it is of format 2.
#[derive(Drop)]
pub enum RawLine {
    Pool(bool, Option<u64>, Option<u64>),
    Order(Vec<RawItem>),
    Client(Option<u64>),
    Life(Vec<Option<u64>>),
    Command(RawCommand),
}
