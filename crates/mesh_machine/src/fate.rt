//! What becomes of the messages of a frame (RFC 7181, section 14).
use mesh_atoms::{Base, Refusal, Seq};
use mesh_flood::{Forward, Process};

/// What is made of a message.
#[derive(Clone, Copy, PartialEq, Eq)]
pub enum Read {
    /// A HELLO that is taken.
    Hello,
    /// A TC that is taken.
    Topology,
    /// A TC of an older number than the one that is kept of its originator.
    Old { kept: u16, given: u16 },
    /// A HELLO or a TC that breaks the rule of that number.
    Broken(u8),
    /// A HELLO or a TC with which that set would have too many tuples.
    Full(Base),
    /// A message that isn't processed, for that reason.
    Passed(Process),
    /// A message of another type.
    Other,
}

/// What becomes of a message: what is made of it, and whether it is forwarded.
#[derive(Clone, Copy, PartialEq, Eq)]
pub struct Fate {
    pub read: Read,
    pub forward: Forward,
}

/// What is answered to a frame: that it is refused, at its first fault, or what becomes of each of its messages, in order.
#[derive(Drop)]
pub enum Heard {
    Refused(Refusal),
    Taken(Seq<Fate>),
}
