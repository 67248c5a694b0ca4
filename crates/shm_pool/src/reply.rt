//! What a call answers.

/// An answer, or that the agent died before there was one.
#[derive(Drop)]
pub enum Reply<A> {
    Done(A),
    Died,
}
