//! The plans' states, for machines that are composed of them.

pub use crate::drain::{DrainPoint, DrainState};
pub use crate::peek::{PeekPoint, PeekState};
pub use crate::receive::{ReceivePoint, ReceiveState};
pub use crate::send::{SendPoint, SendState};
pub use crate::take::{TakePoint, TakeState};
