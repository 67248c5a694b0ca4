//! The controls of the machines of this crate, for machines that are composed of them.

pub use crate::answer::ShareFault;
pub use crate::commit_test::{TestingPoint, TestingState};
pub use crate::point::{Aim, Half, StepNext, StepPoint, StepState};
pub use crate::tear_point::{TearNext, TearPoint, TearState};
pub use crate::up_root::{RootingPoint, RootingState, UpRoot};
