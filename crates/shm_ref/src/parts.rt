//! The plans' states, and machines that are no operation by themselves, for machines that are composed of them.

pub use crate::bound::drop_roots_bound;
pub use crate::drop_root::{DropPoint, DropState};
pub use crate::drop_roots::{DropRoots, RootsState};
pub use crate::hold::{HoldPoint, HoldState};
pub use crate::home_of::{HomeOfPoint, HomeOfState};
pub use crate::look::{LookPoint, LookState};
pub use crate::read::{ReadPoint, ReadState};
pub use crate::refusals::drop_roots_refusals;
pub use crate::release::{ReleasePoint, ReleaseState};
pub use crate::root_of::NamingState;
pub use crate::root_steps::{ChangingState, LoweringState, RaisingState};
pub use crate::set_home::{HomePoint, HomeState};
pub use crate::set_ref::{SetPoint, SetState};
