//! The plans' states, and machines that are no operation by themselves, for machines that are composed of them.

pub use crate::finish_takes::{FinishPoint, FinishState, FinishTakes};
pub use crate::give_up::{GivePoint, GiveState, GiveUp};
pub use crate::leave::{LeavePoint, LeaveState};
pub use crate::mend::{MendPoint, MendState};
pub use crate::mend_lower::{MendLower, MendLowerPoint, MendLowerState};
pub use crate::mend_unlatch::{MendUnlatch, MendUnlatchPoint, MendUnlatchState};
pub use crate::recover::{RecoverPoint, RecoverState};
pub use crate::recovering::{finish_takes_bound, give_up_bound, take_back_bound};
pub use crate::scan::{ScanPoint, ScanState};
pub use crate::take_back::{BackPoint, BackState, TakeBack};
