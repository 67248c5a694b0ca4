//! The plans' states, and machines that are no operation by themselves, for machines that are composed of them.

pub use crate::bound::{
    enter_bound, fetch_bound, fetch_head_bound, find_bound, locate_bound, open_table_bound,
    put_root_bound, replace_bound, take_head_bound, unlatch_bound, unlink_bound,
};
pub use crate::copy::{CopyPoint, CopyState};
pub use crate::del::{DelPoint, DelState};
pub use crate::effect::Deciding;
pub use crate::enter::{Enter, EnterPoint, EnterState, Entered};
pub use crate::fetch::{Fetch, FetchPoint, FetchState, Fetched};
pub use crate::fetch_head::{FetchHead, FetchHeadPoint, FetchHeadState, FetchedHead};
pub use crate::find::{Find, FindPoint, FindState, Found};
pub use crate::get::{GetPoint, GetState};
pub use crate::locate::{Locate, LocatePoint, LocateState};
pub use crate::open_table::{OpenPoint, OpenState, OpenTable};
pub use crate::opening::open_table_tells;
pub use crate::put::{PutPoint, PutState};
pub use crate::put_root::{PutRoot, PutRootPoint, PutRootState, PuttingRoot};
pub use crate::reading::{find_tells, locate_tells, read_tells};
pub use crate::recv::{RecvPoint, RecvState};
pub use crate::replace::{Replace, ReplacePoint, ReplaceState};
pub use crate::send_key::{SendKeyPoint, SendKeyState};
pub use crate::take_head::{TakeHead, TakeHeadPoint, TakeHeadState};
pub use crate::unlatch::{Unlatch, UnlatchPoint, UnlatchState};
pub use crate::unlink::{Unlink, UnlinkPoint, UnlinkState};
