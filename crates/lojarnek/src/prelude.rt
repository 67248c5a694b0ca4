//! What nearly every program that uses the crate names.

pub use crate::builder::Builder;
pub use crate::client::Client;
pub use crate::corpse::Corpse;
pub use crate::error::Error;
pub use crate::pool::Pool;
pub use crate::vacant::Vacant;
