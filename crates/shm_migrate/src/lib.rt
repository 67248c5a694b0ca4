//! The migration of images: a clean pool of format 1 becomes one of format 2 with the same table.
#![tactic(auto)]

mod image;
mod migrating;
mod stop;
mod text;
mod words;

pub use migrating::{migrate, migration_laws};
pub use stop::MigrateStop;
pub use text::stop_text;
