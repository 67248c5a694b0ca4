//! What an image of a pool shows: its segments, pages, blocks, counts and identities as figures and as a picture.
#![tactic(auto)]

mod arrows;
mod cell;
mod census;
mod chain;
mod change;
mod changes;
mod figures_json;
mod histogram;
mod identity;
mod images;
mod layout;
mod looks;
mod pages;
mod pool;
mod stats;
mod svg;
mod tables;
mod text;

pub use cell::{Cell, Table};
pub use census::{Census, take_census};
pub use changes::{ChangesStop, changes_picture};
pub use figures_json::stats_json;
pub use histogram::Histogram;
pub use identity::{Identity, read_identity};
pub use images::split_images;
pub use pool::pool_picture;
pub use stats::{Stats, image_stats};
pub use svg::{Colour, Picture, Shape, svg_text};
pub use text::stats_text;
