//! The words of a shared memory pool: where each word lies and how headers, tags and redo records are packed.
//!
//! A pool is a table of 64-bit words. The design (a header with last client, era and count; a matrix of eras; a redo
//! record) is that of CXL-SHM (SOSP 2023); the exact layout and packings are this project's own.
//!
//! There are two formats. In format 1 a pool has at most 256 segments, and a redo record is one word; in format 2 it has at most
//! 8,000, and a redo record is two words, since addresses have 24 bits. A `Geometry` is of one of them.
#![tactic(auto)]

pub mod class;
pub mod geometry;
pub mod header;
pub mod layout;
pub mod place;
pub mod redo;
pub mod tag;

pub use class::class_of;
pub use geometry::{BadGeometry, Geometry};
pub use header::Header;
pub use layout::ADDRESS_LIMIT;
pub use place::Place;
pub use redo::{Pair2, Redo};
pub use tag::Tag;
