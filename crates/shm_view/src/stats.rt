//! The figures of an image.

ghost use Rattle.std.specs.Prelude.{◌≡◌, length, IfOk, IfErr};
ghost use Rattle.shm_words.specs.Layout.{GeometryFits, total_of};
ghost use Rattle.shm_audit.specs.{Faults.image_fault_of, Images.numbers, Stops.StopsBy};
ghost use Rattle.shm_view.specs.Figures.{AreIdentities, AreStats};

use crate::census::{Census, take_census};
use crate::identity::{Identity, read_identity};
use shm_audit::{AuditStop, Verdict, audit, open_image};
use shm_words::Geometry;
use std::alloc::{AllocError, Global};

/// The figures of a pool.
#[derive(Drop)]
pub struct Stats {
    pub geometry: Geometry,
    /// How many words it has.
    pub words: u32,
    pub census: Census,
    /// What the pool's words say of each identity.
    pub identities: Vec<Identity>,
    /// What an audit says of the pool.
    pub verdict: Verdict,
}

/// The figures of an image, or its first fault, as an audit finds it.
pub fn image_stats(alloc: Global, image: &[u8]) -> Result<Stats, AuditStop>
    ensures ok { IfOk result (AreStats image.now) }
    ensures err { IfErr result (StopsBy (image_fault_of image.now)) }
{
    let verdict = audit(alloc, image)?;
    let (geometry, words) = open_image(image).map_err(AuditStop::Fault)?;
    Ok(Stats {
        geometry,
        words: geometry.total(),
        census: take_census(alloc, geometry, words)?,
        identities: identities(alloc, geometry, words)?,
        verdict,
    })
}

// what the words of a pool say of each identity, in order
fn identities(
    alloc: Global,
    geometry: Geometry,
    words: &[[u8; 8]],
) -> Result<Vec<Identity>, AllocError>
    requires fits { GeometryFits geometry }
    requires whole { length words.now ≡ total_of geometry }
    ensures { IfOk result (λ v. AreIdentities geometry (numbers words.now) v.items) }
{
    let mut identities = Vec::new(alloc);
    for c in 0..geometry.clients() {
        identities.push(read_identity(geometry, words, c))?;
    }
    Ok(identities)
}
