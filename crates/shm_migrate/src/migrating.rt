//! The migration of an image, and what it keeps.

ghost use Rattle.std.specs.Prelude.{◌≡◌, ℕ, false, List, length, IfOk, IfErr, None};
ghost use Rattle.shm_words.specs.{declared.geometry.Geometry.Geometry as AGeometry, Layout.GeometryFits};
ghost use Rattle.shm_graph.specs.{declared.{spot.Spot.TheVariants.Head, table.Entry.Entry}, Spots.see};
ghost use Rattle.shm_graph.specs.{Blocks.{headers, IsLive}, Clean.IsClean, Tables.IsTable};
ghost use Rattle.shm_audit.specs.{Faults.image_fault_of, Verdicts.{clean_verdict, found_at}};
ghost use Rattle.shm_migrate.specs.Migrations.{StopsBy, migrated, refusal_of, verdict_in};
ghost use Rattle.shm_migrate.specs.Widened.{moved, moved_table, wide_of, widened};

use crate::image::widened_image;
use crate::stop::MigrateStop;
use shm_audit::{AuditStop, Verdict, audit, open_image};
use std::alloc::Global;

/// The image in format 2 of the pool of an image of format 1, whose verdict must be that it is clean.
///
/// A fault of the image is told first, then that it is of format 2, and then a verdict that isn't `Clean`. The new image has no fault, and
/// the verdict on it is that on the old one. The new image is written in one pass behind the audit; beside the old one it takes as much
/// memory as it is long, or what the audit takes.
pub fn migrate(alloc: Global, image: &[u8]) -> Result<Vec<u8>, MigrateStop>
    ensures none { IfOk result (λ v. refusal_of image.now ≡ None) }
    ensures bytes { IfOk result (λ v. v.items ≡ migrated image.now) }
    ensures faultless { IfOk result (λ v. image_fault_of v.items ≡ None) }
    ensures verdict { IfOk result (λ v. verdict_in v.items ≡ verdict_in image.now) }
    ensures err { IfErr result (λ e. StopsBy (refusal_of image.now) e) }
{
    let verdict = match audit(alloc, image) {
        Ok(verdict) => verdict,
        Err(AuditStop::Memory(error)) => return Err(MigrateStop::Memory(error)),
        Err(AuditStop::Fault(fault)) => return Err(MigrateStop::Fault(fault)),
    };
    let (geometry, words) = open_image(image).map_err(MigrateStop::Fault)?;
    if geometry.is_wide() {
        return Err(MigrateStop::Already);
    }
    match verdict {
        Verdict::Clean { .. } => {
            let migrated = widened_image(alloc, geometry, words).map_err(MigrateStop::Memory)?;
            Ok(migrated)
        }
        verdict => Err(MigrateStop::NotClean(verdict)),
    }
}

/// What the migration of a clean pool keeps: it is clean, and the verdict on it has the same numbers; each live block has its header, so
/// its count, and as many references name it; and a table keeps its keys and numbers, with each entry's block and value block where they
/// stand in format 2.
pub fn migration_laws()
    ensures clean { (g : AGeometry) (ws : List ℕ) → GeometryFits g → g.wide ≡ false → IsClean g (see g ws) → IsClean (wide_of g) (see (wide_of g) (widened g ws)) }
    ensures verdict { (g : AGeometry) (ws : List ℕ) → GeometryFits g → g.wide ≡ false → IsClean g (see g ws) → clean_verdict (wide_of g) (see (wide_of g) (widened g ws)) ≡ clean_verdict g (see g ws) }
    ensures header { (g : AGeometry) (ws : List ℕ) (b : ℕ) → GeometryFits g → g.wide ≡ false → IsClean g (see g ws) → IsLive (headers (see g ws)) b → see (wide_of g) (widened g ws) (Head (moved g b)) ≡ see g ws (Head b) }
    ensures found { (g : AGeometry) (ws : List ℕ) (b : ℕ) → GeometryFits g → g.wide ≡ false → IsClean g (see g ws) → IsLive (headers (see g ws)) b → found_at (wide_of g) (see (wide_of g) (widened g ws)) (moved g b) ≡ found_at g (see g ws) b }
    ensures table { (g : AGeometry) (ws : List ℕ) (table : ℕ → ℕ → List Entry) → GeometryFits g → g.wide ≡ false → IsClean g (see g ws) → IsTable g (see g ws) table → IsTable (wide_of g) (see (wide_of g) (widened g ws)) (moved_table g table) }
{}
