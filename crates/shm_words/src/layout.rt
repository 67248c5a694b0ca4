//! The laws of a pool's layout.

ghost use Rattle.std.specs.Prelude.{◌≡◌, ℕ, ◌<◌, ◌≤◌, true, false};
ghost use Rattle.shm_words.specs.declared.{place.Place.Place as APlace, geometry.Geometry.Geometry as AGeometry};
ghost use Rattle.shm_words.specs.Layout.{GeometryFits, address, is_in, place_at, place_limit, total_of};

/// The addresses of every pool are below this number: redo records and tags of format 2 have 24 bits for one. Those of format 1 have 20,
/// and the addresses of its pools are below 2^20 (`Geometry::limit`).
pub const ADDRESS_LIMIT: u32 = 1 << 24;

/// Each place of a pool has an address of its own below `total`, and each address below `total` has a place.
pub fn place_laws()
    ensures place { (g : AGeometry) (p : APlace) → GeometryFits g → is_in g p ≡ true → place_at g (address g p) ≡ p }
    ensures below { (g : AGeometry) (p : APlace) → GeometryFits g → is_in g p ≡ true → address g p < total_of g }
    ensures address { (g : AGeometry) (a : ℕ) → GeometryFits g → a < total_of g → address g (place_at g a) ≡ a }
    ensures within { (g : AGeometry) (a : ℕ) → GeometryFits g → a < total_of g → is_in g (place_at g a) ≡ true }
    ensures size { (g : AGeometry) → GeometryFits g → g.wide ≡ false → total_of g ≤ 531793 }
    ensures size_wide { (g : AGeometry) → GeometryFits g → total_of g ≤ 16523169 }
    ensures small { (g : AGeometry) → GeometryFits g → total_of g < place_limit g.wide }
{}
