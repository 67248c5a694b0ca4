//! How much memory the pool of an input takes.

ghost use Rattle.std.specs.Prelude.{◌≡◌, ◌*◌, IfSome};
ghost use Rattle.shm_words.specs.Layout.{GeometryFits, total_of};

use crate::line::line_at;
use shm_words::Geometry;

/// The bytes that the words of a pool take.
fn bytes_of(geometry: Geometry) -> u64
    requires { GeometryFits geometry }
    ensures { result ≡ 8 * total_of geometry }
{
    8 * u64::from(geometry.total())
}

/// The pool that a line asks for, where it asks for one: of a trace by `pool N G` or `pool2 N G`, of a script by `tree G`.
fn geometry_in(line: &str) -> Option<Geometry>
    ensures { IfSome result GeometryFits }
{
    let mut words = line.split(' ');
    let word = words.next()?;
    let first = words.next()?;
    let second = words.next();
    match (word, second) {
        ("tree", None) => Geometry::new(1, first.parse::<u16>().ok()?).ok(),
        ("pool", Some(second)) => {
            Geometry::new(first.parse::<u8>().ok()?, second.parse::<u16>().ok()?).ok()
        }
        ("pool2", Some(second)) => {
            Geometry::wide(first.parse::<u8>().ok()?, second.parse::<u16>().ok()?).ok()
        }
        _ => None,
    }
}

/// The bytes of the pool that the first line of a trace or of a script asks for, where it asks for one.
pub fn pool_bytes(input: &[u8]) -> Option<u64> {
    let text = line_at(input, 1)?.text()?;
    Some(bytes_of(geometry_in(text)?))
}
