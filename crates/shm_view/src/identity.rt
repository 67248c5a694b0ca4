//! What the words of a pool say of an identity.

ghost use Rattle.std.specs.Prelude.{◌≡◌, ◌*◌, ◌<◌, ◌≤◌, length};
ghost use Rattle.shm_words.specs.Layout.{GeometryFits, total_of};
ghost use Rattle.shm_audit.specs.Images.{numbers};
ghost use Rattle.shm_view.specs.Figures.{IsIdentity, roots_set, waiting_for, waiting_in};

use crate::chain::count_chains;
use crate::looks::one_where_set;
use shm_audit::word;
use shm_words::Geometry;

/// What the words of a pool say of an identity.
#[derive(Clone, Copy, Drop)]
pub struct Identity {
    /// 0 new, 1 live, 2 dead, 3 gone.
    pub status: u64,
    /// The number and one of whose latch it holds or wants, and 0 where it is nobody's.
    pub hold: u64,
    /// The number and one of who holds its latch, and 0 where nobody does.
    pub latch: u64,
    /// The directory of its table, and 0 where it has none.
    pub home: u64,
    /// How many of its 16 roots name a block.
    pub roots: u32,
    /// How many references wait for it in queues.
    pub waiting: u32,
    /// How many keys its table has.
    pub keys: u32,
    /// How many entries the longest chain of its table has.
    pub longest: u32,
}

/// What the words of a pool say of the identity `c`.
#[tactic(auto, using(shm_words::proofs::Placing::total_small))]
pub fn read_identity(geometry: Geometry, words: &[[u8; 8]], c: u8) -> Identity
    requires fits { GeometryFits geometry }
    requires whole { length words.now ≡ total_of geometry }
    requires client { c < geometry.clients }
    ensures { IsIdentity geometry (numbers words.now) c result }
{
    let home = word(words, geometry.home(c));
    let chains = count_chains(words, home, 256 * u32::from(geometry.segments()));
    Identity {
        status: word(words, geometry.status(c)),
        hold: word(words, geometry.hold(c)),
        latch: word(words, geometry.latch(c)),
        home,
        roots: roots_set(geometry, words, c),
        waiting: waiting_for(geometry, words, c),
        keys: chains.keys,
        longest: chains.longest,
    }
}

// how many roots of an identity name a block
fn roots_set(geometry: Geometry, words: &[[u8; 8]], c: u8) -> u32
    requires fits { GeometryFits geometry }
    requires client { c < geometry.clients }
    ensures { result ≡ roots_set geometry (numbers words.now) c }
{
    let mut set = 0;
    for k in 0..16 {
        set += one_where_set(words, geometry.root(c, k));
    }
    set
}

// how many references wait in the queue from `s` to `r`
fn waiting_in(geometry: Geometry, words: &[[u8; 8]], s: u8, r: u8) -> u32
    requires fits { GeometryFits geometry }
    requires sender { s < geometry.clients }
    requires receiver { r < geometry.clients }
    ensures is { result ≡ waiting_in geometry (numbers words.now) s r }
    ensures most { result ≤ 8 }
{
    let mut waiting = 0;
    for k in 0..8 {
        waiting += one_where_set(words, geometry.slot(s, r, k));
    }
    waiting
}

// how many references wait for `r`
fn waiting_for(geometry: Geometry, words: &[[u8; 8]], r: u8) -> u32
    requires fits { GeometryFits geometry }
    requires receiver { r < geometry.clients }
    ensures { result ≡ waiting_for geometry (numbers words.now) r }
{
    let mut waiting = 0;
    for s in 0..geometry.clients() {
        waiting += waiting_in(geometry, words, s, r);
    }
    waiting
}
