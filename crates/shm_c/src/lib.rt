//! Sessions, for C: the header `lojarnek.h` says what each function is.
#![tactic(auto)]

ghost use base.Fml.{Lft, Share};
ghost use Rattle.std.specs.{Borrow.sem, Option.is_some, Prelude.{◌≡◌, ◌⊎◌, IfSome, length, false, true}};
ghost use Rattle.shm_words.specs.Layout.{GeometryFits};
ghost use Rattle.shm_session.specs.Pools.{geometry_of, may_open, status_or, total_or, word_or};
ghost use Rattle.shm_sitting.specs.{declared.seat.Seat.Seat, Seats.{IsCalled, IsRun, IsTold}};
ghost use Rattle.shm_c.specs.Holds.{call_of, called_at, lent_words, ran_at, seat_at, seat_owned, told_at};

use handles::Loose;
use shm_session::{Call, Ran, Said, first_word, geometry, identity, status_word};
use shm_sitting::{Kind, Seat};
use shm_words::Geometry;
use std::alloc::Global;
use std::slice;
use std::sync::atomic::AtomicU64;

/// Frees a session.
fn free(session: Loose<Seat, Global>) {
    drop(session.into_box());
}

/// Where a session lies, which is the caller's from then on.
fn give(session: Loose<Seat, Global>) -> *mut u8
    ensures* { sem 𝓛 (seat_owned session.alloc result session.value) }
{
    let Loose { at, alloc: _ } = session;
    at as *mut u8
}

/// How many words a pool has; 0 where there is no such pool.
#[unsafe(no_mangle)]
pub extern "C" fn lj_total(format: u32, clients: u32, segments: u32) -> u32
    ensures { result ≡ total_or (geometry_of format clients segments) }
{
    match geometry(format, clients, segments) {
        Some(geometry) => geometry.total(),
        None => 0,
    }
}

/// The word that a new pool has at this address; 0 where there is none.
#[unsafe(no_mangle)]
pub extern "C" fn lj_first_word(
    format: u32,
    clients: u32,
    segments: u32,
    first_era: u64,
    at: u32,
) -> u64
    ensures { result ≡ word_or (geometry_of format clients segments) first_era at }
{
    match geometry(format, clients, segments) {
        Some(geometry) => {
            if at < geometry.total() {
                first_word(geometry, first_era, at)
            } else {
                0
            }
        }
        None => 0,
    }
}

/// The address of the status of an identity; 0 where there is none.
#[unsafe(no_mangle)]
pub extern "C" fn lj_status_at(format: u32, clients: u32, segments: u32, who: u32) -> u32
    ensures { result ≡ status_or (geometry_of format clients segments) who }
{
    match geometry(format, clients, segments) {
        Some(geometry) => match status_word(geometry, who) {
            Some(at) => at,
            None => 0,
        },
        None => 0,
    }
}

/// A session in a pool of this kind; none where there is no such pool, identity or status.
fn seat(kind: Kind, pool: Option<Geometry>, who: u32, status: u64) -> Option<Seat>
    requires { IfSome pool GeometryFits }
    ensures { is_some result ≡ may_open pool who status }
{
    match pool {
        Some(geometry) => match identity(geometry, who) {
            Some(me) => Seat::new(kind, me, status),
            None => None,
        },
        None => None,
    }
}

/// Gives a session to the caller: 0, or why there is none, and then nothing is written.
fn open(alloc: Global, session: Option<Seat>, out: &mut *mut u8) -> u32
    ensures refused { is_some session ≡ false → (result ≡ 64) × (out.new ≡ out.old) }
    ensures opened { is_some session ≡ true → (result ≡ 0) ⊎ ((result ≡ 68) × (out.new ≡ out.old)) }
{
    let Some(session) = session else {
        return 64;
    };
    match Box::new(alloc, session) {
        Ok(session) => {
            *out = give(Loose::of(session));
            0
        }
        Err(_) => 68,
    }
}

/// Makes a session of an identity whose status was found so, in a pool for tables, and writes where it lies; where the code isn't 0 nothing is written.
#[unsafe(no_mangle)]
pub extern "C" fn lj_open(
    alloc: Global,
    format: u32,
    clients: u32,
    segments: u32,
    who: u32,
    status: u64,
    out: &mut *mut u8,
) -> u32
    ensures refused { may_open (geometry_of format clients segments) who status ≡ false → (result ≡ 64) × (out.new ≡ out.old) }
    ensures opened { may_open (geometry_of format clients segments) who status ≡ true → (result ≡ 0) ⊎ ((result ≡ 68) × (out.new ≡ out.old)) }
{
    let pool = geometry(format, clients, segments);
    open(alloc, seat(Kind::Tables, pool, who, status), out)
}

/// The same in a pool for single blocks.
#[unsafe(no_mangle)]
pub extern "C" fn lj_open_singles(
    alloc: Global,
    format: u32,
    clients: u32,
    segments: u32,
    who: u32,
    status: u64,
    out: &mut *mut u8,
) -> u32
    ensures refused { may_open (geometry_of format clients segments) who status ≡ false → (result ≡ 64) × (out.new ≡ out.old) }
    ensures opened { may_open (geometry_of format clients segments) who status ≡ true → (result ≡ 0) ⊎ ((result ≡ 68) × (out.new ≡ out.old)) }
{
    let pool = geometry(format, clients, segments);
    open(alloc, seat(Kind::Singles, pool, who, status), out)
}

/// Frees a session.
#[unsafe(no_mangle)]
pub unsafe extern "C" fn lj_close(alloc: Global, at: *mut u8)
    ghost value: { Seat }
    requires* { sem 𝓛 (seat_owned alloc at value) }
{
    let at = at as *mut Seat;
    free(Loose { at, alloc });
}

/// A call by its number.
fn call(session: &mut Seat, op: u32, first: u64, second: u64, third: u64) -> Said
    ensures { IsCalled session.old (call_of op first second third) result session.new }
{
    let words = [0; 8];
    session.call(Call {
        op,
        first,
        second,
        third,
        words,
    })
}

/// A call by its number.
#[unsafe(no_mangle)]
pub unsafe extern "C" fn lj_call(at: *mut u8, op: u32, first: u64, second: u64, third: u64) -> Said
    ghost value: { Seat }
    requires* { sem 𝓛 (seat_at at value) }
    ensures* { sem 𝓛 (called_at at value (call_of op first second third) result) }
{
    let session = at as *mut Seat;
    call(&mut *session, op, first, second, third)
}

/// Takes the word that was found; the next word step, or the answer.
#[inline(always)]
fn tell(session: &mut Seat, found: u64) -> Said
    ensures { IsTold session.old found result session.new }
{
    session.tell(found)
}

/// Takes the word that was found; the next word step, or the answer.
#[unsafe(no_mangle)]
pub unsafe extern "C" fn lj_tell(at: *mut u8, found: u64) -> Said
    ghost value: { Seat }
    requires* { sem 𝓛 (seat_at at value) }
    ensures* { sem 𝓛 (told_at at value found result) }
{
    let session = at as *mut Seat;
    tell(&mut *session, found)
}

/// Makes the word steps that are asked for on these words.
#[inline(always)]
fn run(session: &mut Seat, words: &[AtomicU64], steps: u64) -> Ran
    ensures { IsRun session.old (length words.now) steps result session.new }
{
    session.run(words, steps)
}

/// Makes the word steps that are asked for on these words, so many at most: what is said then, as where each word that was found had been told, and how
/// many were made.
#[unsafe(no_mangle)]
pub unsafe extern "C" fn lj_run_on(at: *mut u8, words: *const u64, count: u32, steps: u64) -> Ran
    ghost held: { Seat × Lft × Share }
    requires* { sem 𝓛 (seat_at at held.0) ∗ sem 𝓛 (lent_words words count held.1 held.2) }
    ensures* { sem 𝓛 (ran_at at held.0 count steps result) ∗ sem 𝓛 (lent_words words count held.1 held.2) }
{
    let session = at as *mut Seat;
    let words = slice::from_raw_parts(words as *const AtomicU64, count as usize);
    run(&mut *session, words, steps)
}
