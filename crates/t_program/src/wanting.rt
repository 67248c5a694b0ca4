//! Calls of the libraries that may be refused memory. Which of a program's requests is refused is told from outside (tools/refuse.py).

ghost use Rattle.std.specs.Prelude.{IfOk};
ghost use Rattle.shm_words.specs.Layout.{GeometryFits};

use crate::reading::pair;
use lojarnek::{Error, NotClosed, Pool};
use shm_audit::write_image;
use shm_migrate::{MigrateStop, migrate};
use shm_plain::PlainPool;
use shm_pool::{CloseCause, CloseStop, SharedPool};
use shm_replay::replay;
use shm_report::report;
use shm_script::{ParseStop, parse};
use shm_team::{NoGate, run_team};
use shm_words::{BadGeometry, Geometry};
use std::alloc::{AllocError, Global};
use std::io;
use std::sync::Wait;
use std::thread::Threads;

/// What a call came to, in words.
type Told = Result<&'static str, AllocError>;

/// Makes the call that the row names, and tells what it came to: `refused` where there was no memory for it, or for what goes before it.
pub fn tell<R: Threads + Wait + Sync>(
    rt: &HostRuntime,
    threads: &R,
    row: &str,
    input: &[u8],
) -> io::Result<()> {
    let (name, sizes) = row.split_once(' ').unwrap_or((row, ""));
    let told = match name {
        "parse" => parsed(rt.alloc(), input),
        "replay" => replayed(rt.alloc(), input),
        "run" => ran(threads, rt.alloc(), input),
        "report" => reported(rt.alloc(), input),
        "migrate" => migrated(rt.alloc(), input),
        _ => pooled(rt.alloc(), name, sizes),
    };
    println!(rt; "{row}: {}", told.unwrap_or("refused"))
}

/// `parse` of the input.
fn parsed(alloc: Global, input: &[u8]) -> Told {
    match parse(alloc, input) {
        Ok(_) => Ok("made"),
        Err(ParseStop::Memory(error)) => Err(error),
        Err(ParseStop::Fault(_)) => Ok("no trace"),
    }
}

/// `replay` of the trace that the input spells.
fn replayed(alloc: Global, input: &[u8]) -> Told {
    let Ok(trace) = parse(alloc, input) else {
        return Ok("no trace");
    };
    let _run = replay(alloc, &trace)?;
    Ok("made")
}

/// `run_team` of that trace.
fn ran<R: Threads + Wait + Sync>(threads: &R, alloc: Global, input: &[u8]) -> Told {
    let Ok(trace) = parse(alloc, input) else {
        return Ok("no trace");
    };
    let _run = run_team(threads, alloc, &trace, &NoGate)?;
    Ok("made")
}

/// `report` of the replay of that trace.
fn reported(alloc: Global, input: &[u8]) -> Told {
    let Ok(trace) = parse(alloc, input) else {
        return Ok("no trace");
    };
    let Ok(run) = replay(alloc, &trace) else {
        return Ok("no replay");
    };
    let _text = report(
        alloc,
        run.closed.geometry(),
        run.closed.words(),
        run.logs.as_slice(),
    )?;
    Ok("made")
}

/// `migrate` of the image of the pool that the replay leaves.
fn migrated(alloc: Global, input: &[u8]) -> Told {
    let Ok(trace) = parse(alloc, input) else {
        return Ok("no trace");
    };
    let Ok(run) = replay(alloc, &trace) else {
        return Ok("no replay");
    };
    let Ok(image) = write_image(alloc, run.closed.geometry(), run.closed.words()) else {
        return Ok("no image");
    };
    match migrate(alloc, image.as_slice()) {
        Ok(_) => Ok("made"),
        Err(MigrateStop::Memory(error)) => Err(error),
        Err(_) => Ok("no migration"),
    }
}

/// A call that makes or closes a pool of these sizes.
fn pooled(alloc: Global, name: &str, sizes: &str) -> Told {
    let Ok(geometry) = geometry_of(sizes) else {
        return Ok("no such pool");
    };
    match name {
        "plain" => {
            let _pool = PlainPool::make(alloc, geometry, 1, true)?;
            Ok("made")
        }
        "shared" => {
            let _made = SharedPool::make(alloc, geometry, 1, true)?;
            Ok("made")
        }
        "close" => closed(alloc, geometry),
        "build" => match built(alloc, geometry) {
            Ok(_) => Ok("made"),
            Err(error) => why(error),
        },
        "finish" => match built(alloc, geometry) {
            Ok(pool) => finished(alloc, pool),
            Err(_) => Ok("no pool"),
        },
        _ => Ok("no such call"),
    }
}

/// `close` of a pool that nobody joined; where it is refused, again, with the pool and the tokens that the refusal gave back.
fn closed(alloc: Global, geometry: Geometry) -> Told
    requires { GeometryFits geometry }
{
    let Ok((pool, all)) = SharedPool::make(alloc, geometry, 1, true) else {
        return Ok("no pool");
    };
    match pool.close(alloc, all) {
        Ok(_) => Ok("made"),
        Err(
            CloseStop {
                pool,
                all,
                cause: CloseCause::Memory(_),
            },
        ) => Ok(match pool.close(alloc, all) {
            Ok(_) => "refused, then made",
            Err(_) => "refused twice",
        }),
        Err(_) => Ok("a token is missing"),
    }
}

/// What an error of lojarnek says.
fn why(error: Error) -> Told {
    match error {
        Error::NoMemory => Err(AllocError),
        _ => Ok("another error"),
    }
}

/// `Builder::build` of a pool of these sizes.
fn built(alloc: Global, geometry: Geometry) -> Result<Pool, Error> {
    Pool::builder()
        .clients(geometry.clients())
        .segments(geometry.segments())
        .build(alloc)
}

/// A client joins, puts a number and leaves.
fn use_once(pool: &Pool) -> Result<(), Error> {
    let mut client = pool.vacant(0)?.join();
    client.put(5, 77)?;
    client.leave()?;
    Ok(())
}

/// `Pool::close` of a pool that was used; where it is refused, again, of the pool that the refusal gave back, which is used once more before.
fn finished(alloc: Global, pool: Pool) -> Told {
    if use_once(&pool).is_err() {
        return Ok("not used");
    }
    let NotClosed { pool, error } = match pool.close(alloc) {
        Ok(_) => return Ok("made"),
        Err(stop) => stop,
    };
    if error != Error::NoMemory || use_once(&pool).is_err() {
        return Ok("not closed");
    }
    Ok(match pool.close(alloc) {
        Ok(_) => "refused, then made",
        Err(_) => "refused twice",
    })
}

/// The sizes of a pool, from a row.
fn geometry_of(sizes: &str) -> Result<Geometry, BadGeometry>
    ensures { IfOk result (λ g. GeometryFits g) }
{
    let (clients, segments) = pair(sizes);
    Geometry::new(
        u8::try_from(clients).unwrap_or(0),
        u16::try_from(segments).unwrap_or(0),
    )
}
