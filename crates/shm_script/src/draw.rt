//! Traces drawn from a sequence of numbers.

ghost use Rattle.std.specs.Prelude.{◌≡◌, ℕ, ◌+◌, ◌*◌, ◌%◌, ◌<◌, ◌≤◌, IfOk};
ghost use Rattle.shm_script.specs.Drawing.{drawn_as, drawn_life, drawn_line, drawn_lines, drawn_script, drawn_trace, first, next, other_client};

use crate::line::Line;
use crate::trace::{Script, Trace};
use std::alloc::{AllocError, Global};
use std::marker::Model;

/// What a number of the sequence is multiplied by.
const FACTOR: u64 = 48_271;

/// The prime by which the remainder is taken then.
const PRIME: u64 = 2_147_483_647;

/// A place in the sequence of numbers.
#[derive(Drop)]
struct Draw {
    x: u64,
}

impl Model for Draw {
    ghost Value = { ℕ };

    ghost view = { λ d. d.x };

    ghost invariant = { λ d. d.x < 2147483647 };
}

impl Draw {
    /// The sequence that this number begins.
    fn new(start: u64) -> Draw
        ensures { result ≡ first start }
    {
        Draw {
            x: 1 + start % (PRIME - 1),
        }
    }

    /// Draws one of `n` numbers, from 0 on.
    #[tactic(auto, unfolding(crate::specs::Drawing::next))]
    fn draw(&mut self, n: u32) -> u32
        requires { 0 < n }
        ensures drawn { result ≡ next self.old % n }
        ensures below { result < n }
        ensures moved { self.new ≡ next self.old }
    {
        self.x = FACTOR * self.x % PRIME;
        (self.x % u64::from(n)) as u32
    }

    /// Draws a client number.
    fn client(&mut self) -> u8
        ensures drawn { result ≡ next self.old % 4 }
        ensures moved { self.new ≡ next self.old }
    {
        self.draw(4) as u8
    }

    /// Draws a client number other than this one.
    fn other(&mut self, client: u8) -> u8
        requires { client < 4 }
        ensures drawn { result ≡ other_client client (next self.old) }
        ensures moved { self.new ≡ next self.old }
    {
        (client + 1 + self.draw(3) as u8) % 4
    }

    /// Draws a command of a kind from 0 to 9.
    #[tactic(auto, unfolding(crate::specs::Drawing::drawn_as), using(std::proofs::lemmas::Bool::Decides::nat_tests))]
    fn line_as(&mut self, client: u8, kind: u32) -> Line
        requires { client < 4 }
        ensures { (result, self.new) ≡ drawn_as client kind self.old }
    {
        if kind < 4 {
            let key = self.draw(256);
            let number = u64::from(self.draw(1_000_000));
            Line::Put { key, number }
        } else if kind == 4 {
            let key = self.draw(256);
            Line::Del { key }
        } else if kind == 5 {
            let author = self.client();
            let key = self.draw(256);
            Line::Get { author, key }
        } else if kind < 8 {
            let key = self.draw(256);
            let author = self.client();
            let other = self.draw(256);
            Line::Copy { key, author, other }
        } else if kind == 8 {
            let to = self.other(client);
            let key = self.draw(256);
            Line::Send { to, key }
        } else {
            let from = self.other(client);
            let key = self.draw(256);
            Line::Recv { from, key }
        }
    }

    /// Draws a command.
    fn line(&mut self, client: u8) -> Line
        requires { client < 4 }
        ensures { (result, self.new) ≡ drawn_line client self.old }
    {
        let kind = self.draw(10);
        self.line_as(client, kind)
    }

    /// Draws commands.
    fn lines(&mut self, alloc: Global, client: u8, size: u32) -> Result<Vec<Line>, AllocError>
        requires { client < 4 }
        ensures { IfOk result (λ v. (v.items, self.new) ≡ drawn_lines client size self.old) }
    {
        let mut lines = Vec::new(alloc);
        for _ in 0..size {
            lines.push(self.line(client))?;
        }
        Ok(lines)
    }

    /// Draws the lives of a client's agents.
    #[tactic(auto, unfolding(crate::specs::Drawing::drawn_life))]
    fn life(&mut self, alloc: Global, client: u8) -> Result<Vec<u64>, AllocError>
        ensures { IfOk result (λ v. (v.items, self.new) ≡ drawn_life client self.old) }
    {
        if client == 3 {
            let steps = u64::from(self.draw(20_000));
            Vec::from_slice(alloc, &[500 + steps, 5, 9])
        } else {
            Ok(Vec::new(alloc))
        }
    }

    /// Draws a script.
    fn script(&mut self, alloc: Global, client: u8, size: u32) -> Result<Script, AllocError>
        requires { client < 4 }
        ensures { IfOk result (λ s. (s, self.new) ≡ drawn_script size client self.old) }
    {
        let life = self.life(alloc, client)?;
        let lines = self.lines(alloc, client, size)?;
        Ok(Script {
            client,
            life,
            lines,
        })
    }
}

/// The trace of four clients with `size` commands each that `start` gives.
pub fn generate(alloc: Global, start: u64, size: u32) -> Result<Trace, AllocError>
    requires some { 1 ≤ size }
    requires few { size ≤ 4000 }
    ensures { IfOk result (λ t. t ≡ drawn_trace start size) }
{
    let mut draw = Draw::new(start);
    let mut scripts = Vec::new(alloc);
    for client in 0..4 {
        scripts.push(draw.script(alloc, client, size)?)?;
    }
    Ok(Trace {
        clients: 4,
        segments: 16,
        wide: false,
        order: Vec::new(alloc),
        scripts,
    })
}
