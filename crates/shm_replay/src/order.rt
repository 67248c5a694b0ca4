//! The turns that a trace gives to the agents of its scripts.

ghost use Rattle.std.specs.Prelude.{◌≡◌, ◌≢◌, ◌+◌, ◌<◌, ◌≤◌, ◌⊎◌, ℕ, false, true, None, Some, List, length, slice_index_or, IfSome, MatchOption};
ghost use Rattle.shm_graph.specs.Runs.{account_at};
ghost use Rattle.shm_agents.specs.Agents.{is_client};
ghost use Rattle.shm_replay.specs.{AtWork.has_work, Orders.{AreOfItems, IsGiven, IsUntilAnswered, from_on, rounds_of}};
ghost use Rattle.shm_replay.specs.{Seats.{AreSeated, IsSeat, turns_in, turns_left}, Turns.{given, in_a_row, is_busy}};

use shm_agents::agents::Standing;
use shm_plain::PlainPool;
use shm_play::play::Play;
use shm_play::players::Players;
use shm_script::{Item, Trace};

/// How many turns an item without a number of turns gives at most.
const MANY: u32 = 100_000;

/// After how many rounds it is looked whether the agents of one identity alone have anything to do.
const ROUNDS: u32 = 64;

/// Gives a turn to the agents of an identity: a word step or a death, unless none of them has anything left to do.
#[inline(always)]
fn give_turn<A: Play>(agents: &mut Players<A>, trace: &Trace, pool: &mut PlainPool)
    requires seat { IsSeat trace.now pool.old agents.old.me.who agents.old }
    ensures seat { IsSeat trace.now pool.new agents.old.me.who agents.new }
    ensures given { pool.new ≡ in_a_row trace.now pool.old agents.old.me.who 1 }
    ensures me { agents.new.me ≡ agents.old.me }
    ensures others { (d : ℕ) → d ≢ agents.old.me.who → account_at pool.new.accounts d ≡ account_at pool.old.accounts d }
    ensures start { pool.new.start ≡ pool.old.start }
    ensures turns { agents.old.standing ≡ Standing.AtWork → turns_in trace.now.scripts (Some agents.new) < turns_in trace.now.scripts (Some agents.old) }
    ensures still { agents.old.standing ≢ Standing.AtWork → agents.new ≡ agents.old }
    ensures grows { is_client agents.old ≡ true → is_client agents.new ≡ true → (length agents.new.entries ≡ length agents.old.entries) ⊎ (length agents.new.entries ≡ length agents.old.entries + 1) }
{
    if agents.standing() == Standing::AtWork {
        // for the proof: the pool is a run
        pool.geometry();
        agents.turn(&trace.scripts[agents.script()], pool);
    }
}

/// Gives so many turns to the agents of an identity. Those that find nothing left to do change nothing, and are left out.
fn give_row<A: Play>(agents: &mut Players<A>, trace: &Trace, pool: &mut PlainPool, turns: u32)
    requires seat { IsSeat trace.now pool.old agents.old.me.who agents.old }
    ensures seat { IsSeat trace.now pool.new agents.old.me.who agents.new }
    ensures given { pool.new ≡ in_a_row trace.now pool.old agents.old.me.who turns }
    ensures others { (d : ℕ) → d ≢ agents.old.me.who → account_at pool.new.accounts d ≡ account_at pool.old.accounts d }
    ensures start { pool.new.start ≡ pool.old.start }
{
    for _turn in 0..turns {
        if agents.standing() != Standing::AtWork {
            return;
        }
        give_turn(agents, trace, pool);
    }
}

/// Gives turns to a client until one more of its commands has answered, or it has ended or died, and 100,000 at most.
fn give_until_answered<A: Play>(agents: &mut Players<A>, trace: &Trace, pool: &mut PlainPool)
    requires seat { IsSeat trace.now pool.old agents.old.me.who agents.old }
    ensures seat { IsSeat trace.now pool.new agents.old.me.who agents.new }
    ensures given { (n : ℕ) × IsUntilAnswered trace.now pool.old agents.old.me.who n × (pool.new ≡ in_a_row trace.now pool.old agents.old.me.who n) }
    ensures others { (d : ℕ) → d ≢ agents.old.me.who → account_at pool.new.accounts d ≡ account_at pool.old.accounts d }
    ensures start { pool.new.start ≡ pool.old.start }
{
    let answered = agents.answered();
    for _turn in 0..MANY {
        if !agents.is_client() {
            return;
        }
        let now = agents.answered();
        if now != answered {
            return;
        }
        give_turn(agents, trace, pool);
    }
}

/// Gives the turns of an item to the agents of its identity, if that has a script.
fn give_item<A: Play>(
    agents: &mut [Option<Players<A>>],
    trace: &Trace,
    item: Item,
    pool: &mut PlainPool,
)
    requires seated { AreSeated trace.now pool.old agents.old }
    requires item { item.client < trace.now.clients }
    ensures seated { AreSeated trace.now pool.new agents.new }
    ensures given { (n : ℕ) × IsGiven trace.now pool.old item n × (pool.new ≡ in_a_row trace.now pool.old item.client n) }
    ensures start { pool.new.start ≡ pool.old.start }
{
    if let Some(own) = &mut agents[item.client as usize] {
        if item.turns == 0 {
            give_until_answered(own, trace, pool);
        } else {
            give_row(own, trace, pool, item.turns);
        }
    }
}

/// Gives the turns of the trace's order, one item after the other.
pub(crate) fn give_items<A: Play>(
    agents: &mut [Option<Players<A>>],
    trace: &Trace,
    pool: &mut PlainPool,
)
    requires seated { AreSeated trace.now pool.old agents.old }
    ensures seated { AreSeated trace.now pool.new agents.new }
    ensures given { (cs : List ℕ) × AreOfItems trace.now pool.old trace.now.order cs × (pool.new ≡ given trace.now pool.old cs) }
    ensures start { pool.new.start ≡ pool.old.start }
{
    trace.in_grammar();
    for item in trace.order.as_slice() {
        give_item(agents, trace, *item, pool);
    }
}

/// Gives a turn to the agents of an identity, if it has a script. It answers whether one of them had anything to do.
#[inline(always)]
fn give_one<A: Play>(
    agents: &mut [Option<Players<A>>],
    trace: &Trace,
    who: u8,
    pool: &mut PlainPool,
) -> bool
    requires seated { AreSeated trace.now pool.old agents.old }
    requires who { who < trace.now.clients }
    ensures seated { AreSeated trace.now pool.new agents.new }
    ensures given { pool.new ≡ in_a_row trace.now pool.old who 1 }
    ensures busy { result ≡ is_busy trace.now pool.old who }
    ensures some { result ≡ true → turns_left trace.now.scripts agents.new < turns_left trace.now.scripts agents.old }
    ensures none { result ≡ false → turns_left trace.now.scripts agents.new ≡ turns_left trace.now.scripts agents.old }
    ensures start { pool.new.start ≡ pool.old.start }
{
    match &mut agents[who as usize] {
        None => false,
        Some(own) => {
            let busy = own.standing() == Standing::AtWork;
            give_turn(own, trace, pool);
            busy
        }
    }
}

/// Gives a turn to the agents of each identity, in order of number. It answers whether one of them had anything to do.
#[inline(always)]
fn give_round<A: Play>(
    agents: &mut [Option<Players<A>>],
    trace: &Trace,
    pool: &mut PlainPool,
) -> bool
    requires seated { AreSeated trace.now pool.old agents.old }
    ensures seated { AreSeated trace.now pool.new agents.new }
    ensures given { pool.new ≡ given trace.now pool.old (from_on 0 trace.now.clients) }
    ensures some { result ≡ true → turns_left trace.now.scripts agents.new < turns_left trace.now.scripts agents.old }
    ensures done { result ≡ false → (c : ℕ) → is_busy trace.now pool.new c ≡ false }
    ensures start { pool.new.start ≡ pool.old.start }
{
    trace.in_grammar();
    let mut some = false;
    for who in 0..trace.clients {
        if give_one(agents, trace, who, pool) {
            some = true;
        }
    }
    some
}

/// Gives 64 rounds of turns, or fewer where nobody has anything left to do. It answers whether somebody had in each of them.
#[inline(always)]
fn give_some_rounds<A: Play>(
    agents: &mut [Option<Players<A>>],
    trace: &Trace,
    pool: &mut PlainPool,
) -> bool
    requires seated { AreSeated trace.now pool.old agents.old }
    ensures seated { AreSeated trace.now pool.new agents.new }
    ensures given { (n : ℕ) × (pool.new ≡ given trace.now pool.old (rounds_of trace.now.clients n)) }
    ensures some { result ≡ true → turns_left trace.now.scripts agents.new < turns_left trace.now.scripts agents.old }
    ensures done { result ≡ false → (c : ℕ) → is_busy trace.now pool.new c ≡ false }
    ensures start { pool.new.start ≡ pool.old.start }
{
    for _round in 0..ROUNDS {
        if !give_round(agents, trace, pool) {
            return false;
        }
    }
    true
}

/// Whether one of the agents of an identity acts, or comes next.
fn has_work<A: Play>(agents: &Option<Players<A>>) -> bool
    ensures { result ≡ has_work agents.now }
{
    match agents {
        None => false,
        Some(own) => own.standing() == Standing::AtWork,
    }
}

/// The first identity from this one on whose agents have something to do.
fn first_at_work<A: Play>(agents: &[Option<Players<A>>], from: usize) -> Option<usize>
    ensures { MatchOption result ((c : ℕ) → from ≤ c → has_work (slice_index_or agents.now c None) ≡ false) (λ who. (who < length agents.now) × ((c : ℕ) → from ≤ c → c < who → has_work (slice_index_or agents.now c None) ≡ false)) }
{
    for who in from..agents.len() {
        if has_work(&agents[who]) {
            return Some(who);
        }
    }
    None
}

/// The identity whose agents have something to do, where there is no other one.
fn lone<A: Play>(agents: &[Option<Players<A>>]) -> Option<usize>
    ensures { IfSome result (λ who. (who < length agents.now) × ((c : ℕ) → c ≢ who → has_work (slice_index_or agents.now c None) ≡ false)) }
{
    let who = first_at_work(agents, 0)?;
    match first_at_work(agents, who + 1) {
        None => Some(who),
        Some(_) => None,
    }
}

/// Gives turns to the agents of an identity that have something to do, where nobody else has: word steps until what they run has answered or
/// an agent has none left, or a death. Each of them is a round.
#[inline(always)]
fn give_turns<A: Play>(agents: &mut Players<A>, trace: &Trace, pool: &mut PlainPool)
    requires seat { IsSeat trace.now pool.old agents.old.me.who agents.old }
    requires who { agents.old.me.who < trace.now.clients }
    requires lone { (d : ℕ) → d ≢ agents.old.me.who → is_busy trace.now pool.old d ≡ false }
    requires here { agents.old.standing ≡ Standing.AtWork }
    ensures seat { IsSeat trace.now pool.new agents.old.me.who agents.new }
    ensures given { (n : ℕ) × (pool.new ≡ given trace.now pool.old (rounds_of trace.now.clients n)) }
    ensures lone { (d : ℕ) → d ≢ agents.old.me.who → is_busy trace.now pool.new d ≡ false }
    ensures me { agents.new.me ≡ agents.old.me }
    ensures others { (d : ℕ) → d ≢ agents.old.me.who → account_at pool.new.accounts d ≡ account_at pool.old.accounts d }
    ensures start { pool.new.start ≡ pool.old.start }
    ensures turns { turns_in trace.now.scripts (Some agents.new) < turns_in trace.now.scripts (Some agents.old) }
{
    // for the proof: the pool is a run
    pool.geometry();
    agents.turns(&trace.scripts[agents.script()], pool);
}

/// Gives turns to the agents of an identity until they have nothing left to do, where nobody else has: each of them is a round.
#[inline(never)]
fn give_rest<A: Play>(agents: &mut Players<A>, trace: &Trace, pool: &mut PlainPool)
    requires seat { IsSeat trace.now pool.old agents.old.me.who agents.old }
    requires who { agents.old.me.who < trace.now.clients }
    requires lone { (d : ℕ) → d ≢ agents.old.me.who → is_busy trace.now pool.old d ≡ false }
    ensures seat { IsSeat trace.now pool.new agents.old.me.who agents.new }
    ensures given { (n : ℕ) × (pool.new ≡ given trace.now pool.old (rounds_of trace.now.clients n)) }
    ensures done { (c : ℕ) → is_busy trace.now pool.new c ≡ false }
    ensures others { (d : ℕ) → d ≢ agents.old.me.who → account_at pool.new.accounts d ≡ account_at pool.old.accounts d }
    ensures start { pool.new.start ≡ pool.old.start }
{
    while agents.standing() == Standing::AtWork {
        give_turns(agents, trace, pool);
    }
}

/// Gives rounds of turns until no agent has anything left to do, where only those of the identity `who` have.
fn finish<A: Play>(
    agents: &mut [Option<Players<A>>],
    trace: &Trace,
    who: usize,
    pool: &mut PlainPool,
)
    requires seated { AreSeated trace.now pool.old agents.old }
    requires who { who < length agents.old }
    requires lone { (c : ℕ) → c ≢ who → has_work (slice_index_or agents.old c None) ≡ false }
    ensures seated { AreSeated trace.now pool.new agents.new }
    ensures given { (n : ℕ) × (pool.new ≡ given trace.now pool.old (rounds_of trace.now.clients n)) }
    ensures done { (c : ℕ) → is_busy trace.now pool.new c ≡ false }
    ensures start { pool.new.start ≡ pool.old.start }
{
    trace.in_grammar();
    if let Some(own) = &mut agents[who] {
        give_rest(own, trace, pool);
    }
}

/// Gives rounds of turns until no agent has anything left to do. Once only those of one identity have, the others are passed over.
#[inline(never)]
pub(crate) fn give_rounds<A: Play>(
    agents: &mut [Option<Players<A>>],
    trace: &Trace,
    pool: &mut PlainPool,
)
    requires seated { AreSeated trace.now pool.old agents.old }
    ensures seated { AreSeated trace.now pool.new agents.new }
    ensures given { (n : ℕ) × (pool.new ≡ given trace.now pool.old (rounds_of trace.now.clients n)) }
    ensures done { (c : ℕ) → is_busy trace.now pool.new c ≡ false }
    ensures start { pool.new.start ≡ pool.old.start }
{
    while give_some_rounds(agents, trace, pool) {
        if let Some(who) = lone(agents) {
            finish(agents, trace, who, pool);
            return;
        }
    }
}
