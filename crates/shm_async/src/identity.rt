//! The agents of an identity as a future.

ghost use Rattle.std.specs.Prelude.{◌≡◌, ◌≢◌, ◌<◌, ◌≤◌, ◌^◌, ⊤, IfOk, IfErr, true};
ghost use Rattle.shm_graph.specs.Runs.{first_account};
ghost use Rattle.shm_agents.specs.Agents.{AgentsStand};
ghost use Rattle.shm_script.specs.{Ranges.ScriptFits, Values.Scripted as AScript};
ghost use Rattle.shm_async.specs.{Cancelled.{HasCancelled, IsCancelled}, Finished.HasFinished};
ghost use Rattle.shm_async.specs.Polled.{HasGiven, IsNew, IsPolled, MayGive, StandAt, given_by};
ghost use Rattle.futures.specs.{Poll.{IfReady, OnPending}, Task.{Covers, Keeps}};
ghost use Rattle.shm_team.specs.{declared.done.Finish.Finish as AFinish, Lefts.account_in};

use crate::finish::NewStop;
use futures::Future;
use futures::task::{Context, Poll};
use shm_agents::agents::Standing;
use shm_graph::Me;
use shm_play::cast::Cast;
use shm_play::play::Play;
use shm_play::players::Players;
use shm_pool::{Post, SharedPool, Vacant};
use shm_script::Script;
use shm_team::{Finish, Left, hand_back};
use std::alloc::Global;
use std::marker::Model;

/// The agents of a script, at their post.
#[derive(Drop)]
pub(crate) struct Site<'p, A: Play> {
    pub(crate) agents: Players<A>,
    pub(crate) post: Post<'p>,
}

impl<'p, A: Play> Model for Site<'p, A> {
    ghost use Rattle.shm_async.specs.Polled.{AtPost};

    ghost Value = { AtPost };

    ghost view = { λ s. record { agents = s.agents; post = s.post } };
}

/// The agents of an identity, of which each poll gives them a number of turns.
pub type IdentityFuture<'p> = CourseFuture<'p, Cast>;

/// The same, whoever plays them.
pub struct CourseFuture<'p, A: Play> {
    script: &'p Script,
    q: u32,
    /// None once a poll was ready.
    site: Option<Site<'p, A>>,
}

// by hand, so that who lets it go needn't know what it is made of
impl<'p, A: Play> Drop for CourseFuture<'p, A> {
    fn drop(self) {
        let CourseFuture {
            script: _script,
            q: _q,
            site: _site,
        } = self;
    }
}

impl<'p, A: Play> Model for CourseFuture<'p, A> {
    ghost use Rattle.shm_async.specs.Polled.{Course, IsCourse, course_of};

    ghost Value = { Course };

    ghost view = { λ f. course_of f.script.now f.q f.site };

    ghost invariant = { λ f. IsCourse (course_of f.script.now f.q f.site) };
}

impl<'p, A: Play> CourseFuture<'p, A> {
    /// The agents of a script before their first turn, of which each poll gives them `q`. It takes the memory of the log.
    ///
    /// # Errors
    ///
    /// Want of memory: the token is as it was.
    pub fn new(
        alloc: Global,
        pool: &'p SharedPool,
        token: Vacant,
        script: &'p Script,
        q: u32,
    ) -> Result<CourseFuture<'p, A>, NewStop>
        requires turns { 1 ≤ q }
        requires of { token.of ≡ pool.now }
        requires first { token.account ≡ first_account token.of.start token.account.who }
        requires era { token.of.start.first_era < 2 ^ 46 }
        requires tables { token.of.start.tables ≡ true }
        requires client { script.now.client ≡ token.account.who }
        requires script { ScriptFits token.of.start.geometry.clients script.now }
        ensures new { IfOk result (λ f. IsNew token script.now q f) }
        ensures same { IfErr result (λ s. s.token ≡ token) }
    {
        let me = Me::new(pool.geometry(), token.client());
        match Players::<A>::new(alloc, me, 0, script) {
            Ok(agents) => Ok(CourseFuture::of(pool, agents, token, script, q)),
            Err(cause) => Err(NewStop { token, cause }),
        }
    }

    /// The agents of an identity before their first turn, of which each poll gives them `q`. The script is theirs.
    pub(crate) fn of(
        pool: &'p SharedPool,
        agents: Players<A>,
        token: Vacant,
        script: &'p Script,
        q: u32,
    ) -> CourseFuture<'p, A>
        requires turns { 1 ≤ q }
        requires of { token.of ≡ pool.now }
        requires first { token.account ≡ first_account token.of.start token.account.who }
        requires me { agents.me.who ≡ token.account.who }
        requires stands { AgentsStand token.of.start script.now agents token.account }
        requires here { agents.standing ≡ Standing.AtWork }
        ensures { IsNew token script.now q result }
    {
        let post = Post::new(pool, token);
        CourseFuture {
            script,
            q,
            site: Some(Site { agents, post }),
        }
    }

    /// Gives the agents their turns, and where none of them is left then their log and the token of the identity.
    pub fn advance(&mut self) -> Option<Finish>
        ensures { IsPolled self.old result self.new }
    {
        let mut site = self.site.take()?;
        give(self.script, self.q, &mut site);
        if site.agents.standing() == Standing::AtWork {
            self.site = Some(site);
            return None;
        }
        Some(finish_at(site))
    }

    /// The agents are given up: the one that acts dies, and the log says how far the client had come. None where a poll was ready.
    ///
    /// No word step is made. The token is vacant where none had been made, and otherwise it is a corpse's, which may be recovered.
    pub fn cancel(self) -> Option<Finish>
        ensures { IsCancelled self.entry.script self.entry.site result }
    {
        let CourseFuture { script, q: _, site } = self;
        Some(cut(script, site?))
    }
}

/// The log and the token, where the agents are given up.
fn cut<A: Play>(script: &Script, site: Site<'_, A>) -> Finish
    requires stand { StandAt script.now site }
    requires left { site.agents.standing ≡ Standing.AtWork }
    ensures { HasCancelled site.entry.post.of script.now site.entry.post.account result }
{
    let Site {
        mut agents,
        mut post,
    } = site;
    let token = if agents.cut(script, &mut post) {
        Left::Corpse(post.corpse())
    } else {
        Left::Vacant(post.vacate())
    };
    Finish {
        log: agents.log(),
        token,
    }
}

/// Gives the agents `q` turns, or fewer where none of them is left.
fn give<A: Play>(script: &Script, q: u32, site: &mut Site<'_, A>)
    requires turns { 1 ≤ q }
    requires stand { StandAt script.now site.old }
    requires left { site.old.agents.standing ≡ Standing.AtWork }
    ensures { HasGiven q script.now site.old site.new }
{
    let mut given: u32 = 0;
    while given < q && site.agents.standing() == Standing::AtWork {
        site.agents.turn(script, &mut site.post);
        given += 1;
    }
}

/// The log and the token, where no agent is left.
fn finish_at<A: Play>(site: Site<'_, A>) -> Finish
    requires stand { (s : AScript) × StandAt s site }
    requires rests { site.agents.standing ≢ Standing.AtWork }
    ensures finished { (s : AScript) → StandAt s site.entry → HasFinished site.entry.post.of s result }
    ensures account { account_in result.token ≡ site.entry.post.account }
{
    let Site { agents, post } = site;
    hand_back(agents, post)
}

impl<'p, A: Play> Future for CourseFuture<'p, A> {
    type Output = Finish;

    ghost gives = { MayGive };

    fn poll(&mut self, cx: &mut Context<'_>) -> Poll<Finish>
        ensures value { IfReady result (MayGive self.old) }
        ensures again { OnPending result ⊤ }
        ensures same { OnPending result ((x : AFinish) → MayGive self.new x → MayGive self.old x) }
        ensures registered { OnPending result (Covers cx.new (λ _. ⊥)) }
        ensures kept { Keeps cx.old cx.new }
        ensures polled { IsPolled self.old (given_by result) self.new }
        ensures woken { OnPending result (cx.new.is_woken ≡ true) }
    {
        match self.advance() {
            Some(finish) => Poll::Ready(finish),
            None => cx.yield_now(),
        }
    }
}
