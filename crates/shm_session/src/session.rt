//! A session of an identity.

ghost use Rattle.std.specs.{Prelude.{◌≡◌, ◌<◌, ◌≤◌, false, Some, None, IfErr, IfOk}, Option.{ForSome, is_some}};
ghost use Rattle.shm_words.specs.Layout.{GeometryFits, total_of};
ghost use Rattle.shm_graph.specs.declared.ask.Ask.{Ask as AnAsk};
ghost use Rattle.shm_session.specs.Working.{RunsTo, HasWorked, asking};
ghost use Rattle.shm_session.specs.Sessions.{Operations, answer_of, ask_of, beginning, called, fallen, next_said, refusal_said, said_by, stage_by, stage_found, told, work_after};
ghost use Rattle.shm_session.specs.declared.said.Misuse.TheVariants.{Idle, Range};

use crate::said::{Call, Misuse, Reply, Said, Stage};
use shm_graph::{Ask, Life, Machine, Me, Site, Turn};

/// The operations of an identity, by numbers.
pub trait Sits {
    /// Their machine.
    type Work: Drop;

    /// What they answer.
    type Answer;

    /// What they do.
    ghost operations: { Operations Self.Work Self.Answer };

    /// The machine of an operation, before its first word step.
    ///
    /// # Errors
    ///
    /// `Stage`, where the identity doesn't stand so; `Range`, where a number is out of its range.
    fn begin(me: Me, stage: Stage, call: Call) -> Result<Self::Work, Misuse>
        requires geometry { GeometryFits me.geometry }
        requires who { me.who < me.geometry.clients }
        ensures { result ≡ operations.begins me stage call };

    /// Whether it has answered.
    fn is_over(work: &Self::Work) -> bool
        ensures { result ≡ operations.control.finished work.now };

    /// The word step that it asks for.
    fn ask(work: &Self::Work) -> Ask
        requires { operations.control.finished work.now ≡ false }
        ensures { result ≡ operations.control.asks work.now };

    /// Takes the word that was found, for a store 0; its answer, where it has answered.
    fn take(work: &mut Self::Work, seen: u64) -> Option<Self::Answer>
        requires { operations.control.finished work.old ≡ false }
        ensures work { work.new ≡ operations.control.after work.old seen }
        ensures answer { result ≡ operations.control.turns work.old seen };

    /// Makes the word steps that it asks for at a site where any word step may be made, until it has answered or no life is left; its answer,
    /// where it has answered.
    fn run<T: Site>(
        work: &mut Self::Work,
        site: &T,
        words: &mut T::Words,
        life: &mut Life,
    ) -> Option<Self::Answer>
        requires going { operations.control.finished work.old ≡ false }
        requires free { (w : T.Words) (a : AnAsk) → T.may site.now w a }
        ensures { HasWorked operations.control (T.made site.now) (T.seen site.now) life.old.left work.old words.old (record { left = life.new.left; machine = work.new; words = words.new; answer = result }) }
    {
        'steps: loop {
            if life.left == 0 {
                return None;
            }
            life.left -= 1;
            let ask = Self::ask(work);
            let seen = site.make(words, ask);
            match Self::take(work, seen) {
                Some(answer) => return Some(answer),
                None => {
                    if Self::is_over(work) {
                        return None;
                    }
                }
            }
        }
    }

    /// What its answer is as numbers, and how the identity stands after it, which stood so before.
    fn reply(answer: Self::Answer, stage: Stage) -> Reply
        ensures { result ≡ operations.replies answer stage };

    /// What it will answer where its agent dies now, if that is certain.
    fn effect(work: &Self::Work) -> Option<Said>
        ensures { result ≡ operations.effects work.now };
}

/// Makes the word steps that a machine asks for at a site where any word step may be made, until it has answered or no life is left; its answer,
/// where it has answered.
#[inline(always)]
pub fn work_at<M: Machine, T: Site>(
    machine: &mut M,
    site: &T,
    words: &mut T::Words,
    life: &mut Life,
) -> Option<M::Answer>
    requires going { M.control.finished machine.old ≡ false }
    requires free { (w : T.Words) (a : AnAsk) → T.may site.now w a }
    ensures { HasWorked M.control (T.made site.now) (T.seen site.now) life.old.left machine.old words.old (record { left = life.new.left; machine = machine.new; words = words.new; answer = result }) }
{
    match machine.run(site, words, life) {
        Turn::Done(answer) => Some(answer),
        Turn::More | Turn::Died => None,
    }
}

/// What an identity is at. Its pool's words are its caller's.
#[derive(Drop)]
pub struct Session<S: Sits> {
    me: Me,
    stage: Stage,
    work: Option<S::Work>,
    ghost fits: { GeometryFits me.geometry },
    ghost member: { me.who < me.geometry.clients },
    ghost ready: { ForSome work (λ m. S.operations.control.finished m ≡ false) },
}

impl<S: Sits> Session<S> {
    /// A session of an identity, whose status word was found so.
    ///
    /// # Errors
    ///
    /// `Range`, where the word is no status.
    pub fn new(me: Me, status: u64) -> Result<Session<S>, Misuse>
        requires geometry { GeometryFits me.geometry }
        requires who { me.who < me.geometry.clients }
        ensures ok { IfOk result (λ s. (s.me ≡ me) × (s.work ≡ None) × (stage_found status ≡ Some s.stage)) }
        ensures err { IfErr result (λ e. (e ≡ Range) × (stage_found status ≡ None)) }
    {
        let stage = match status {
            0 | 3 => Stage::Vacant,
            1 | 2 => Stage::Dead,
            _ => return Err(Misuse::Range),
        };
        Ok(Session {
            me,
            stage,
            work: None,
        })
    }

    /// The word step that it asks for; none where no operation is in progress.
    #[inline(always)]
    pub fn ask(&self) -> Option<Ask>
        ensures { result ≡ ask_of S.operations self.now.work }
    {
        match &self.work {
            Some(machine) => Some(S::ask(machine)),
            None => None,
        }
    }

    /// Takes the word that was found; its answer, where it has answered.
    #[inline(always)]
    pub fn take(&mut self, found: u64) -> Option<S::Answer>
        ensures me { self.new.me ≡ self.old.me }
        ensures stage { self.new.stage ≡ self.old.stage }
        ensures work { self.new.work ≡ work_after S.operations self.old.work found }
        ensures answer { result ≡ answer_of S.operations self.old.work found }
    {
        let (answer, over) = match &mut self.work {
            Some(machine) => {
                let answer = S::take(machine, found);
                let over = answer.is_some() || S::is_over(machine);
                (answer, over)
            }
            None => (None, false),
        };
        if over {
            self.work = None;
        }
        answer
    }

    /// How many words its pool has.
    pub fn total(&self) -> u32
        ensures { result ≡ total_of self.now.me.geometry }
    {
        self.me.geometry.total()
    }

    /// How the identity stands.
    pub fn stage(&self) -> Stage
        ensures { result ≡ self.now.stage }
    {
        self.stage
    }

    /// Whether an operation is in progress.
    pub fn is_busy(&self) -> bool
        ensures { result ≡ is_some self.now.work }
    {
        self.work.is_some()
    }

    /// Begins an operation: its first word step, or a refusal, which changes nothing.
    pub fn begin(&mut self, call: Call) -> Said
        ensures me { self.new.me ≡ self.old.me }
        ensures said { result ≡ (beginning S.operations self.old.me self.old.stage self.old.work call).said }
        ensures stage { self.new.stage ≡ self.old.stage }
        ensures work { self.new.work ≡ (beginning S.operations self.old.me self.old.stage self.old.work call).work }
        ensures refused { 64 ≤ result.code → self.new.work ≡ self.old.work }
    {
        if self.work.is_some() {
            return Said::refusal(Misuse::Busy);
        }
        match S::begin(self.me, self.stage, call) {
            Ok(machine) => {
                if S::is_over(&machine) {
                    return Said::refusal(Misuse::Range);
                }
                let ask = S::ask(&machine);
                self.work = Some(machine);
                Said::step(ask)
            }
            Err(misuse) => Said::refusal(misuse),
        }
    }

    /// The word step that it asks for; the refusal `Idle` where no operation is in progress.
    #[inline(always)]
    pub fn next(&self) -> Said
        ensures { result ≡ next_said S.operations self.now.work }
    {
        match self.ask() {
            Some(ask) => Said::step(ask),
            None => Said::refusal(Misuse::Idle),
        }
    }

    /// Says what was answered, or else the word step that it asks for.
    #[inline(always)]
    fn say(&mut self, answer: Option<S::Answer>) -> Said
        ensures me { self.new.me ≡ self.old.me }
        ensures said { result ≡ said_by S.operations answer self.old.stage self.old.work }
        ensures stage { self.new.stage ≡ stage_by S.operations answer self.old.stage }
        ensures work { self.new.work ≡ self.old.work }
    {
        match answer {
            Some(answer) => {
                let Reply { said, stage } = S::reply(answer, self.stage);
                self.stage = stage;
                said
            }
            None => self.next(),
        }
    }

    /// Takes the word that was found, for a store 0: the next word step, or the answer. Where nothing was asked for, the refusal `Idle`, and nothing changes.
    #[inline(always)]
    pub fn tell(&mut self, found: u64) -> Said
        ensures me { self.new.me ≡ self.old.me }
        ensures said { result ≡ (told S.operations self.old.stage self.old.work found).said }
        ensures stage { self.new.stage ≡ (told S.operations self.old.stage self.old.work found).stage }
        ensures work { self.new.work ≡ (told S.operations self.old.stage self.old.work found).work }
        ensures idle { self.old.work ≡ None → (result ≡ refusal_said Idle) × (self.new.stage ≡ self.old.stage) × (self.new.work ≡ None) }
    {
        let answer = self.take(found);
        self.say(answer)
    }

    /// Makes the word steps that it asks for at a site where any word step may be made, until no operation is in progress or no life is left: what it then
    /// says, as where `tell` had been told each word that was found. Where no operation is in progress, the refusal `Idle`, and nothing changes.
    #[inline(always)]
    pub fn run<T: Site>(&mut self, site: &T, words: &mut T::Words, life: &mut Life) -> Said
        requires { (w : T.Words) (a : AnAsk) → T.may site.now w a }
        ensures me { self.new.me ≡ self.old.me }
        ensures left { life.new.left ≤ life.old.left }
        ensures ran { RunsTo S.operations (T.made site.now) (T.seen site.now) life.old.left (asking S.operations self.old.stage self.old.work) words.old (record { left = life.new.left; turned = record { said = result; stage = self.new.stage; work = self.new.work }; words = words.new }) }
    {
        let Some(machine) = &mut self.work else {
            return Said::refusal(Misuse::Idle);
        };
        match S::run(machine, site, words, life) {
            Some(answer) => {
                self.work = None;
                self.say(Some(answer))
            }
            None => {
                if S::is_over(machine) {
                    self.work = None;
                    return Said::refusal(Misuse::Idle);
                }
                self.next()
            }
        }
    }

    /// Gives up what is in progress: an identity that has joined, or was at something, is dead from then on. What the command that it was at
    /// will have answered, where that is certain.
    pub fn fall(&mut self) -> Said
        ensures me { self.new.me ≡ self.old.me }
        ensures said { result ≡ (fallen S.operations self.old.stage self.old.work).said }
        ensures stage { self.new.stage ≡ (fallen S.operations self.old.stage self.old.work).stage }
        ensures work { self.new.work ≡ None }
    {
        let effect = match &self.work {
            Some(machine) => S::effect(machine),
            None => None,
        };
        self.stage = match (self.stage, &self.work) {
            (Stage::Vacant, None) => Stage::Vacant,
            _ => Stage::Dead,
        };
        self.work = None;
        match effect {
            Some(said) => said,
            None => Said::of(35),
        }
    }

    /// A call by its number.
    pub fn call(&mut self, call: Call) -> Said
        ensures me { self.new.me ≡ self.old.me }
        ensures said { result ≡ (called S.operations self.old.me self.old.stage self.old.work call).said }
        ensures stage { self.new.stage ≡ (called S.operations self.old.me self.old.stage self.old.work call).stage }
        ensures work { self.new.work ≡ (called S.operations self.old.me self.old.stage self.old.work call).work }
    {
        match call.op {
            16 => Said::standing(self.stage, self.work.is_some()),
            17 => self.next(),
            18 => self.fall(),
            _ => self.begin(call),
        }
    }
}
