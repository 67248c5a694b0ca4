//! The allocation of a block.

ghost use Rattle.std.specs.Prelude.{◌≡◌, ◌≢◌, ◌<◌, ◌≤◌, ◌↔◌, ◌⊎◌, ℕ, IfOk, IfErr, is_err, false, true, length, take};
ghost use Rattle.shm_words.specs.Layout.{GeometryFits};
ghost use Rattle.shm_graph.specs.{Laws.turn_of, ManySteps.{HasRun, MayRun}};
ghost use Rattle.shm_alloc.specs.Alloc.Control.{PointFits, alloc_ask, alloc_control, alloc_next, answer_of, point_of};
ghost use Rattle.shm_alloc.specs.Alloc.{AsPart.AllocLeaves, Events.alloc_event, Passing.HasPassed, AllocFits, AllocGives};
ghost use Rattle.shm_alloc.specs.Proved.{Alloc.Laws.alloc_laws, Operating.{AllocMay, alloc_operation}};
ghost use Rattle.shm_alloc.specs.declared.point.{AllocPoint.TheVariants.Era, AllocNext.TheVariants.Point};

use crate::point::{AllocNext, AllocPoint, AllocState, Search};
use crate::request::{Near, Request};
use plans::Begin;
use shm_count::Made;
use shm_graph::{Ask, Life, Machine, Me, Operation, Site, Turn};
use std::marker::Model;

/// Why no block was made.
#[derive(Clone, Copy, Debug, PartialEq, Eq, Drop)]
pub enum AllocFault {
    /// The own era that was read is above 2^47 - 3.
    EraSpent {
        era: u64,
    },
    /// All 16 own roots are set.
    RootsFull,
    /// Every segment is another's, or has no free block of the class and no page without a class.
    Full {
        /// How many segments are another's.
        segments: u16,
        /// How many headers of blocks were read.
        blocks: u32,
    },
}

/// A block has at most 16 reference words and 8 plain words; these were asked for.
#[derive(Clone, Copy, Debug, PartialEq, Eq, Drop)]
pub struct TooLarge {
    pub refs: u8,
    pub plain: usize,
}

/// Takes a free block of a segment of the identity, and makes it live in the least empty root.
#[derive(Drop)]
pub struct Alloc {
    state: AllocState,
    /// The class of the block.
    class: u8,
    /// While headers are read: where the next one is, and how many blocks behind it in its page are gone to next.
    header: u32,
    left: u8,
}

impl Model for Alloc {
    ghost use Rattle.shm_alloc.specs.declared.point.AllocState.{AllocState as AState};

    ghost Value = { AState };

    ghost view = { λ a. a.state };

    ghost use Rattle.shm_alloc.specs.Alloc.Control.{AllocInRange};
    ghost use Rattle.shm_alloc.specs.Alloc.Passing.{AtHand};

    ghost invariant = { λ a. AllocInRange a.state × AtHand a.state a.class a.header a.left };
}

impl Alloc {
    /// An allocation for the identity `me` of a block with `refs` empty reference words and these plain words.
    ///
    /// # Errors
    ///
    /// `TooLarge` where more than 16 reference words or more than 8 plain words are asked for.
    pub fn new(me: Me, refs: u8, plain: &[u64]) -> Result<Alloc, TooLarge>
        requires geometry { GeometryFits me.geometry }
        requires who { me.who < me.geometry.clients }
        ensures refused { is_err result ≡ true ↔ ((16 < refs) ⊎ (8 < length plain.now)) }
        ensures fault { IfErr result (λ e. e ≡ record { refs = refs; plain = length plain.now }) }
        ensures fresh { IfOk result (λ m. (m.me ≡ me) × (m.point ≡ Era)) }
        ensures request { IfOk result (λ m. (m.request.refs ≡ refs) × (m.request.count ≡ length plain.now) × (take (length plain.now) m.request.plain ≡ plain.now)) }
        ensures near { IfOk result (λ m. m.request.near ≡ record { segment = 0; page = 0; index = 0 }) }
    {
        let near = Near {
            segment: 0,
            page: 0,
            index: 0,
        };
        Alloc::new_near(me, refs, plain, near)
    }

    /// The same, where the search for a free block begins near a place.
    ///
    /// # Errors
    ///
    /// `TooLarge` where more than 16 reference words or more than 8 plain words are asked for.
    pub fn new_near(me: Me, refs: u8, plain: &[u64], near: Near) -> Result<Alloc, TooLarge>
        requires geometry { GeometryFits me.geometry }
        requires who { me.who < me.geometry.clients }
        ensures refused { is_err result ≡ true ↔ ((16 < refs) ⊎ (8 < length plain.now)) }
        ensures fault { IfErr result (λ e. e ≡ record { refs = refs; plain = length plain.now }) }
        ensures fresh { IfOk result (λ m. (m.me ≡ me) × (m.point ≡ Era)) }
        ensures request { IfOk result (λ m. (m.request.refs ≡ refs) × (m.request.count ≡ length plain.now) × (take (length plain.now) m.request.plain ≡ plain.now)) }
        ensures near { IfOk result (λ m. m.request.near ≡ near) }
    {
        if refs > 16 || plain.len() > 8 {
            let plain = plain.len();
            return Err(TooLarge { refs, plain });
        }
        let mut words = [0; 8];
        words[..plain.len()].copy_from_slice(plain);
        let request = Request {
            refs,
            count: plain.len() as u8,
            plain: words,
            near,
        };
        Ok(Alloc::asked(me, request))
    }

    /// An allocation for the identity `me` of a block that holds what `request` says.
    #[inline(always)]
    pub fn asked(me: Me, request: Request) -> Alloc
        requires geometry { GeometryFits me.geometry }
        requires who { me.who < me.geometry.clients }
        requires refs { request.refs ≤ 16 }
        requires count { request.count ≤ 8 }
        ensures { result ≡ record { me = me; request = request; point = Era } }
    {
        let point = AllocPoint::Era;
        Alloc {
            state: AllocState { me, request, point },
            class: request.class(),
            header: 0,
            left: 0,
        }
    }

    /// The block of the header that was read is in use: goes to the next one, if the page has another. It answers whether it has.
    #[inline(always)]
    fn pass(&mut self) -> bool
        ensures next { result ≡ true → (n : ℕ) → n ≢ 0 → alloc_next self.old n ≡ Point self.new.point }
        ensures others { result ≡ true → self.new ≡ record self.old { point = self.new.point } }
        ensures stays { result ≡ false → self.new ≡ self.old }
    {
        if self.left == 0 {
            return false;
        }
        match &mut self.state.point {
            AllocPoint::Header { search, index, .. } => {
                search.used += 1;
                *index += 1;
                self.left -= 1;
                self.header += u32::from(self.class);
                true
            }
            _ => false,
        }
    }

    /// The word step that comes next, wherever it is.
    #[inline(never)]
    fn ask_any(&self) -> Ask
        ensures { result ≡ alloc_ask self.now }
    {
        self.state.ask()
    }

    /// Goes to a point.
    #[inline(always)]
    fn go_to(&mut self, point: AllocPoint)
        requires { PointFits self.old.me self.old.request point }
        ensures { self.new ≡ record self.old { point = point } }
    {
        if let AllocPoint::Header {
            search,
            page,
            index,
            ..
        } = point
        {
            self.header = self.state.block(search, page, index);
            let at = self.state.index_at(index);
            self.left = 128 / self.class - 1 - if at < index { index } else { at };
        }
        self.state.point = point;
    }

    /// Goes where the control leads.
    #[inline(always)]
    fn go_on(&mut self, next: AllocNext) -> Turn<Result<Made, AllocFault>>
        requires { PointFits self.old.me self.old.request (point_of next) }
        ensures machine { self.new ≡ record self.old { point = point_of next } }
        ensures turn { result ≡ turn_of (answer_of next) }
    {
        match next {
            AllocNext::Point(point) => {
                self.go_to(point);
                Turn::More
            }
            AllocNext::Answer(answer) => {
                self.state.point = AllocPoint::Over;
                Turn::Done(answer)
            }
        }
    }

    /// Goes on by the word that was found, from wherever it is.
    #[inline(never)]
    fn take_any(&mut self, seen: u64) -> Turn<Result<Made, AllocFault>>
        ensures machine { self.new ≡ alloc_control.after self.old seen }
        ensures turn { result ≡ turn_of (alloc_control.turns self.old seen) }
    {
        let next = self.state.next(seen);
        self.go_on(next)
    }

    /// Makes the word step that comes next, and goes on by the word that was found.
    #[inline(always)]
    fn make<S: Site>(&mut self, site: &S, words: &mut S::Words) -> Turn<Result<Made, AllocFault>>
        requires { S.may site.now words.old (alloc_ask self.old) }
        ensures made { S.made site.now words.old (alloc_ask self.old) words.new }
        ensures machine { let a = alloc_ask self.old in self.new ≡ alloc_control.after self.old (S.seen site.now words.old a words.new) }
        ensures turn { let a = alloc_ask self.old in result ≡ turn_of (alloc_control.turns self.old (S.seen site.now words.old a words.new)) }
    {
        let next = self.state.make(site, words);
        self.go_on(next)
    }

    /// The same, with an arm for each point, so that the compiler makes a piece of code for each and asks once where it is.
    #[inline(always)]
    fn make_at<S: Site>(&mut self, site: &S, words: &mut S::Words) -> Turn<Result<Made, AllocFault>>
        requires { S.may site.now words.old (alloc_ask self.old) }
        ensures made { S.made site.now words.old (alloc_ask self.old) words.new }
        ensures machine { let a = alloc_ask self.old in self.new ≡ alloc_control.after self.old (S.seen site.now words.old a words.new) }
        ensures turn { let a = alloc_ask self.old in result ≡ turn_of (alloc_control.turns self.old (S.seen site.now words.old a words.new)) }
    {
        match self.state.point {
            AllocPoint::Era => self.make(site, words),
            AllocPoint::Root { .. } => self.make(site, words),
            AllocPoint::Segment { .. } => self.make(site, words),
            AllocPoint::Claim { .. } => self.make(site, words),
            AllocPoint::Page { .. } => self.make(site, words),
            AllocPoint::Class { .. } => self.make(site, words),
            AllocPoint::Header { .. } => self.make(site, words),
            AllocPoint::Tag { .. } => self.make(site, words),
            AllocPoint::Reference { .. } => self.make(site, words),
            AllocPoint::Plain { .. } => self.make(site, words),
            AllocPoint::More { .. } => self.make(site, words),
            AllocPoint::Redo { .. } => self.make(site, words),
            AllocPoint::Commit { .. } => self.make(site, words),
            AllocPoint::Slot { .. } => self.make(site, words),
            AllocPoint::Close { .. } => self.make(site, words),
            AllocPoint::Over => self.make(site, words),
        }
    }

    /// Makes the word step that comes next, wherever it is, and goes on by the word that was found.
    #[inline(never)]
    fn act_any<S: Site>(&mut self, site: &S, words: &mut S::Words) -> Turn<Result<Made, AllocFault>>
        requires { S.may site.now words.old (alloc_ask self.old) }
        ensures made { S.made site.now words.old (alloc_ask self.old) words.new }
        ensures machine { let a = alloc_ask self.old in self.new ≡ alloc_control.after self.old (S.seen site.now words.old a words.new) }
        ensures turn { let a = alloc_ask self.old in result ≡ turn_of (alloc_control.turns self.old (S.seen site.now words.old a words.new)) }
    {
        self.make_at(site, words)
    }

    /// Reads headers, where it is at one, while their blocks are in use and lie one behind the other, and life is left. Behind that of a free
    /// block the tag comes next.
    #[inline(always)]
    fn pass_all<S: Site>(&mut self, site: &S, words: &mut S::Words, life: &mut Life)
        requires { MayRun alloc_control (S.may site.now) (S.made site.now) (S.seen site.now) life.old.left self.old words.old }
        ensures passed { HasPassed (S.may site.now) (S.made site.now) (S.seen site.now) life.old.left self.old words.old life.new.left self.new words.new }
        ensures life { life.new.left ≤ life.old.left }
    {
        let AllocPoint::Header {
            goal,
            search,
            page,
            index,
        } = self.state.point
        else {
            return;
        };
        let most = u64::from(self.left).min(life.left) as u8;
        let class = u32::from(self.class);
        let mut at = self.header;
        let mut passed = 0;
        'headers: while passed < most {
            let seen = site.make(words, Ask::Load { at });
            if seen == 0 {
                life.left -= u64::from(passed) + 1;
                self.state.point = AllocPoint::Tag { goal, block: at };
                return;
            }
            at += class;
            passed += 1;
        }
        life.left -= u64::from(passed);
        self.left -= passed;
        self.header = at;
        let used = search.used + u32::from(passed);
        self.state.point = AllocPoint::Header {
            goal,
            search: Search { used, ..search },
            page,
            index: index + passed,
        };
    }

    /// Makes the word steps that come next, until it has answered or no life is left.
    #[inline(never)]
    fn run_any<S: Site>(
        &mut self,
        site: &S,
        words: &mut S::Words,
        life: &mut Life,
    ) -> Turn<Result<Made, AllocFault>>
        requires { MayRun alloc_control (S.may site.now) (S.made site.now) (S.seen site.now) life.old.left self.old words.old }
        ensures { HasRun alloc_control (S.made site.now) (S.seen site.now) life.old.left self.old words.old (record { left = life.new.left; machine = self.new; words = words.new; turn = result }) }
    {
        'steps: loop {
            self.pass_all(site, words, life);
            if life.left == 0 {
                return Turn::Died;
            }
            life.left -= 1;
            match self.make_at(site, words) {
                Turn::More => {}
                Turn::Done(answer) => return Turn::Done(answer),
                Turn::Died => return Turn::Died,
            }
        }
    }
}

impl Machine for Alloc {
    type Answer = Result<Made, AllocFault>;

    ghost control = { alloc_control };

    ghost fits = { AllocFits };

    ghost gives = { AllocGives };

    #[inline(always)]
    fn me(&self) -> Me {
        self.state.me
    }

    #[inline(always)]
    fn finished(&self) -> bool {
        matches!(self.state.point, AllocPoint::Over)
    }

    #[inline(always)]
    fn ask(&self) -> Ask {
        match self.state.point {
            AllocPoint::Header { .. } => Ask::Load { at: self.header },
            _ => self.ask_any(),
        }
    }

    #[inline(always)]
    fn take(&mut self, seen: u64) -> Turn<Result<Made, AllocFault>> {
        if seen != 0 && self.pass() {
            return Turn::More;
        }
        self.take_any(seen)
    }

    #[inline(always)]
    fn act<S: Site>(&mut self, site: &S, words: &mut S::Words) -> Turn<Result<Made, AllocFault>> {
        match self.state.point {
            AllocPoint::Header { .. } => {
                let ask = self.ask();
                let seen = site.make(words, ask);
                self.take(seen)
            }
            _ => self.act_any(site, words),
        }
    }

    #[inline(always)]
    fn run<S: Site>(
        &mut self,
        site: &S,
        words: &mut S::Words,
        life: &mut Life,
    ) -> Turn<Result<Made, AllocFault>> {
        self.run_any(site, words, life)
    }

    ghost laws = { alloc_laws };
}

impl Operation for Alloc {
    ghost may = { AllocMay };

    ghost leaves = { AllocLeaves };

    ghost does = { alloc_event };

    ghost operates = { alloc_operation };
}

impl Begin for Alloc {
    type Op = Alloc;

    ghost op = { λ m. m };

    #[inline(always)]
    fn begin(self) -> Alloc {
        self
    }
}
