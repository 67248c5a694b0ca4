//! A value block that a root names comes into the own table, at a key.

ghost use Rattle.std.specs.Prelude.{◌≡◌, ◌<◌, ◌^◌};
ghost use Rattle.shm_words.specs.Layout.{GeometryFits, address_limit};
ghost use Rattle.shm_table.specs.Effects.{put_root_decided, settled};
ghost use Rattle.shm_table.specs.PutRoot.Control.{put_root_parts, putting_root, put_root_steered, put_root_control};
ghost use Rattle.shm_table.specs.{PutRoot.put_root_plan, Proved.{PutRoot.Laws.put_root_laws, Enter.Laws.enter_laws}};
ghost use Rattle.shm_table.specs.Proved.{Locate.Laws.locate_laws, OpenTable.Laws.open_laws, Replace.Laws.replace_laws};
ghost use Rattle.shm_table.specs.PutRoot.Control as control;
ghost use Rattle.plans.specs.{CallsControl.calls_of, CallsFit.{CallsFits, CallsGives}, Proved.CallsKeep.calls_laws};

use crate::answer::PutFault;
use crate::effect::{Deciding, Settling, decided_in};
use crate::enter::{Enter, Entered};
use crate::find::Found;
use crate::locate::Locate;
use crate::open_table::OpenTable;
use crate::replace::Replace;
use crate::unlatch::Unlatch;
use plans::{Calls, Or, Plan};
use shm_count::EraSpent;
use shm_graph::{Ask, Life, Machine, Me, Site, Turn};
use shm_ref::DropRoot;
use shm_words::ADDRESS_LIMIT;
use std::marker::Model;

/// Which call of it comes next.
#[derive(Clone, Copy, Drop)]
pub enum PutRootPoint {
    /// The own home comes to name a directory, where it names none.
    Open,
    /// The own latch is taken, and the key is looked for.
    Locate,
    /// The entry that was found comes to have the value block.
    Replace,
    /// A new entry comes to have it.
    Enter,
    /// The latch is given back.
    Unlatch,
    /// The root of the new entry is dropped.
    Drop,
}

/// The control of it: `value` is to be at `key`. `entry` is the entry that was found, or the directory is `home` and its bucket's first entry
/// `first`; `root` is that of a new entry, `decided` says whether the key came to have the block, and `refused` is why it came to nothing.
#[derive(Clone, Copy, Drop)]
pub struct PutRootState {
    pub me: Me,
    pub key: u32,
    pub value: u32,
    pub home: u32,
    pub first: u32,
    pub entry: u32,
    pub root: Option<u8>,
    pub decided: bool,
    pub refused: Option<PutFault>,
    pub point: PutRootPoint,
}

/// Its calls.
pub type PutRootCall = Or<
    Or<Calls<OpenTable>, Calls<Locate>>,
    Or<Or<Calls<Replace>, Calls<Enter>>, Or<Calls<Unlatch>, Calls<DropRoot>>>,
>;

/// What its calls answer.
pub type PutRootAnswer = Or<
    Or<Result<(), PutFault>, Found>,
    Or<Or<Result<bool, PutFault>, Entered>, Or<(), Result<bool, EraSpent>>>,
>;

/// The calls by which a value block comes into the own table.
#[derive(Drop)]
pub struct PuttingRoot {
    state: PutRootState,
}

impl Model for PuttingRoot {
    ghost use Rattle.shm_table.specs.declared.put_root.PutRootState.{PutRootState as AState};

    ghost Value = { AState };

    ghost view = { λ a. a.state };

    ghost use Rattle.shm_table.specs.PutRoot.Control.{PutRootInRange};

    ghost invariant = { λ a. PutRootInRange a.state };
}

/// The machine that makes them. It answers whether the key came to have the value block, or had it already, or why it hasn't got it: from the
/// step on by which it has it, no refusal changes the answer.
#[derive(Drop)]
pub struct PutRoot {
    calls: Calls<PuttingRoot>,
}

impl Model for PutRoot {
    ghost use Rattle.shm_table.specs.PutRoot.Control.{PutRootCalls};

    ghost Value = { PutRootCalls };

    ghost view = { λ a. a.calls };
}

impl PutRoot {
    /// The value block `value`, which a root of `me` names, is to be at `key` in the table of `me`.
    #[inline(always)]
    pub fn new(me: Me, key: u32, value: u32) -> PutRoot
        requires geometry { GeometryFits me.geometry }
        requires who { me.who < me.geometry.clients }
        requires value { value < address_limit }
        ensures { result ≡ calls_of put_root_steered (putting_root me key value) }
    {
        PutRoot {
            calls: Calls::new(PuttingRoot::new(me, key, value)),
        }
    }
}

impl Machine for PutRoot {
    type Answer = Result<bool, PutFault>;

    ghost control = { put_root_control };

    ghost fits = { CallsFits put_root_parts put_root_plan };

    ghost gives = { CallsGives put_root_parts put_root_plan };

    #[inline(always)]
    fn me(&self) -> Me {
        self.calls.me()
    }

    #[inline(always)]
    fn finished(&self) -> bool {
        self.calls.finished()
    }

    #[inline(always)]
    fn ask(&self) -> Ask {
        self.calls.ask()
    }

    #[inline(always)]
    fn take(&mut self, seen: u64) -> Turn<Result<bool, PutFault>> {
        self.calls.take(seen)
    }

    #[inline(always)]
    fn act<S: Site>(&mut self, site: &S, words: &mut S::Words) -> Turn<Result<bool, PutFault>> {
        self.calls.act(site, words)
    }

    #[inline(always)]
    fn run<S: Site>(
        &mut self,
        site: &S,
        words: &mut S::Words,
        life: &mut Life,
    ) -> Turn<Result<bool, PutFault>> {
        self.calls.run(site, words, life)
    }

    ghost laws = { calls_laws put_root_parts put_root_plan (put_root_laws open_laws locate_laws replace_laws enter_laws) };
}

impl PuttingRoot {
    /// The value block `value`, which a root of `me` names, is to be at `key` in the table of `me`.
    #[inline(always)]
    pub fn new(me: Me, key: u32, value: u32) -> PuttingRoot
        requires geometry { GeometryFits me.geometry }
        requires who { me.who < me.geometry.clients }
        requires value { value < address_limit }
        ensures { result ≡ putting_root me key value }
    {
        PuttingRoot {
            state: PutRootState {
                me,
                key,
                value,
                home: 0,
                first: 0,
                entry: 0,
                root: None,
                decided: false,
                refused: None,
                point: PutRootPoint::Open,
            },
        }
    }
}

/// A directory that lies in a pool.
#[inline(always)]
fn home_of(block: u32) -> u32
    ensures { result ≡ control.home_of block }
{
    if block < ADDRESS_LIMIT - 17 { block } else { 0 }
}

impl PutRootState {
    /// Where it goes once the key was looked for.
    #[inline(always)]
    fn located(&mut self, found: Found)
        ensures { self.new ≡ control.located_after self.old found }
    {
        match found {
            Found::At { entry, .. } => {
                self.entry = entry % ADDRESS_LIMIT;
                self.point = PutRootPoint::Replace;
            }
            Found::Absent { home, first } => {
                self.home = home_of(home);
                self.first = first % ADDRESS_LIMIT;
                self.point = PutRootPoint::Enter;
            }
        }
    }

    /// Where it goes once a new entry was to be linked.
    #[inline(always)]
    fn entered(&mut self, entered: Entered)
        ensures { self.new ≡ control.entered_after self.old entered }
    {
        self.point = PutRootPoint::Unlatch;
        match entered {
            Entered::Linked { root } => {
                self.root = Some(root % 16);
                self.decided = true;
                self.refused = None;
            }
            Entered::Unlinked { root, fault } => {
                self.root = Some(root % 16);
                self.refused = Some(fault);
            }
            Entered::Unmade { fault } => self.refused = Some(fault),
        }
    }

    /// What it answers where nothing more was refused.
    #[inline(always)]
    fn answer(self) -> Result<bool, PutFault>
        ensures { result ≡ control.put_answer self.decided self.refused }
    {
        match self.refused {
            None => Ok(self.decided),
            Some(fault) => Err(fault),
        }
    }

    /// What it answers where the root of the entry couldn't be dropped.
    #[inline(always)]
    fn stuck(self, spent: EraSpent) -> Result<bool, PutFault>
        ensures { result ≡ control.stuck_answer self.decided self.refused spent }
    {
        match self.refused {
            None => Ok(self.decided),
            Some(_) => Err(PutFault::spent(spent)),
        }
    }
}

impl Plan for PuttingRoot {
    type Call = PutRootCall;

    type Answer = Result<bool, PutFault>;

    ghost plan = { put_root_plan };

    #[inline(always)]
    fn me(&self) -> Me {
        self.state.me
    }

    #[inline(always)]
    fn call(&self) -> PutRootCall {
        let PutRootState {
            me,
            key,
            value,
            home,
            first,
            entry,
            root,
            point,
            ..
        } = self.state;
        match point {
            PutRootPoint::Open => Or::First(Or::First(Calls::new(OpenTable::new(me)))),
            PutRootPoint::Locate => Or::First(Or::Second(Calls::new(Locate::new(me, me.who, key)))),
            PutRootPoint::Replace => {
                Or::Second(Or::First(Or::First(Calls::new(Replace::new(me, entry, value)))))
            }
            PutRootPoint::Enter => Or::Second(Or::First(Or::Second(Calls::new(Enter::new(
                me, key, value, home, first,
            ))))),
            PutRootPoint::Unlatch => {
                Or::Second(Or::Second(Or::First(Calls::new(Unlatch::new(me, me.who)))))
            }
            PutRootPoint::Drop => Or::Second(Or::Second(Or::Second(Calls::new(DropRoot::new(
                me,
                root.unwrap_or(0),
            ))))),
        }
    }

    #[inline(always)]
    fn next(&mut self, answer: PutRootAnswer) -> Option<Result<bool, PutFault>> {
        match answer {
            Or::First(Or::First(Ok(()))) => {
                self.state.point = PutRootPoint::Locate;
                None
            }
            Or::First(Or::First(Err(fault))) => Some(Err(fault)),
            Or::First(Or::Second(found)) => {
                self.state.located(found);
                None
            }
            Or::Second(Or::First(Or::First(done))) => {
                self.state.decided = matches!(done, Ok(true));
                self.state.refused = done.err();
                self.state.point = PutRootPoint::Unlatch;
                None
            }
            Or::Second(Or::First(Or::Second(entered))) => {
                self.state.entered(entered);
                None
            }
            Or::Second(Or::Second(Or::First(()))) => {
                self.state.point = PutRootPoint::Drop;
                if self.state.root.is_some() {
                    None
                } else {
                    Some(self.state.answer())
                }
            }
            Or::Second(Or::Second(Or::Second(Ok(_)))) => Some(self.state.answer()),
            Or::Second(Or::Second(Or::Second(Err(spent)))) => Some(self.state.stuck(spent)),
        }
    }

    ghost laws = { put_root_laws open_laws locate_laws replace_laws enter_laws };
}

/// Whether the deciding step was made: where it was refused it wasn't.
#[inline(always)]
pub(crate) fn settled(decided: bool, refused: Option<PutFault>) -> bool
    ensures { result ≡ settled decided refused }
{
    match refused {
        None => decided,
        Some(_) => false,
    }
}

impl Settling for PuttingRoot {
    ghost settled = { λ m. settled m.decided m.refused };

    #[inline(always)]
    fn settled(&self) -> bool {
        settled(self.state.decided, self.state.refused)
    }
}

impl Deciding for PutRoot {
    ghost decided = { put_root_decided };

    /// The entry's other value decides, or the new entry.
    #[inline(always)]
    fn decided(&self) -> bool {
        decided_in(&self.calls)
    }
}
