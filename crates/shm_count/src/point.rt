//! The control of a count step: which word it asks for, and where it goes by the word found.

ghost use Rattle.std.specs.Prelude.{◌≡◌, ◌≢◌, ◌+◌, ◌<◌, ◌≤◌, ◌^◌, true};
ghost use Rattle.shm_words.specs.{Layout.GeometryFits, Headers.header_of, Redos.{first_word, second_word}};
ghost use Rattle.shm_graph.specs.declared.ask.Ask.TheVariants as asks;
ghost use Rattle.shm_count.specs.Step.Control.{AimSmall, EraFits, PartFits, CountFits, StepInRange};
ghost use Rattle.shm_count.specs.Step.Control as control;
ghost use Rattle.shm_count.specs.Step.ExchangeMade as exchanging;
ghost use Rattle.shm_count.specs.declared.point.StepPoint.TheVariants as point;

use crate::answer::UpFault;
use shm_graph::{Ask, Me, Site};
use shm_words::{Header, Pair2, Redo};

/// What a count step does to the reference word that is its slot.
#[derive(Clone, Copy, Drop)]
pub enum Aim {
    /// It is empty, and comes to name the block.
    Up { block: u32 },
    /// It names the block, and comes to be empty.
    Down { block: u32 },
    /// It names the block before, and comes to name the block after.
    Change { before: u32, after: u32 },
}

/// The halves of a change; the other steps have the first one alone.
#[derive(Clone, Copy, Drop)]
pub enum Half {
    First,
    Second,
}

/// The step that comes next; `era` is the own era of the current half.
#[derive(Clone, Copy, Drop)]
pub enum StepPoint {
    /// Load the own era.
    Era,
    /// Store the second word of the redo record, in format 2.
    More { era: u64 },
    /// Store the redo record, in format 2 its first word.
    Redo { era: u64 },
    /// Load the header of the block.
    Load { era: u64, part: Half },
    /// Load the own row for the header's client.
    Row { era: u64, part: Half, header: u64 },
    /// Store the header's era in that row.
    Show { era: u64, part: Half, header: u64 },
    /// Exchange the header.
    Exchange { era: u64, part: Half, header: u64 },
    /// Store the slot.
    Slot { era: u64, zero: bool },
    /// Store the next own era.
    Close { era: u64, part: Half, zero: bool },
    /// It has answered.
    Over,
}

/// The control of a count step; `slot` is an address.
#[derive(Clone, Copy, Drop)]
pub struct StepState {
    pub me: Me,
    pub slot: u32,
    pub aim: Aim,
    pub point: StepPoint,
}

/// Where a count step goes by the word that it found; the answer says whether a count came to 0.
#[derive(Clone, Copy, Drop)]
pub enum StepNext {
    Point(StepPoint),
    Answer(Result<bool, UpFault>),
}

impl Aim {
    /// The greatest own era that leaves room for the step.
    #[inline(always)]
    fn last_era(self) -> u64
        ensures { result ≡ control.last_era self }
    {
        match self {
            Aim::Change { .. } => (1 << 47) - 4,
            _ => (1 << 47) - 3,
        }
    }

    /// The block whose count changes.
    #[inline(always)]
    fn block(self, part: Half) -> u32
        ensures { result ≡ control.block_at self part }
    {
        match (self, part) {
            (Aim::Up { block } | Aim::Down { block }, _) => block,
            (Aim::Change { after, .. }, Half::First) => after,
            (Aim::Change { before, .. }, Half::Second) => before,
        }
    }

    /// Whether the count goes up.
    #[inline(always)]
    fn raises(self, part: Half) -> bool
        ensures { result ≡ control.raises self part }
    {
        match (self, part) {
            (Aim::Up { .. }, _) | (Aim::Change { .. }, Half::First) => true,
            _ => false,
        }
    }

    /// Whether a half is the second one of a change.
    #[inline(always)]
    fn is_second(self, part: Half) -> bool
        ensures { result ≡ exchanging.is_second self part }
    {
        match (self, part) {
            (Aim::Change { .. }, Half::Second) => true,
            _ => false,
        }
    }

    /// What the slot comes to hold.
    #[inline(always)]
    fn value(self) -> u32
        ensures { result ≡ control.value_after self }
    {
        match self {
            Aim::Up { block } => block,
            Aim::Down { .. } => 0,
            Aim::Change { after, .. } => after,
        }
    }

    /// The redo record at an era.
    #[inline(always)]
    fn redo(self, slot: u32, era: u64) -> Redo
        ensures { result ≡ control.redo_at self slot era }
    {
        match self {
            Aim::Up { block } => Redo::Up { slot, block },
            Aim::Down { block } => Redo::Down { slot, block },
            Aim::Change { before, after } => Redo::Change {
                odd: era % 2 == 1,
                slot,
                before,
                after,
            },
        }
    }
}

impl StepState {
    /// The header that the block comes to have.
    #[inline(always)]
    fn new_header(self, era: u64, part: Half, header: u64) -> u64
        requires who { self.me.who < 16 }
        requires era { era < 2 ^ 47 }
        requires count { CountFits self.aim part header }
        ensures { result ≡ control.header_after self.me self.aim era part header }
    {
        let count = Header::unpack(header).count;
        Header {
            live: true,
            client: self.me.who,
            count: count_after(self.aim.raises(part), count),
            era,
        }
        .pack()
    }

    /// The address of the own row's word for a client; no header shows a client that the pool hasn't.
    #[inline(always)]
    fn row(self, client: u8) -> u32
        requires geometry { GeometryFits self.me.geometry }
        requires who { self.me.who < self.me.geometry.clients }
        ensures { result ≡ control.row_address self.me client }
    {
        let Me { geometry, who } = self.me;
        if client < geometry.clients() {
            geometry.era(who, client)
        } else {
            0
        }
    }

    /// The words of the redo record.
    #[inline(always)]
    fn record(self, era: u64) -> Pair2
        ensures first { result.first ≡ first_word self.me.geometry.wide (control.redo_at self.aim self.slot era) }
        ensures second { result.second ≡ second_word self.me.geometry.wide (control.redo_at self.aim self.slot era) }
    {
        self.me.geometry.write_redo(self.aim.redo(self.slot, era))
    }

    /// The store of the second word of the redo record.
    #[inline(always)]
    fn prepare(self, era: u64) -> Ask
        requires geometry { GeometryFits self.me.geometry }
        requires wide { self.me.geometry.wide ≡ true }
        requires who { self.me.who < self.me.geometry.clients }
        ensures { result ≡ control.step_ask_at self.me self.slot self.aim (point.More era) }
    {
        Ask::Store {
            at: self.me.geometry.redo_more(self.me.who),
            value: self.record(era).second,
        }
    }

    /// The store of the redo record, in format 2 of its first word.
    #[inline(always)]
    fn begin(self, era: u64) -> Ask
        requires geometry { GeometryFits self.me.geometry }
        requires who { self.me.who < self.me.geometry.clients }
        ensures { result ≡ control.step_ask_at self.me self.slot self.aim (point.Redo era) }
    {
        Ask::Store {
            at: self.me.geometry.redo(self.me.who),
            value: self.record(era).first,
        }
    }

    /// The store of the header's era in the own row.
    #[inline(always)]
    fn show(self, header: u64) -> Ask
        requires geometry { GeometryFits self.me.geometry }
        requires who { self.me.who < self.me.geometry.clients }
        ensures { result ≡ asks.Store (control.row_address self.me (header_of header).client) (header_of header).era }
    {
        let Header { client, era, .. } = Header::unpack(header);
        Ask::Store {
            at: self.row(client),
            value: era,
        }
    }

    /// The word step that comes next.
    #[inline(always)]
    pub fn ask(self) -> Ask
        requires { StepInRange self }
        ensures { result ≡ control.step_ask self }
    {
        let Me { geometry, who } = self.me;
        match self.point {
            StepPoint::Era => Ask::Load {
                at: geometry.era(who, who),
            },
            StepPoint::More { era } => self.prepare(era),
            StepPoint::Redo { era } => self.begin(era),
            StepPoint::Load { part, .. } => Ask::Load {
                at: self.aim.block(part),
            },
            StepPoint::Row { header, .. } => Ask::Load {
                at: self.row(Header::unpack(header).client),
            },
            StepPoint::Show { header, .. } => self.show(header),
            StepPoint::Exchange { era, part, header } => Ask::Exchange {
                at: self.aim.block(part),
                from: header,
                to: self.new_header(era, part, header),
            },
            StepPoint::Slot { .. } => Ask::Store {
                at: self.slot,
                value: u64::from(self.aim.value()),
            },
            StepPoint::Close { era, .. } => Ask::Store {
                at: geometry.era(who, who),
                value: era + 1,
            },
            StepPoint::Over => Ask::Load { at: 0 },
        }
    }

    /// Where it goes by the word that it found.
    #[inline(always)]
    pub fn next(self, seen: u64) -> StepNext
        requires { StepInRange self }
        ensures { result ≡ control.step_next self seen }
    {
        match self.point {
            StepPoint::Era => self.era_next(seen),
            StepPoint::More { era } => StepNext::Point(StepPoint::Redo { era }),
            StepPoint::Redo { era } => StepNext::Point(StepPoint::Load {
                era,
                part: Half::First,
            }),
            StepPoint::Load { era, part } => self.header_next(era, part, seen),
            StepPoint::Row { era, part, header } => row_next(era, part, header, seen),
            StepPoint::Show { era, part, header } => {
                StepNext::Point(StepPoint::Exchange { era, part, header })
            }
            StepPoint::Exchange { era, part, header } => {
                if seen == header {
                    self.committed(era, part, header)
                } else {
                    self.header_next(era, part, seen)
                }
            }
            StepPoint::Slot { era, zero } => StepNext::Point(StepPoint::Close {
                era,
                part: Half::First,
                zero,
            }),
            StepPoint::Close { era, part, zero } => self.closed(era, part, zero),
            StepPoint::Over => StepNext::Point(StepPoint::Over),
        }
    }

    /// Makes the word step that comes next, and tells where it goes by the word that was found.
    #[inline(always)]
    fn make<S: Site>(self, site: &S, words: &mut S::Words) -> StepNext
        requires range { StepInRange self }
        requires may { S.may site.now words.old (control.step_ask self) }
        ensures made { S.made site.now words.old (control.step_ask self) words.new }
        ensures next { let a = control.step_ask self in result ≡ control.step_next self (S.seen site.now words.old a words.new) }
    {
        let ask = self.ask();
        let seen = site.make(words, ask);
        self.next(seen)
    }

    /// The same, with an arm for each point, so that the compiler makes a piece of code for each and asks once where it is.
    #[inline(always)]
    pub fn act<S: Site>(self, site: &S, words: &mut S::Words) -> StepNext
        requires range { StepInRange self }
        requires may { S.may site.now words.old (control.step_ask self) }
        ensures made { S.made site.now words.old (control.step_ask self) words.new }
        ensures next { let a = control.step_ask self in result ≡ control.step_next self (S.seen site.now words.old a words.new) }
    {
        match self.point {
            StepPoint::Era => self.make(site, words),
            StepPoint::More { .. } => self.make(site, words),
            StepPoint::Redo { .. } => self.make(site, words),
            StepPoint::Load { .. } => self.make(site, words),
            StepPoint::Row { .. } => self.make(site, words),
            StepPoint::Show { .. } => self.make(site, words),
            StepPoint::Exchange { .. } => self.make(site, words),
            StepPoint::Slot { .. } => self.make(site, words),
            StepPoint::Close { .. } => self.make(site, words),
            StepPoint::Over => self.make(site, words),
        }
    }

    /// Whether its exchange was made, of a change that of the first half: from then on no refusal is answered.
    #[inline(always)]
    pub fn exchanged(self) -> bool
        ensures { result ≡ exchanging.step_exchanged self }
    {
        match self.point {
            StepPoint::Era | StepPoint::More { .. } | StepPoint::Redo { .. } | StepPoint::Over =>
                false,
            StepPoint::Load { part, .. }
            | StepPoint::Row { part, .. }
            | StepPoint::Show { part, .. }
            | StepPoint::Exchange { part, .. } => self.aim.is_second(part),
            StepPoint::Slot { .. } | StepPoint::Close { .. } => true,
        }
    }

    /// Where it goes by the own era.
    #[inline(always)]
    fn era_next(self, seen: u64) -> StepNext
        ensures { result ≡ control.era_next self.me self.aim seen }
    {
        if seen > self.aim.last_era() {
            StepNext::Answer(Err(UpFault::EraSpent { era: seen }))
        } else {
            StepNext::Point(first_point(self.me, seen))
        }
    }

    /// Where it goes by the header of its block.
    #[inline(always)]
    fn header_next(self, era: u64, part: Half, header: u64) -> StepNext
        ensures { result ≡ control.header_next self.me self.aim era part header }
    {
        let Header { client, count, .. } = Header::unpack(header);
        if self.aim.raises(part) && count == 1023 {
            let block = self.aim.block(part);
            StepNext::Answer(Err(UpFault::CountFull { block, count }))
        } else if client == self.me.who {
            StepNext::Point(StepPoint::Exchange { era, part, header })
        } else {
            StepNext::Point(StepPoint::Row { era, part, header })
        }
    }

    /// Whether the count comes to 0.
    #[inline(always)]
    fn comes_to_zero(self, part: Half, header: u64) -> bool
        ensures { result ≡ control.comes_to_zero self.aim part header }
    {
        !self.aim.raises(part) && Header::unpack(header).count == 1
    }

    /// Where it goes once the header is exchanged.
    #[inline(always)]
    fn committed(self, era: u64, part: Half, header: u64) -> StepNext
        ensures { result ≡ control.committed_next self.aim era part header }
    {
        let zero = self.comes_to_zero(part, header);
        StepNext::Point(match part {
            Half::First => StepPoint::Slot { era, zero },
            Half::Second => StepPoint::Close { era, part, zero },
        })
    }

    /// Where it goes once the own era is stored.
    #[inline(always)]
    fn closed(self, era: u64, part: Half, zero: bool) -> StepNext
        requires { EraFits self.aim era part }
        ensures { result ≡ control.closed_next self.aim era part zero }
    {
        match (self.aim, part) {
            (Aim::Change { .. }, Half::First) => StepNext::Point(StepPoint::Load {
                era: era + 1,
                part: Half::Second,
            }),
            _ => StepNext::Answer(Ok(zero)),
        }
    }
}

/// The store that begins a step at an own era that leaves room for it.
#[inline(always)]
pub fn first_point(me: Me, era: u64) -> StepPoint
    ensures { result ≡ control.first_point me era }
{
    if me.geometry.is_wide() {
        StepPoint::More { era }
    } else {
        StepPoint::Redo { era }
    }
}

/// The count after a step up or down.
#[inline(always)]
fn count_after(up: bool, count: u16) -> u16
    requires small { count < 1024 }
    ensures { result ≡ control.count_after up count }
{
    if up {
        count + 1
    } else {
        count.saturating_sub(1)
    }
}

/// Where it goes by the own row's word for the header's client.
#[inline(always)]
fn row_next(era: u64, part: Half, header: u64, seen: u64) -> StepNext
    ensures { result ≡ control.row_next era part header seen }
{
    if seen < Header::unpack(header).era {
        StepNext::Point(StepPoint::Show { era, part, header })
    } else {
        StepNext::Point(StepPoint::Exchange { era, part, header })
    }
}
