//! The control of an allocation: which word it asks for, and where it goes by the word found.

ghost use Rattle.std.specs.Prelude.{◌≡◌, ℕ, ◌+◌, ◌*◌, ◌^◌, ◌<◌, ◌≤◌, ◌/◌, false};
ghost use Rattle.shm_words.specs.{Layout.GeometryFits, Redos.{first_word, second_word}};
ghost use Rattle.shm_alloc.specs.Alloc.Control.{class_asked, header_made, block_of, is_search, RequestFits, SearchFits, PointFits, AllocInRange};
ghost use Rattle.shm_alloc.specs.Alloc.Control as control;

use crate::alloc::AllocFault;
use crate::request::{Request, turned};
use crate::starts::{era_next, first_header, first_page, root_next};
use shm_count::Made;
use shm_graph::{Ask, Me, Site};
use shm_words::{Header, Pair2, Redo};

/// The own era that was read, and the root that is to name the block.
#[derive(Clone, Copy, Drop)]
pub struct Goal {
    pub era: u64,
    pub root: u8,
}

/// How far the search for a free block has come.
#[derive(Clone, Copy, Drop)]
pub struct Search {
    /// The segment that is looked at.
    pub segment: u16,
    /// How many segments before it were another's.
    pub taken: u16,
    /// How many headers were read that aren't free.
    pub used: u32,
}

/// The step that comes next.
#[derive(Clone, Copy, Drop)]
pub enum AllocPoint {
    /// Load the own era.
    Era,
    /// Load a root.
    Root {
        era: u64,
        root: u8,
    },
    /// Load the owner of a segment.
    Segment {
        goal: Goal,
        search: Search,
    },
    /// Claim a segment that is nobody's.
    Claim {
        goal: Goal,
        search: Search,
    },
    /// Load the class of a page.
    Page {
        goal: Goal,
        search: Search,
        page: u8,
    },
    /// Give a page its class.
    Class {
        goal: Goal,
        search: Search,
        page: u8,
    },
    /// Load the header of a block.
    Header {
        goal: Goal,
        search: Search,
        page: u8,
        index: u8,
    },
    /// Store the tag.
    Tag {
        goal: Goal,
        block: u32,
    },
    /// Store 0 into a reference word.
    Reference {
        goal: Goal,
        block: u32,
        index: u8,
    },
    /// Store a plain word.
    Plain {
        goal: Goal,
        block: u32,
        index: u8,
    },
    /// Store the second word of the redo record, in format 2.
    More {
        goal: Goal,
        block: u32,
    },
    /// Store the redo record, in format 2 its first word.
    Redo {
        goal: Goal,
        block: u32,
    },
    /// Make the block live.
    Commit {
        goal: Goal,
        block: u32,
    },
    /// Store the root.
    Slot {
        goal: Goal,
        block: u32,
    },
    /// Store the next own era.
    Close {
        goal: Goal,
        block: u32,
    },
    /// It has answered.
    Over,
}

/// The control of an allocation.
#[derive(Clone, Copy, Drop)]
pub struct AllocState {
    pub me: Me,
    pub request: Request,
    pub point: AllocPoint,
}

/// Where an allocation goes by the word that it found.
#[derive(Clone, Copy, Drop)]
pub enum AllocNext {
    Point(AllocPoint),
    Answer(Result<Made, AllocFault>),
}

impl AllocState {
    /// Which segment of the pool is the one that the search has come to.
    #[inline(always)]
    fn segment_at(self, segment: u16) -> u16
        requires { segment < self.me.geometry.segments }
        ensures is { result ≡ control.segment_at self.me self.request segment }
        ensures below { result < self.me.geometry.segments }
    {
        turned(
            self.me.geometry.segments(),
            self.request.near.segment,
            segment,
        )
    }

    /// Which page of a segment is the one that the search has come to.
    #[inline(always)]
    fn page_at(self, page: u8) -> u8
        requires { page < 16 }
        ensures is { result ≡ control.page_at self.request page }
        ensures below { result < 16 }
    {
        turned(16, u16::from(self.request.near.page), u16::from(page)) as u8
    }

    /// Which block of a page is the one that the search has come to.
    #[inline(always)]
    pub fn index_at(self, index: u8) -> u8
        requires request { RequestFits self.request }
        requires index { index < 128 / class_asked self.request }
        ensures is { result ≡ control.index_at self.request index }
        ensures below { result < 128 / class_asked self.request }
    {
        let blocks = 128 / u16::from(self.request.class());
        turned(blocks, u16::from(self.request.near.index), u16::from(index)) as u8
    }

    /// The address of a block: its page's place and its place in the page.
    #[inline(always)]
    pub fn block(self, search: Search, page: u8, index: u8) -> u32
        requires geometry { GeometryFits self.me.geometry }
        requires request { RequestFits self.request }
        requires segment { search.segment < self.me.geometry.segments }
        requires page { page < 16 }
        requires index { index < 128 / class_asked self.request }
        ensures { result ≡ block_of self.me self.request search page index }
    {
        let segment = self.segment_at(search.segment);
        self.me.geometry.body(segment, self.page_at(page))
            + u32::from(self.request.class()) * u32::from(self.index_at(index))
    }

    /// The word step that comes next.
    #[inline(always)]
    pub fn ask(self) -> Ask
        requires { AllocInRange self }
        ensures { result ≡ control.alloc_ask self }
    {
        let Me { geometry, who } = self.me;
        match self.point {
            AllocPoint::Era => Ask::Load {
                at: geometry.era(who, who),
            },
            AllocPoint::Root { root, .. } => Ask::Load {
                at: geometry.root(who, root),
            },
            AllocPoint::Segment { search, .. } => Ask::Load {
                at: geometry.segment(self.segment_at(search.segment)),
            },
            AllocPoint::Claim { search, .. } => Ask::Exchange {
                at: geometry.segment(self.segment_at(search.segment)),
                from: 0,
                to: u64::from(who) + 1,
            },
            AllocPoint::Page { search, page, .. } => Ask::Load {
                at: geometry.page(self.segment_at(search.segment), self.page_at(page)),
            },
            AllocPoint::Class { search, page, .. } => Ask::Store {
                at: geometry.page(self.segment_at(search.segment), self.page_at(page)),
                value: u64::from(self.request.class()),
            },
            AllocPoint::Header {
                search,
                page,
                index,
                ..
            } => Ask::Load {
                at: self.block(search, page, index),
            },
            _ => self.ask_for_block(),
        }
    }

    /// The word step that comes next once a free block is found.
    #[inline(always)]
    fn ask_for_block(self) -> Ask
        requires knows { AllocInRange self }
        requires found { is_search self.point ≡ false }
        ensures { result ≡ control.alloc_ask self }
    {
        let Me { geometry, who } = self.me;
        match self.point {
            AllocPoint::Tag { block, .. } => Ask::Store {
                at: block + 1,
                value: geometry.write_tag(self.request.tag(who)),
            },
            AllocPoint::Reference { block, index, .. } => Ask::Store {
                at: block + 2 + u32::from(index),
                value: 0,
            },
            AllocPoint::Plain { block, index, .. } => Ask::Store {
                at: block + 2 + u32::from(self.request.refs) + u32::from(index),
                value: self.request.plain[index as usize],
            },
            AllocPoint::More { goal, block } => Ask::Store {
                at: geometry.redo_more(who),
                value: self.record(goal, block).second,
            },
            AllocPoint::Redo { goal, block } => Ask::Store {
                at: geometry.redo(who),
                value: self.record(goal, block).first,
            },
            AllocPoint::Commit { goal, block } => Ask::Exchange {
                at: block,
                from: 0,
                to: self.header(goal),
            },
            AllocPoint::Slot { goal, block } => Ask::Store {
                at: geometry.root(who, goal.root),
                value: u64::from(block),
            },
            AllocPoint::Close { goal, .. } => Ask::Store {
                at: geometry.era(who, who),
                value: goal.era + 1,
            },
            _ => Ask::Load { at: 0 }, // it has answered
        }
    }

    /// The words of the redo record of the new block, which the root is to name.
    #[inline(always)]
    fn record(self, goal: Goal, block: u32) -> Pair2
        requires geometry { GeometryFits self.me.geometry }
        requires who { self.me.who < self.me.geometry.clients }
        requires root { goal.root < 16 }
        ensures first { result.first ≡ first_word self.me.geometry.wide (control.redo_asked self.me goal.root block) }
        ensures second { result.second ≡ second_word self.me.geometry.wide (control.redo_asked self.me goal.root block) }
    {
        let Me { geometry, who } = self.me;
        let slot = geometry.root(who, goal.root);
        geometry.write_redo(Redo::Up { slot, block })
    }

    /// The header of the new block once it is live.
    #[inline(always)]
    fn header(self, goal: Goal) -> u64
        requires who { self.me.who < 16 }
        requires era { goal.era < 2 ^ 47 }
        ensures { result ≡ header_made self.me.who goal.era }
    {
        Header {
            live: true,
            client: self.me.who,
            count: 1,
            era: goal.era,
        }
        .pack()
    }

    /// Where it goes by the word that it found.
    #[inline(always)]
    pub fn next(self, seen: u64) -> AllocNext
        requires { AllocInRange self }
        ensures { result ≡ control.alloc_next self seen }
    {
        match self.point {
            AllocPoint::Era => era_next(seen),
            AllocPoint::Root { era, root } => root_next(era, root, seen),
            AllocPoint::Segment { goal, search } => self.segment_next(goal, search, seen),
            AllocPoint::Claim { goal, search } => {
                if seen == 0 {
                    first_page(goal, search)
                } else {
                    self.taken(goal, search)
                }
            }
            AllocPoint::Page { goal, search, page } => self.page_next(goal, search, page, seen),
            AllocPoint::Class { goal, search, page } => first_header(goal, search, page),
            AllocPoint::Header {
                goal,
                search,
                page,
                index,
            } => self.header_next(goal, search, page, index, seen),
            _ => self.next_of_block(),
        }
    }

    /// Where it goes once a free block is found.
    #[inline(always)]
    fn next_of_block(self) -> AllocNext
        requires knows { AllocInRange self }
        requires found { is_search self.point ≡ false }
        ensures { (n : ℕ) → result ≡ control.alloc_next self n }
    {
        let request = self.request;
        let wide = self.me.geometry.is_wide();
        match self.point {
            AllocPoint::Tag { goal, block } => {
                AllocNext::Point(request.references_from(wide, goal, block, 0))
            }
            AllocPoint::Reference { goal, block, index } => {
                AllocNext::Point(request.references_from(wide, goal, block, index + 1))
            }
            AllocPoint::Plain { goal, block, index } => {
                AllocNext::Point(request.plain_from(wide, goal, block, index + 1))
            }
            AllocPoint::More { goal, block } => AllocNext::Point(AllocPoint::Redo { goal, block }),
            AllocPoint::Redo { goal, block } => AllocNext::Point(AllocPoint::Commit {
                goal,
                block,
            }),
            AllocPoint::Commit { goal, block } => AllocNext::Point(AllocPoint::Slot {
                goal,
                block,
            }),
            AllocPoint::Slot { goal, block } => AllocNext::Point(AllocPoint::Close { goal, block }),
            AllocPoint::Close { goal, block } => AllocNext::Answer(Ok(Made {
                root: goal.root,
                block,
            })),
            point => AllocNext::Point(point), // it has answered
        }
    }

    /// Makes the word step that comes next, and tells where it goes by the word that was found.
    #[inline(always)]
    pub fn make<S: Site>(self, site: &S, words: &mut S::Words) -> AllocNext
        requires range { AllocInRange self }
        requires may { S.may site.now words.old (control.alloc_ask self) }
        ensures made { S.made site.now words.old (control.alloc_ask self) words.new }
        ensures next { let a = control.alloc_ask self in result ≡ control.alloc_next self (S.seen site.now words.old a words.new) }
    {
        let ask = self.ask();
        let seen = site.make(words, ask);
        self.next(seen)
    }

    /// Where it goes by the owner of a segment.
    #[inline(always)]
    fn segment_next(self, goal: Goal, search: Search, seen: u64) -> AllocNext
        requires geometry { GeometryFits self.me.geometry }
        requires search { SearchFits self.me search 0 }
        ensures { result ≡ control.segment_next self.me goal search seen }
    {
        if seen == 0 {
            AllocNext::Point(AllocPoint::Claim { goal, search })
        } else if seen == u64::from(self.me.who) + 1 {
            first_page(goal, search)
        } else {
            self.taken(goal, search)
        }
    }

    /// Where it goes by the class of a page.
    #[inline(always)]
    fn page_next(self, goal: Goal, search: Search, page: u8, seen: u64) -> AllocNext
        requires geometry { GeometryFits self.me.geometry }
        requires request { RequestFits self.request }
        requires segment { search.segment < self.me.geometry.segments }
        ensures { result ≡ control.page_next self.me self.request goal search page seen }
    {
        if seen == 0 {
            AllocNext::Point(AllocPoint::Class { goal, search, page })
        } else if seen == u64::from(self.request.class()) {
            first_header(goal, search, page)
        } else {
            self.page_over(goal, search, page)
        }
    }

    /// Where it goes by the header of a block.
    #[inline(always)]
    fn header_next(self, goal: Goal, search: Search, page: u8, index: u8, seen: u64) -> AllocNext
        requires geometry { GeometryFits self.me.geometry }
        requires request { RequestFits self.request }
        requires search { SearchFits self.me search (32 * page + index) }
        requires page { page < 16 }
        requires index { index < 128 / class_asked self.request }
        ensures { result ≡ control.header_next self.me self.request goal search page index seen }
    {
        if seen == 0 {
            let block = self.block(search, page, index);
            return AllocNext::Point(AllocPoint::Tag { goal, block });
        }
        let search = Search {
            used: search.used + 1,
            ..search
        };
        if index + 1 < 128 / self.request.class() {
            AllocNext::Point(AllocPoint::Header {
                goal,
                search,
                page,
                index: index + 1,
            })
        } else {
            self.page_over(goal, search, page)
        }
    }

    /// The page has no free block of the class.
    #[inline(always)]
    fn page_over(self, goal: Goal, search: Search, page: u8) -> AllocNext
        requires geometry { GeometryFits self.me.geometry }
        requires segment { search.segment < self.me.geometry.segments }
        ensures { result ≡ control.page_over self.me goal search page }
    {
        if page < 15 {
            let page = page + 1;
            AllocNext::Point(AllocPoint::Page { goal, search, page })
        } else {
            self.segment_over(goal, search)
        }
    }

    /// The segment is another's.
    #[inline(always)]
    fn taken(self, goal: Goal, search: Search) -> AllocNext
        requires geometry { GeometryFits self.me.geometry }
        requires segment { search.segment < self.me.geometry.segments }
        requires taken { search.taken ≤ search.segment }
        ensures { result ≡ control.segment_taken self.me goal search }
    {
        let taken = search.taken + 1;
        self.segment_over(goal, Search { taken, ..search })
    }

    /// The segment has no free block of the class.
    #[inline(always)]
    fn segment_over(self, goal: Goal, search: Search) -> AllocNext
        requires geometry { GeometryFits self.me.geometry }
        requires segment { search.segment < self.me.geometry.segments }
        ensures { result ≡ control.segment_over self.me goal search }
    {
        let segment = search.segment + 1;
        if segment < self.me.geometry.segments() {
            let search = Search { segment, ..search };
            AllocNext::Point(AllocPoint::Segment { goal, search })
        } else {
            AllocNext::Answer(Err(AllocFault::Full {
                segments: search.taken,
                blocks: search.used,
            }))
        }
    }
}
