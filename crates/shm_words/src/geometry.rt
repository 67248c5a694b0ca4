//! The sizes and the format of a pool, and the addresses of its words.

ghost use Rattle.std.specs.Prelude.{◌≡◌, ℕ, ◌<◌, ◌≤◌, IfOk, IfErr, IsOk, ◌↔◌, Some, None, true, false, if◌then◌else◌, ◌+◌};

use crate::place::Place;

mod packing;

/// The number of clients (1 to 16) and of segments of a pool, and its format.
///
/// A pool of format 1 has 1 to 256 segments and addresses below 2^20, one of format 2 has 1 to 8,000 and addresses below 2^24.
#[derive(Clone, Copy, Debug, PartialEq, Eq, Drop)]
pub struct Geometry {
    clients: u8,
    segments: u16,
    wide: bool,
}

/// The numbers that are out of range.
#[derive(Clone, Copy, Debug, PartialEq, Eq, Drop)]
pub struct BadGeometry {
    /// The number of clients that was asked for; a pool has 1 to 16.
    pub clients: u8,
    /// The number of segments that was asked for; a pool has 1 to 256, or 1 to 8,000 in format 2.
    pub segments: u16,
}

impl Geometry {
    ghost use Rattle.shm_words.specs.declared.place.Place.{Place as APlace};
    ghost use Rattle.shm_words.specs.Layout.{GeometryFits, total_of, address, more, eras, roots, queues, segments, pages, bodies, place_at, redo_place};

    /// The sizes of a pool of format 1, of 1 to 16 clients and 1 to 256 segments; other numbers are refused.
    pub fn new(clients: u8, segments: u16) -> Result<Geometry, BadGeometry>
        ensures exactly { IsOk result ↔ (1 ≤ clients) × (clients ≤ 16) × (1 ≤ segments) × (segments ≤ 256) }
        ensures fits { IfOk result (λ g. GeometryFits g) }
        ensures sizes { IfOk result (λ g. (g.clients ≡ clients) × (g.segments ≡ segments) × (g.wide ≡ false)) }
        ensures refused { IfErr result (λ e. (e.clients ≡ clients) × (e.segments ≡ segments)) }
    {
        if (1..=16).contains(&clients) && (1..=256).contains(&segments) {
            Ok(Geometry {
                clients,
                segments,
                wide: false,
            })
        } else {
            Err(BadGeometry { clients, segments })
        }
    }

    /// The sizes of a pool of format 2, of 1 to 16 clients and 1 to 8,000 segments; other numbers are refused.
    pub fn wide(clients: u8, segments: u16) -> Result<Geometry, BadGeometry>
        ensures exactly { IsOk result ↔ (1 ≤ clients) × (clients ≤ 16) × (1 ≤ segments) × (segments ≤ 8000) }
        ensures fits { IfOk result (λ g. GeometryFits g) }
        ensures sizes { IfOk result (λ g. (g.clients ≡ clients) × (g.segments ≡ segments) × (g.wide ≡ true)) }
        ensures refused { IfErr result (λ e. (e.clients ≡ clients) × (e.segments ≡ segments)) }
    {
        if (1..=16).contains(&clients) && (1..=8000).contains(&segments) {
            Ok(Geometry {
                clients,
                segments,
                wide: true,
            })
        } else {
            Err(BadGeometry { clients, segments })
        }
    }

    /// How many clients a pool has, 1 to 16.
    pub fn clients(self) -> u8
        ensures { result ≡ self.clients }
    {
        self.clients
    }

    /// How many segments a pool has, 1 to 256, or 1 to 8,000 in format 2.
    pub fn segments(self) -> u16
        ensures { result ≡ self.segments }
    {
        self.segments
    }

    /// Whether the pool is of format 2.
    pub fn is_wide(self) -> bool
        ensures { result ≡ self.wide }
    {
        self.wide
    }

    /// The format of the pool, 1 or 2.
    pub fn format(self) -> u8
        ensures { result ≡ if self.wide then 2 else 1 }
    {
        if self.wide { 2 } else { 1 }
    }

    /// How many words a pool has, at most 531,793, or 16,523,169 in format 2.
    pub fn total(self) -> u32
        requires { GeometryFits self }
        ensures { result ≡ total_of self }
    {
        self.bodies_start() + 2048 * u32::from(self.segments)
    }

    // how many second words of redo records there are, one for each client in format 2
    fn more(self) -> u32
        ensures { result ≡ more self }
    {
        if self.wide {
            u32::from(self.clients)
        } else {
            0
        }
    }

    fn eras_start(self) -> u32
        requires { GeometryFits self }
        ensures { result ≡ eras self }
    {
        1 + 5 * u32::from(self.clients) + self.more()
    }

    fn roots_start(self) -> u32
        requires { GeometryFits self }
        ensures { result ≡ roots self }
    {
        let n = u32::from(self.clients);
        1 + 5 * n + self.more() + n * n
    }

    fn queues_start(self) -> u32
        requires { GeometryFits self }
        ensures { result ≡ queues self }
    {
        let n = u32::from(self.clients);
        1 + 21 * n + self.more() + n * n
    }

    fn segments_start(self) -> u32
        requires { GeometryFits self }
        ensures { result ≡ segments self }
    {
        let n = u32::from(self.clients);
        1 + 21 * n + self.more() + 11 * (n * n)
    }

    fn pages_start(self) -> u32
        requires { GeometryFits self }
        ensures { result ≡ pages self }
    {
        self.segments_start() + u32::from(self.segments)
    }

    fn bodies_start(self) -> u32
        requires { GeometryFits self }
        ensures { result ≡ bodies self }
    {
        self.segments_start() + 17 * u32::from(self.segments)
    }

    /// The address of the status of `c`.
    #[tactic(auto, unfolding(crate::specs::Layout::address))]
    pub fn status(self, c: u8) -> u32
        requires fits { GeometryFits self }
        requires client { c < self.clients }
        ensures { result ≡ address self (APlace.Status c) }
    {
        1 + u32::from(c)
    }

    /// The address of the redo record of `c`, in format 2 of its first word.
    #[tactic(auto, unfolding(crate::specs::Layout::address))]
    pub fn redo(self, c: u8) -> u32
        requires fits { GeometryFits self }
        requires client { c < self.clients }
        ensures { result ≡ address self (APlace.Redo c) }
    {
        if self.wide {
            1 + u32::from(self.clients) + 2 * u32::from(c)
        } else {
            1 + u32::from(self.clients) + u32::from(c)
        }
    }

    /// The address of the second word of the redo record of `c`, in format 2.
    #[tactic(auto, unfolding(crate::specs::Layout::address))]
    pub fn redo_more(self, c: u8) -> u32
        requires fits { GeometryFits self }
        requires wide { self.wide ≡ true }
        requires client { c < self.clients }
        ensures { result ≡ address self (APlace.RedoMore c) }
    {
        2 + u32::from(self.clients) + 2 * u32::from(c)
    }

    /// The address of the word that says which latch `c` wants or holds.
    #[tactic(auto, unfolding(crate::specs::Layout::address))]
    pub fn hold(self, c: u8) -> u32
        requires fits { GeometryFits self }
        requires client { c < self.clients }
        ensures { result ≡ address self (APlace.Hold c) }
    {
        1 + 2 * u32::from(self.clients) + self.more() + u32::from(c)
    }

    /// The address of the latch of `c`.
    #[tactic(auto, unfolding(crate::specs::Layout::address))]
    pub fn latch(self, c: u8) -> u32
        requires fits { GeometryFits self }
        requires client { c < self.clients }
        ensures { result ≡ address self (APlace.Latch c) }
    {
        1 + 3 * u32::from(self.clients) + self.more() + u32::from(c)
    }

    /// The address of the home word of `c`.
    #[tactic(auto, unfolding(crate::specs::Layout::address))]
    pub fn home(self, c: u8) -> u32
        requires fits { GeometryFits self }
        requires client { c < self.clients }
        ensures { result ≡ address self (APlace.Home c) }
    {
        1 + 4 * u32::from(self.clients) + self.more() + u32::from(c)
    }

    /// The address of the greatest era of `j` that `i` has seen; for `i` equal to `j`, of the era of `i`.
    #[tactic(auto, unfolding(crate::specs::Layout::address))]
    pub fn era(self, i: u8, j: u8) -> u32
        requires fits { GeometryFits self }
        requires row { i < self.clients }
        requires column { j < self.clients }
        ensures { result ≡ address self (APlace.Era i j) }
    {
        self.eras_start() + u32::from(i) * u32::from(self.clients) + u32::from(j)
    }

    /// The address of root `k` of `c`; an identity has 16.
    #[tactic(auto, unfolding(crate::specs::Layout::address))]
    pub fn root(self, c: u8, k: u8) -> u32
        requires fits { GeometryFits self }
        requires client { c < self.clients }
        requires number { k < 16 }
        ensures { result ≡ address self (APlace.Root c k) }
    {
        self.roots_start() + 16 * u32::from(c) + u32::from(k)
    }

    /// The address of the tail of the queue from `s` to `r`.
    #[tactic(auto, unfolding(crate::specs::Layout::address))]
    pub fn tail(self, s: u8, r: u8) -> u32
        requires fits { GeometryFits self }
        requires sender { s < self.clients }
        requires receiver { r < self.clients }
        ensures { result ≡ address self (APlace.Tail s r) }
    {
        self.queues_start() + 10 * (u32::from(s) * u32::from(self.clients) + u32::from(r))
    }

    /// The address of the head of the queue from `s` to `r`.
    #[tactic(auto, unfolding(crate::specs::Layout::address))]
    pub fn head(self, s: u8, r: u8) -> u32
        requires fits { GeometryFits self }
        requires sender { s < self.clients }
        requires receiver { r < self.clients }
        ensures { result ≡ address self (APlace.Head s r) }
    {
        self.tail(s, r) + 1
    }

    /// The address of slot `k` of the queue from `s` to `r`; a queue has 8.
    #[tactic(auto, unfolding(crate::specs::Layout::address))]
    pub fn slot(self, s: u8, r: u8, k: u8) -> u32
        requires fits { GeometryFits self }
        requires sender { s < self.clients }
        requires receiver { r < self.clients }
        requires number { k < 8 }
        ensures { result ≡ address self (APlace.Slot s r k) }
    {
        self.tail(s, r) + 2 + u32::from(k)
    }

    /// The address of the owner of segment `g`.
    #[tactic(auto, unfolding(crate::specs::Layout::address))]
    pub fn segment(self, g: u16) -> u32
        requires fits { GeometryFits self }
        requires segment { g < self.segments }
        ensures { result ≡ address self (APlace.Segment g) }
    {
        self.segments_start() + u32::from(g)
    }

    /// The address of the class of page `p` of segment `g`; a segment has 16.
    #[tactic(auto, unfolding(crate::specs::Layout::address))]
    pub fn page(self, g: u16, p: u8) -> u32
        requires fits { GeometryFits self }
        requires segment { g < self.segments }
        requires page { p < 16 }
        ensures { result ≡ address self (APlace.Page g p) }
    {
        self.pages_start() + 16 * u32::from(g) + u32::from(p)
    }

    /// The address of the first of the 128 words of the body of page `p` of segment `g`.
    #[tactic(auto, unfolding(crate::specs::Layout::address))]
    pub fn body(self, g: u16, p: u8) -> u32
        requires fits { GeometryFits self }
        requires segment { g < self.segments }
        requires page { p < 16 }
        ensures { result ≡ address self (APlace.Body g p 0) }
    {
        self.bodies_start() + 2048 * u32::from(g) + 128 * u32::from(p)
    }

    /// What the word at an address is for; `None` exactly where the address is not below `total`.
    pub fn place(self, at: u32) -> Option<Place>
        requires { GeometryFits self }
        ensures inside { at < total_of self → result ≡ Some (place_at self at) }
        ensures outside { total_of self ≤ at → result ≡ None }
    {
        if at < self.roots_start() {
            Some(self.client_place(at))
        } else if at < self.segments_start() {
            Some(self.shared_place(at))
        } else if at < self.total() {
            Some(self.segment_place(at))
        } else {
            None
        }
    }

    // the words with one or two clients and no further number
    #[tactic(auto, unfolding(crate::specs::Layout::place_at))]
    fn client_place(self, at: u32) -> Place
        requires fits { GeometryFits self }
        requires range { at < roots self }
        ensures { result ≡ place_at self at }
    {
        let n = u32::from(self.clients);
        let more = self.more();
        if at == 0 {
            Place::Spare
        } else if at < 1 + n {
            Place::Status { c: (at - 1) as u8 }
        } else if at < 1 + 2 * n + more {
            self.redo_place(at - (1 + n))
        } else if at < 1 + 3 * n + more {
            Place::Hold {
                c: (at - (1 + 2 * n + more)) as u8,
            }
        } else if at < 1 + 4 * n + more {
            Place::Latch {
                c: (at - (1 + 3 * n + more)) as u8,
            }
        } else if at < 1 + 5 * n + more {
            Place::Home {
                c: (at - (1 + 4 * n + more)) as u8,
            }
        } else {
            let cell = at - (1 + 5 * n + more);
            Place::Era {
                i: (cell / n) as u8,
                j: (cell % n) as u8,
            }
        }
    }

    // the words of redo records, from the first one
    fn redo_place(self, word: u32) -> Place
        requires fits { GeometryFits self }
        requires range { word < self.clients + more self }
        ensures { result ≡ redo_place self.wide word }
    {
        if !self.wide {
            Place::Redo { c: word as u8 }
        } else if word % 2 == 0 {
            Place::Redo {
                c: (word / 2) as u8,
            }
        } else {
            Place::RedoMore {
                c: (word / 2) as u8,
            }
        }
    }

    // roots and queues
    #[tactic(auto, unfolding(crate::specs::Layout::place_at))]
    fn shared_place(self, at: u32) -> Place
        requires fits { GeometryFits self }
        requires start { roots self ≤ at }
        requires end { at < segments self }
        ensures { result ≡ place_at self at }
    {
        if at < self.queues_start() {
            let root = at - self.roots_start();
            return Place::Root {
                c: (root / 16) as u8,
                k: (root % 16) as u8,
            };
        }
        let n = u32::from(self.clients);
        let word = at - self.queues_start();
        let s = (word / 10 / n) as u8;
        let r = (word / 10 % n) as u8;
        match (word % 10) as u8 {
            0 => Place::Tail { s, r },
            1 => Place::Head { s, r },
            k => Place::Slot { s, r, k: k - 2 },
        }
    }

    // segments, pages and their bodies
    #[tactic(auto, unfolding(crate::specs::Layout::place_at))]
    fn segment_place(self, at: u32) -> Place
        requires fits { GeometryFits self }
        requires start { segments self ≤ at }
        requires end { at < total_of self }
        ensures { result ≡ place_at self at }
    {
        if at < self.pages_start() {
            Place::Segment {
                g: (at - self.segments_start()) as u16,
            }
        } else if at < self.bodies_start() {
            let page = at - self.pages_start();
            Place::Page {
                g: (page / 16) as u16,
                p: (page % 16) as u8,
            }
        } else {
            let word = at - self.bodies_start();
            Place::Body {
                g: (word / 2048) as u16,
                p: (word / 128 % 16) as u8,
                k: (word % 128) as u8,
            }
        }
    }
}
