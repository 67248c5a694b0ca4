//! Which turns of a run are shown.

ghost use Rattle.std.specs.Prelude.{◌≡◌};
ghost use Rattle.run_view.specs.Tables.{meets};

/// The turns from one number to another, both with it; the first turn has number 1.
#[derive(Clone, Copy, Debug, PartialEq, Eq, Drop)]
pub struct Window {
    pub from: u64,
    pub to: u64,
}

impl Window {
    /// Whether it has a turn.
    pub fn has(self, turn: u64) -> bool {
        self.from <= turn && turn <= self.to
    }

    /// Whether it has one of the turns from `first` to `last`.
    pub fn meets(self, first: u64, last: u64) -> bool
        ensures { result ≡ meets self first last }
    {
        first <= self.to && self.from <= last
    }

    /// Its first turns, so many at most.
    pub fn first(self, most: u64) -> Window {
        let last = self.from.saturating_add(most.saturating_sub(1));
        Window {
            from: self.from,
            to: self.to.min(last),
        }
    }
}
