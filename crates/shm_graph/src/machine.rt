//! Machines: programs that take one word step at a time.

ghost use Rattle.std.specs.Prelude.{◌≡◌, false};
ghost use Rattle.shm_graph.specs.{declared.memo.Memo.Memo as AMemo, Asks.Trail, Laws.{Control, Laws, turn_of}};
ghost use Rattle.shm_graph.specs.ManySteps.{HasRun, MayRun};

use crate::ask::{Ask, Life, Me, Turn};
use crate::site::Site;

/// A program of word steps: it asks for one word step, is told what was found, and asks for the next.
///
/// Its law says that from any state that holds and whose memo fits the machine, the step that it asks for leads to such a state, and
/// is one event of the graph of references. Whoever steps it needs nothing else.
pub trait Machine {
    type Answer;

    /// Its control, as plain data.
    ghost control: { Control Self Self.Answer };

    /// Of the machine, the memo before its first step, the memo now and what it has asked.
    ghost fits: { Self → AMemo → AMemo → Trail → Type 0 };

    /// Of the machine at any time, the memo before its first step, the memo at the end, all that it asked and its answer.
    ghost gives: { Self → AMemo → AMemo → Trail → Self.Answer → Type 0 };

    /// The identity that it works for.
    fn me(&self) -> Me
        ensures { result ≡ control.me self.now };

    /// Whether it has answered.
    fn finished(&self) -> bool
        ensures { result ≡ control.finished self.now };

    /// The word step that it asks for next.
    fn ask(&self) -> Ask
        requires { control.finished self.now ≡ false }
        ensures { result ≡ control.asks self.now };

    /// Takes the word that was found, for a store 0; it never answers `Died`.
    fn take(&mut self, seen: u64) -> Turn<Self::Answer>
        requires { control.finished self.old ≡ false }
        ensures machine { self.new ≡ control.after self.old seen }
        ensures turn { result ≡ turn_of (control.turns self.old seen) };

    /// Makes the word step that it asks for next at this site, and takes the word that was found.
    ///
    /// A machine that is made of another one hands the site on, so that a word step goes once through what it is made of, and not once to
    /// ask and once to take.
    #[inline(always)]
    fn act<S: Site>(&mut self, site: &S, words: &mut S::Words) -> Turn<Self::Answer>
        requires runs { control.finished self.old ≡ false }
        requires may { S.may site.now words.old (control.asks self.old) }
        ensures made { S.made site.now words.old (control.asks self.old) words.new }
        ensures machine { let a = control.asks self.old in self.new ≡ control.after self.old (S.seen site.now words.old a words.new) }
        ensures turn { let a = control.asks self.old in result ≡ turn_of (control.turns self.old (S.seen site.now words.old a words.new)) }
    {
        let ask = self.ask();
        let seen = site.make(words, ask);
        self.take(seen)
    }

    /// Makes the word steps that it asks for at this site, one after the other, until it has answered or no life is left: then it tells `Died`.
    ///
    /// A machine that is made of another one hands this on too, so that many word steps go once through what it is made of.
    #[inline(always)]
    fn run<S: Site>(
        &mut self,
        site: &S,
        words: &mut S::Words,
        life: &mut Life,
    ) -> Turn<Self::Answer>
        requires { MayRun control (S.may site.now) (S.made site.now) (S.seen site.now) life.old.left self.old words.old }
        ensures { HasRun control (S.made site.now) (S.seen site.now) life.old.left self.old words.old (record { left = life.new.left; machine = self.new; words = words.new; turn = result }) }
    {
        'steps: loop {
            if life.left == 0 {
                return Turn::Died;
            }
            life.left -= 1;
            match self.act(site, words) {
                Turn::More => {}
                Turn::Done(answer) => return Turn::Done(answer),
                Turn::Died => return Turn::Died,
            }
        }
    }

    ghost laws: { Laws control fits gives };
}
