//! What threads of a machine in pieces do in their place: their local steps, and accesses to words.
ghost use Rattle.std.specs.Prelude.{◌≡◌, ◌-◌, true, false, Ok, Some, None, IfSome, MatchOption, slice_set};
ghost use Rattle.locals.specs.Accesses.{accessing};
ghost use Rattle.locals.specs.Looks.{look};
ghost use Rattle.locals.specs.Threads.{Thread};
ghost use Rattle.machine.specs.Accessing.{HasNoAccess, told_access};
ghost use Rattle.machine.specs.ConcreteSteps.{can_move};
ghost use Rattle.machine.specs.LocalRuns.{RunsOn};
ghost use Rattle.machine.specs.Speculation.{FindsAll, SpeculatesAll};
ghost use Rattle.machine.specs.States.{thread_of};
ghost use Rattle.machine.specs.Views.{concrete};
ghost use Rattle.piece_machine.specs.PieceConcrete.{piece_of};
ghost use Rattle.piece_machine.specs.PieceViews.{DoneFrom, GoesTo, HasNoLocal, WalksFrom, parts};
ghost use Rattle.piece_machine.specs.Speculated.{CommittedFrom};

use crate::piece_machine::PieceMachine;
use locals::{Access, Local};
use machine::SpeculativeAccess;

impl PieceMachine {
    /// Puts thread `t`, which can move, where its local steps led, by a copy in its place. A thread within a call takes
    /// none.
    pub fn copy_local(&mut self, t: u32, local: &Local)
        requires can_move { can_move (concrete self.old.view) t ≡ true }
        requires goes { GoesTo self.old.view t local.now }
        ensures { self.new ≡ record self.old {
          view = record self.old.view {
            threads = slice_set self.old.view.threads (t - 1) local.now;
          };
        } }
    {
        self.machine.copy_local(t, local);
    }

    /// Takes local steps of thread `t`, which can move, in its place, until another step comes or the budget is used.
    /// Answers how many.
    #[inline(always)]
    pub fn run_local(&mut self, t: u32, budget: u32) -> u32
        requires { can_move (concrete self.old.view) t ≡ true }
        ensures runs { RunsOn self.old.view t budget result self.new.view }
        ensures moves { can_move (concrete self.new.view) t ≡ true }
        ensures phases { self.new.phases ≡ self.old.phases }
    {
        self.machine.run_local(t, budget)
    }

    /// Makes the access to a word that is the next step of thread `t`, which can move, where one is and the word lies in
    /// the memory, and answers it. Else nothing has changed. No held bucket is in the way of an access. Its event is that of
    /// `machine::access_name`, and wakes and moves nobody.
    #[inline(always)]
    pub fn access(&mut self, t: u32) -> Option<Access>
        requires { can_move (concrete self.old.view) t ≡ true }
        ensures made { MatchOption result ((self.new ≡ self.old) × HasNoAccess self.old.view t)
            (λ told. (piece_of self.old.view.program (parts self.old) t ≡ Ok (parts self.new, told_access told))
            × HasNoLocal self.old.view t) }
        ensures moves { IfSome result (λ told. can_move (concrete self.new.view) t ≡ true) }
        ensures program { self.new.view.program ≡ self.old.view.program }
    {
        self.machine.access(t)
    }

    /// Both in one go: local steps of thread `t`, which can move, in its place, until another step comes or the budget is
    /// used, and the access to a word behind them, if that is its next step then and the word lies in the memory. Answers how
    /// many local steps they were, and the access.
    #[inline(always)]
    pub fn walk(&mut self, t: u32, budget: u32) -> (u32, Option<Access>)
        requires { can_move (concrete self.old.view) t ≡ true }
        ensures walks { WalksFrom self.old t budget result.0 result.1 self.new }
        ensures moves { can_move (concrete self.new.view) t ≡ true }
        ensures program { self.new.view.program ≡ self.old.view.program }
    {
        self.machine.walk(t, budget)
    }

    /// The same of thread `t` as if its local steps had led it to this state: the access is made in this state, of which
    /// the thread becomes a copy. Where its next step there is none nothing has changed, this state neither.
    pub fn access_from(&mut self, t: u32, local: &mut Local) -> Option<Access>
        requires can_move { can_move (concrete self.old.view) t ≡ true }
        requires goes { GoesTo self.old.view t local.old }
        ensures made { MatchOption result ((self.new ≡ self.old) × (local.new ≡ local.old)
            × (accessing (look self.old.view.program t local.old) self.old.view.words ≡ None))
            (λ told. DoneFrom told self.old t local.old self.new local.new) }
        ensures program { self.new.view.program ≡ self.old.view.program }
    {
        self.machine.access_from(t, local)
    }

    /// Takes in accesses that thread `t`, which can move, made ahead of the machine, from where it stands up to this state:
    /// each is made behind its local steps, and the thread stands there. It does where each finds the word that it found.
    /// Else nothing has changed.
    pub fn commit(&mut self, t: u32, accesses: &[SpeculativeAccess], there: &Local) -> bool
        requires moves { can_move (concrete self.old.view) t ≡ true }
        requires speculates { (x : Thread) → thread_of (concrete self.old.view) t ≡ Some x
            → SpeculatesAll self.old.view.program t x accesses.now there.now }
        ensures made { result ≡ true → CommittedFrom self.old t accesses.now self.new there.now }
        ensures none { result ≡ false → (self.new ≡ self.old) × (FindsAll accesses.now self.old.view.words → ⊥) }
        ensures program { self.new.view.program ≡ self.old.view.program }
    {
        self.machine.commit(t, accesses, there)
    }
}
