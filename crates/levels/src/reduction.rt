ghost use Rattle.std.specs.Prelude.{◌≡◌, ℕ, Ok, Result, MatchResult};
ghost use Rattle.sheets.specs.Sheets.{SheetModel, Formed};
ghost use Rattle.sheets.specs.Changes.{Goes};
ghost use Rattle.levels.specs.Piles.{Own, Rules, raised, top, own};
ghost use Rattle.levels.specs.Laws.{Law};

use crate::level::Level;
use refusals::Refusal;
use std::alloc::{AllocFailed, Global};

/// A level made from the one below it, which it takes in and lends only for reading, and altered by steps and a sweep.
///
/// An implementation gives its definitions (`rules`) and an invariant of its own (`keeps`), proves by the laws that the
/// invariant holds from the start, is kept by every step and sweep and gives the law of a reduction, and proves that its code does what its definitions say.
pub trait Reduction: Level + Sized {
    type Below: Level;

    /// The level that it took in.
    ghost under: { Self → Self.Below };

    /// How it starts, what a step makes of it, and what its sweep does.
    ghost rules: { Rules };

    /// What holds between the sheet below and what it adds, from the start and after every step and sweep.
    ghost keeps: { SheetModel → Own → Type 0 };

    /// The reduction over a level; where memory runs out, the level is given back.
    fn over(below: Self::Below, heap: Global) -> Result<Self, AllocFailed<Self::Below>>
        ensures { MatchResult result (λ x. (under x ≡ below) × (own (Self.pile x) ≡ rules.start (top (Self.Below.pile below)))) (λ e. e.value ≡ below) };

    /// The level below, for reading.
    fn below(&self) -> &Self::Below
        ensures { result.now ≡ under self.now };

    /// The level below, once the reduction is given up.
    fn into_below(self) -> Self::Below
        ensures { result ≡ under self };

    /// Takes the step (u, v), or declines it and alters nothing. Two numbers and no struct of them: what each is, and
    /// whether the second counts, is for each reduction to say.
    fn step(&mut self, u: usize, v: usize) -> Result<(), Refusal>
        ensures moves { Goes (rules.moved (top (Self.Below.pile (under self.old))) (own (Self.pile self.old)) u v) tt result (own (Self.pile self.old)) (own (Self.pile self.new)) }
        ensures below { under self.new ≡ under self.old };

    /// Takes all the steps of its sweep.
    fn sweep(&mut self) -> Result<(), Refusal>
        ensures answer { result ≡ (rules.swept (top (Self.Below.pile (under self.old))) (own (Self.pile self.old))).answer }
        ensures left { own (Self.pile self.new) ≡ (rules.swept (top (Self.Below.pile (under self.old))) (own (Self.pile self.old))).left }
        ensures below { under self.new ≡ under self.old };

    /// It stands on the level that it took in.
    ghost raises: { (x : Self) → Self.pile x ≡ raised (Self.Below.pile (under x)) rules (own (Self.pile x)) };

    /// When made it has the sheet of the level below.
    ghost begins: { (b : SheetModel) → Formed b → (rules.start b).sheet ≡ b };

    ghost starts: { (b : SheetModel) → Formed b → keeps b (rules.start b) };

    ghost steps: { (b : SheetModel) (o n : Own) (u v : ℕ) → Formed b → keeps b o → rules.moved b o u v ≡ Ok n → keeps b n };

    ghost sweeps: { (b : SheetModel) (o : Own) → Formed b → keeps b o → keeps b (rules.swept b o).left };

    ghost gives: { (b : SheetModel) (o : Own) → Formed b → keeps b o → Law b o };
}
