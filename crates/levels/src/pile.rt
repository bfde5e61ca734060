ghost use Rattle.std.specs.Prelude.{◌≡◌, IfOk, MatchResult};
ghost use Rattle.sheets.specs.Changes.{Goes};
ghost use Rattle.levels.specs.Piles.{ground, raised, top, base, own, size_of};
ghost use Rattle.levels.specs.Laws.{Sound};
ghost use Rattle.levels.specs.Runs.{MainLaw, Made, Faithful, Throughout, after_step, after_sweep};

use crate::level::{Ground, Level};
use crate::reduction::Reduction;
use refusals::Refusal;
use std::alloc::{AllocFailed, Global};
use std::fmt;
use std::marker::Model;

/// A ground with reductions piled on it, of which only the top one takes steps.
///
/// A contract sees it as its top level. Each is one that a run of raisings, steps and sweeps made from a ground.
#[derive(Drop)]
pub struct Pile<L: Level> {
    top: L,
}

impl<L: Level> Model for Pile<L> {
    ghost Value = { L };

    ghost view = { λ p. p.top };

    ghost invariant = { λ p. Made (L.pile p.top) };
}

impl<G: Ground> Pile<G> {
    /// The pile of a ground alone. What holds of every pile that is made from one is the main law.
    #[tactic(auto, using(crate::proofs::Keeping::main_law))]
    pub fn on(ground: G) -> Pile<G>
        ensures top { result ≡ ground }
        ensures made { Made (G.pile result) }
        ensures law { MainLaw }
    {
        Pile { top: ground }
    }
}

impl<L: Level> Pile<L> {
    /// The top level, for reading.
    pub fn top(&self) -> &L
        ensures top { result.now ≡ self.now }
        ensures made { Made (L.pile self.now) }
    {
        &self.top
    }

    /// The size of the ground, and how many components and clauses are left at the top.
    #[tactic(auto, using(crate::proofs::Keeping::made_keeps))]
    pub fn kernel_size(&self) -> KernelSize
        ensures size { result ≡ size_of (L.pile self.now) }
        ensures faithful { Throughout (Faithful (base (L.pile self.now))) (L.pile self.now) }
    {
        KernelSize {
            ground: self.top.ground().size(),
            components: self.top.present().len(),
            clauses: self.top.clause_count(),
        }
    }
}

/// What a pile comes to.
#[derive(Clone, Copy, PartialEq, Eq, Hash, Debug, Default)]
pub struct KernelSize {
    pub ground: usize,
    pub components: usize,
    pub clauses: usize,
}

/// The line `(kernel G C N)`. By hand: a derived `Display` states no output.
impl fmt::Display for KernelSize {
    ghost use Rattle.std.specs.Prelude.{Some};
    ghost use Rattle.levels.specs.Kernels.{kernel_line};

    ghost output = { λ k. Some (kernel_line k) };

    fn fmt<W: fmt::Write>(&self, f: &mut fmt::Formatter<W>) -> fmt::Result {
        let Self {
            ground,
            components,
            clauses,
        } = self;
        write!(f, "(kernel {ground} {components} {clauses})")
    }
}

impl<R: Reduction> Pile<R> {
    /// The pile with one reduction more on top; where memory runs out, the pile is given back.
    pub fn raise(
        below: Pile<R::Below>,
        heap: Global,
    ) -> Result<Pile<R>, AllocFailed<Pile<R::Below>>>
        ensures raises { MatchResult result
            (λ x. R.pile x ≡ raised (R.Below.pile below) R.rules (R.rules.start (top (R.Below.pile below))))
            (λ e. e.value ≡ below) }
        ensures kept { IfOk result (λ x. Made (R.pile x)) }
        ensures sound { Sound R.rules }
    {
        let Pile { top } = below;
        // A match and no `map` and `map_err`: what makes a pile proves that a run made it, and closures would each owe that.
        match R::over(top, heap) {
            Ok(top) => Ok(Pile { top }),
            Err(AllocFailed { value: top }) => Err(AllocFailed {
                value: Pile { top },
            }),
        }
    }

    /// The top reduction takes the step (u, v), or declines it and nothing is altered.
    pub fn step(&mut self, u: usize, v: usize) -> Result<(), Refusal>
        ensures moves { Goes (R.rules.moved (top (R.Below.pile (R.under self.old))) (own (R.pile self.old)) u v) tt result (own (R.pile self.old)) (own (R.pile self.new)) }
        ensures after { R.pile self.new ≡ after_step (R.pile self.old) u v }
        ensures kept { Made (R.pile self.new) }
    {
        self.top.step(u, v)
    }

    /// The top reduction takes all the steps of its sweep.
    pub fn sweep(&mut self) -> Result<(), Refusal>
        ensures answer { result ≡ (R.rules.swept (top (R.Below.pile (R.under self.old))) (own (R.pile self.old))).answer }
        ensures after { R.pile self.new ≡ after_sweep (R.pile self.old) }
        ensures kept { Made (R.pile self.new) }
    {
        self.top.sweep()
    }
}
