//! Runs the look-ups of levels and the calls of a pile on a small ground with two reductions, and prints what they answer.
#![tactic(auto)]

ghost use Rattle.std.specs.Prelude.{◌≡◌};
ghost use Rattle.std.proofs.Common.{sym, subst, rules};
ghost use Rattle.sheets.specs.Sheets.{model};
ghost use Rattle.levels.specs.Piles.{raised, unchanged};
ghost use Rattle.level_trials.specs.Unreduced.{unreduced_rules};
ghost use Rattle.levels.specs.Laws.{Law};
ghost use Rattle.levels.proofs.Keeping.{keeps_itself};

use catalogue::{ClosedCatalogue, OpenCatalogue};
use levels::{Level, Pile, Reduction};
use refusals::{Failure, Refusal};
use sets::ComponentSet;
use sheets::Sheet;
use std::alloc::{AllocFailed, Global};
use std::io;

/// The smallest reduction there can be: it reduces nothing. It shows that the interface can be met, and by how little.
#[derive(Drop)]
struct Unreduced<L: Level> {
    below: L,
    sheet: Sheet,
}

impl<L: Level> Level for Unreduced<L> {
    ghost pile = { λ x. raised (L.pile x.below) unreduced_rules (unchanged (model x.sheet)) };

    fn sheet(&self) -> &Sheet {
        &self.sheet
    }

    fn ground(&self) -> &Sheet {
        self.below.ground()
    }

    fn image_of(&self, component: usize) -> usize {
        self.below.image_of(component)
    }

    fn lift_of(&self, set: ComponentSet) -> ComponentSet {
        self.below.lift_of(set)
    }
}

impl<L: Level> Reduction for Unreduced<L> {
    type Below = L;

    ghost under = { λ x. x.below };

    ghost rules = { unreduced_rules };

    ghost keeps = { λ b o. o ≡ unchanged b };

    ghost raises = { Prim.search rules };

    ghost begins = { Prim.search rules };

    ghost starts = { Prim.search rules };

    ghost steps = { Prim.search rules };

    ghost sweeps = { Prim.search rules };

    ghost gives = { λ b o w k. subst (Law b) (sym k) (record { formed = w; keeps = keeps_itself b w }) };

    fn over(below: L, heap: Global) -> Result<Unreduced<L>, AllocFailed<L>> {
        // A match and no `map` and `map_err`: the level below goes into one of the two.
        match below.sheet().clone() {
            Ok(sheet) => Ok(Unreduced { below, sheet }),
            Err(_) => Err(AllocFailed { value: below }),
        }
    }

    fn below(&self) -> &L {
        &self.below
    }

    fn into_below(self) -> L {
        let Unreduced { below, sheet } = self;
        drop(sheet);
        below
    }

    fn step(&mut self, u: usize, v: usize) -> Result<(), Refusal> {
        Err(Refusal::NoClause)
    }

    fn sweep(&mut self) -> Result<(), Refusal> {
        Ok(())
    }
}

/// 0 needs 1, 1 needs 0, and 1 clashes with 2. `trials` has such a ring too: a library for it would be no plainer.
fn ring(heap: Global) -> Result<ClosedCatalogue, Failure> {
    let mut catalogue = OpenCatalogue::new(heap)?;
    catalogue.add_components(3)?;
    catalogue.add_need(0, ComponentSet::from([1]))?;
    catalogue.add_need(1, ComponentSet::from([0]))?;
    catalogue.add_clash(1, 2)?;
    Ok(catalogue.close())
}

/// The look-ups of any level in its own sheet.
fn print_sheet<L: Level>(rt: &impl Print, level: &L) -> io::Result<()> {
    println!(rt; "size {} clauses {}", level.size(), level.clause_count())?;
    println!(rt; "present {:?}", level.present())?;
    println!(rt; "owner {:?} {:?}", level.owner(1), level.owner(2))?;
    println!(rt; "members {:?} {:?}", level.members(1), level.members(2))
}

/// The look-ups of any level between it and the ground.
fn print_ties<L: Level>(rt: &impl Print, level: &L) -> io::Result<()> {
    println!(rt;
        "conflicts {:?} {:?}",
        level.conflicts(2),
        level.conflicts(3)
    )?;
    println!(rt; "image {:?} {:?}", level.image(2), level.image(3))?;
    println!(rt;
        "lift {:?} {:?}",
        level.lift(ComponentSet::from([0, 2])),
        level.lift(ComponentSet::from([0, 3]))
    )
}

type One = Unreduced<ClosedCatalogue>;

type Two = Unreduced<One>;

/// Two reductions over a ground.
fn raise(ground: Pile<ClosedCatalogue>, heap: Global) -> Result<Pile<Two>, Failure> {
    let one = Pile::<One>::raise(ground, heap)?;
    Ok(Pile::<Two>::raise(one, heap)?)
}

/// A step and a sweep of the top, and what the pile comes to: its fields, while programs print its line.
fn print_calls(rt: &impl Print, pile: &mut Pile<Two>) -> io::Result<()> {
    println!(rt; "step {:?} sweep {:?}", pile.step(0, 0), pile.sweep())?;
    println!(rt; "below {}", pile.top().below().clause_count())?;
    let size = pile.kernel_size();
    println!(rt;
        "kernel {} {} {}",
        size.ground, size.components, size.clauses
    )
}

fn run(rt: &(impl Print + AllocGlobal)) -> anyhow::Result<()> {
    let ground = Pile::on(ring(rt.alloc())?);
    print_sheet(rt, ground.top())?;
    print_ties(rt, ground.top())?;
    let mut pile = raise(ground, rt.alloc())?;
    print_calls(rt, &mut pile)?;
    print_sheet(rt, pile.top())?;
    print_ties(rt, pile.top())?;
    Ok(())
}

fn main(rt: HostRuntime) -> anyhow::Result<()> {
    run(&rt)
}
