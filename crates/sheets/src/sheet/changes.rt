//! How a sheet is built.
ghost use Rattle.std.specs.Prelude.{◌≡◌, ℕ, ◌&&◌, ◌||◌, IfOk, OnOk, ◌==◌};
ghost use Rattle.sets.specs.Sets.{has};
ghost use Rattle.sheets.specs.Sheets.{model, conflicts_of};
ghost use Rattle.sheets.specs.Changes.{Goes, blank, component_added, clause_added, conflicts_added, opposed_set};

use super::Sheet;
use crate::clause::Clause;
use refusals::Refusal;
use sets::ComponentSet;
use std::alloc::{AllocError, Global};

impl Sheet {
    /// How many clauses a sheet has at most.
    pub const MAX_CLAUSES: usize = 512;

    /// The sheet without components, with room for all that it may come to hold.
    #[tactic(auto, using(crate::proofs::Forms::blank_among))]
    pub fn new(heap: Global) -> Result<Sheet, AllocError>
        ensures { IfOk result (λ s. model s ≡ blank) }
    {
        let clauses = Vec::with_capacity(heap, Self::MAX_CLAUSES)?;
        let conflicts = Vec::with_capacity(heap, ComponentSet::LIMIT)?;
        Ok(Sheet {
            present: ComponentSet::empty(),
            clauses,
            conflicts,
        })
    }

    /// One more component, and its number; too-many past the limit.
    #[tactic(auto, using(crate::proofs::Forms::growing))]
    pub fn add_component(&mut self) -> Result<usize, Refusal>
        ensures { Goes (component_added (model self.old)) (model self.old).size result (model self.old) (model self.new) }
    {
        let component = self.conflicts.len();
        if component >= ComponentSet::LIMIT {
            return Err(Refusal::TooMany);
        }
        self.conflicts.push_reserved(ComponentSet::empty());
        self.present = self.present.with(component);
        Ok(component)
    }

    /// One more clause at the end; no-component where its owner or a member is not present, then table-full.
    pub fn add_clause(&mut self, clause: Clause) -> Result<(), Refusal>
        ensures { Goes (clause_added (model self.old) clause) tt result (model self.old) (model self.new) }
    {
        if !self.present.contains(clause.owner) || !clause.members.is_subset(self.present) {
            return Err(Refusal::NoComponent);
        }
        if self.clauses.len() >= Self::MAX_CLAUSES {
            return Err(Refusal::TableFull);
        }
        self.clauses.push_reserved(clause);
        Ok(())
    }

    /// A component conflicts with each of the others from now on, and each of them with it.
    /// No-component where one is not present, then self-clash where it is among the others.
    pub fn add_conflicts(&mut self, component: usize, others: ComponentSet) -> Result<(), Refusal>
        ensures goes { Goes (conflicts_added (model self.old) component others) tt result (model self.old) (model self.new) }
        ensures both { OnOk result ((i j : ℕ) → has (conflicts_of (model self.new) i) j ≡ (has (conflicts_of (model self.old) i) j || ((i == component && has others j) || (j == component && has others i)))) }
    {
        if !self.present.contains(component) || !others.is_subset(self.present) {
            return Err(Refusal::NoComponent);
        }
        if others.contains(component) {
            return Err(Refusal::SelfClash);
        }
        for (i, conflicts) in self.conflicts.iter_mut().enumerate() {
            *conflicts = opposed_set(*conflicts, component, others, i);
        }
        Ok(())
    }
}

/// The conflict set of component `i`, once `component` conflicts with the others. A function of its own, and each set is written,
/// changed or not: so the loop over the table compiles to vector code.
fn opposed_set(
    conflicts: ComponentSet,
    component: usize,
    others: ComponentSet,
    i: usize,
) -> ComponentSet
    ensures { result ≡ opposed_set conflicts component others i }
{
    if i == component {
        conflicts | others
    } else if others.contains(i) {
        conflicts.with(component)
    } else {
        conflicts
    }
}

// By hand: a derived `clone` would not take the room that the type promises.
impl Clone for Sheet {
    ghost is_clone = { λ s t. model t ≡ model s };

    /// The same sheet once more, with the same room.
    fn clone(&self) -> Result<Sheet, AllocError> {
        let heap = *self.clauses.allocator();
        let mut clauses = Vec::with_capacity(heap, Self::MAX_CLAUSES)?;
        clauses.extend_from_slice(self.clauses.as_slice())?;
        let mut conflicts = Vec::with_capacity(heap, ComponentSet::LIMIT)?;
        conflicts.extend_from_slice(self.conflicts.as_slice())?;
        Ok(Sheet {
            present: self.present,
            clauses,
            conflicts,
        })
    }
}
