//! What a sheet tells.
ghost use Rattle.std.specs.Prelude.{◌≡◌, length};
ghost use Rattle.sheets.specs.Sheets.{model, found, opponents, Formed};

use super::Sheet;
use crate::clause::Clause;
use refusals::Refusal;
use sets::ComponentSet;

impl Sheet {
    /// How many numbers its components have: all are below this.
    pub fn size(&self) -> usize
        ensures value { result ≡ (model self.now).size }
        ensures formed { Formed (model self.now) }
    {
        self.conflicts.len()
    }

    /// The components that are present.
    pub fn present(&self) -> ComponentSet
        ensures { result ≡ (model self.now).present }
    {
        self.present
    }

    /// The clauses in list order.
    pub fn clauses(&self) -> &[Clause]
        ensures { result.now ≡ (model self.now).clauses }
    {
        self.clauses.as_slice()
    }

    /// How many clauses there are.
    pub fn clause_count(&self) -> usize
        ensures { result ≡ length (model self.now).clauses }
    {
        self.clauses.len()
    }

    /// The clause at a place, or no-clause.
    fn clause(&self, place: usize) -> Result<Clause, Refusal>
        ensures { result ≡ found (model self.now) (λ c. c) place }
    {
        self.clauses.get(place).copied().ok_or(Refusal::NoClause)
    }

    /// The owner of the clause at a place, or no-clause.
    pub fn owner(&self, place: usize) -> Result<usize, Refusal>
        ensures { result ≡ found (model self.now) (λ c. c.owner) place }
    {
        self.clause(place).map(|clause| clause.owner)
    }

    /// The members of the clause at a place, or no-clause.
    pub fn members(&self, place: usize) -> Result<ComponentSet, Refusal>
        ensures { result ≡ found (model self.now) (λ c. c.members) place }
    {
        self.clause(place).map(|clause| clause.members)
    }

    /// What a component conflicts with, or no-component.
    #[tactic(auto, using(crate::proofs::Forms::absent_past))]
    pub fn conflicts(&self, component: usize) -> Result<ComponentSet, Refusal>
        ensures { result ≡ opponents (model self.now) component }
    {
        if !self.present.contains(component) {
            return Err(Refusal::NoComponent);
        }
        // Presence proves that the place is there: `get` would test that once more.
        Ok(self.conflicts[component])
    }
}
