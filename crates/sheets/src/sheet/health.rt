//! Which components of a sheet can stand together.
ghost use Rattle.std.specs.Prelude.{◌≡◌, ℕ, Decides};
ghost use Rattle.sets.specs.Sets.{has, Subset};
ghost use Rattle.sheets.specs.Sheets.{model};
ghost use Rattle.sheets.specs.Health.{Healthy, Fed, is_clear, clear};
ghost use Rattle.sheets.specs.Support.{Supported, unmet, narrowed, support, free};
ghost use Rattle.sheets.specs.Examples.{Examples};

use super::Sheet;
use sets::ComponentSet;

impl Sheet {
    /// Whether a set is a healthy installation: all present, every need met, and no conflict.
    #[tactic(auto, using(crate::proofs::Feeding::fed_apart, crate::proofs::Feeding::apart_fed, crate::proofs::Forms::absent_past))]
    pub fn is_healthy(&self, set: ComponentSet) -> bool
        ensures { Decides result (Healthy (model self.now) set) }
    {
        if !set.is_subset(self.present) || set.intersects(self.unmet(set)) {
            return false;
        }
        for (i, conflicts) in self.conflicts.iter().enumerate() {
            if set.contains(i) && set.intersects(*conflicts) {
                return false;
            }
        }
        true
    }

    /// The components that conflict with none.
    #[tactic(auto, using(crate::proofs::Forms::clearing), unfolding(sets::specs::Sets::collect, crate::specs::Health::clear))]
    pub fn clear_components(&self) -> ComponentSet
        ensures value { result ≡ clear (model self.now) }
        ensures members { (i : ℕ) → has result i ≡ is_clear (model self.now).present (model self.now).conflicts i }
    {
        let mut clear = ComponentSet::empty();
        for (i, conflicts) in self.conflicts.iter().enumerate() {
            if self.present.contains(i) && conflicts.is_empty() {
                clear = clear.with(i);
            }
        }
        clear
    }

    /// The support of a set: the greatest set of clear components each of whose needs is met by the set or by itself.
    #[tactic(auto, using(crate::proofs::Supports::narrowed_lower, crate::proofs::Supports::support_greatest))]
    pub fn support(&self, set: ComponentSet) -> ComponentSet
        ensures value { result ≡ support (model self.now) set }
        ensures closed { Supported (model self.now) set result }
        ensures greatest { (q : ℕ) → Supported (model self.now) set q → Subset q result }
    {
        let mut supported = self.clear_components();
        loop {
            let narrower = self.narrowed(set, supported);
            if narrower == supported {
                return supported;
            }
            supported = narrower;
        }
    }

    /// The free set: what the empty set supports. Components that need only one another are free where none of them conflicts.
    #[tactic(auto, using(crate::proofs::Examples::examples), unfolding(crate::specs::Support::free))]
    pub fn free_set(&self) -> ComponentSet
        ensures value { result ≡ free (model self.now) }
        ensures rings { (q : ℕ) → Subset q (clear (model self.now)) → Fed (model self.now).clauses q q → Subset q result }
        ensures examples { Examples }
    {
        self.support(ComponentSet::empty())
    }

    /// The owners of the clauses that have no member in a set.
    #[tactic(auto, using(crate::proofs::Feeding::collecting))]
    fn unmet(&self, set: ComponentSet) -> ComponentSet
        ensures { result ≡ unmet (model self.now).clauses set }
    {
        let mut owners = ComponentSet::empty();
        for clause in &self.clauses {
            if !clause.members.intersects(set) {
                owners = owners.with(clause.owner);
            }
        }
        owners
    }

    /// The candidates each of whose needs is met by the set or by the candidates.
    #[tactic(auto, unfolding(crate::specs::Support::narrowed))]
    fn narrowed(&self, set: ComponentSet, candidates: ComponentSet) -> ComponentSet
        ensures { result ≡ narrowed (model self.now).clauses set candidates }
    {
        candidates - self.unmet(set | candidates)
    }
}
