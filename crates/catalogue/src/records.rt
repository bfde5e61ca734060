ghost use Rattle.std.specs.Prelude.{◌≡◌};
ghost use Rattle.sets.specs.Sets.{with_member};

use sets::ComponentSet;
use std::marker::Model;

/// What an open catalogue keeps of one component: the components that it was said to clash with.
///
/// A contract sees it as their set.
#[derive(Clone, Copy, PartialEq, Eq, Hash, Debug, Default)]
pub struct ComponentRecord {
    clashes: ComponentSet,
}

impl Model for ComponentRecord {
    ghost use Rattle.std.specs.Prelude.{ℕ};

    ghost Value = { ℕ };

    ghost view = { λ r. r.clashes };

    ghost inverse = { λ n. record { clashes = n } };
}

impl ComponentRecord {
    /// The record of a component without clashes.
    pub fn new() -> Self
        ensures { result ≡ 0 }
    {
        ComponentRecord {
            clashes: ComponentSet::empty(),
        }
    }

    /// The noted clashes.
    pub fn clashes(&self) -> ComponentSet
        ensures { result ≡ self.now }
    {
        self.clashes
    }

    /// Notes one more clash.
    pub fn note(&mut self, component: usize)
        ensures { self.new ≡ with_member self.old component }
    {
        self.clashes = self.clashes.with(component);
    }
}
