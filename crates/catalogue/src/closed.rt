ghost use Rattle.sheets.specs.Sheets.{model};
ghost use Rattle.levels.specs.Piles.{ground};
ghost use Rattle.std.proofs.Common.{rules};

use levels::{Ground, Level};
use sets::ComponentSet;
use sheets::Sheet;

/// A catalogue to which nothing can be added any more: a ground. Contracts name its sheet: an `impl Model` would hide that the
/// sheet is well-formed, which the law of a ground needs.
#[derive(Drop)]
pub struct ClosedCatalogue {
    pub(crate) sheet: Sheet,
}

impl Level for ClosedCatalogue {
    ghost pile = { λ c. ground (model c.sheet) };

    fn sheet(&self) -> &Sheet {
        &self.sheet
    }

    fn ground(&self) -> &Sheet {
        &self.sheet
    }

    fn image_of(&self, component: usize) -> usize {
        component
    }

    fn lift_of(&self, set: ComponentSet) -> ComponentSet {
        set
    }
}

impl Ground for ClosedCatalogue {
    ghost alone = { Prim.search rules };

    ghost formed = { Prim.search rules };
}
