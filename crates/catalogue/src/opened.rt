use crate::records::ComponentRecord;
use sheets::Sheet;
use std::marker::Model;

mod calls;

/// A catalogue that is being filled. Its sheet has the components and clauses so far; the clashes stand in the
/// records, one for each component, until the catalogue is closed. A contract sees it as a draft.
///
/// All the memory that it and the closed catalogue need is taken when it is made: that is why there are records beside
/// the conflict sets of the sheet, which are empty until then.
#[derive(Drop)]
pub struct OpenCatalogue {
    sheet: Sheet,
    records: Vec<ComponentRecord>,
}

impl Model for OpenCatalogue {
    ghost use Rattle.std.specs.Prelude.{◌≤◌, vec_capacity};
    ghost use Rattle.sets.specs.Limit.{limit};
    ghost use Rattle.sheets.specs.Sheets.{model};
    ghost use Rattle.catalogue.specs.Notes.{Filled};
    ghost use Rattle.catalogue.specs.Drafts.{Draft};

    ghost Value = { Draft };

    ghost view = { λ c. record { clauses = (model c.sheet).clauses; records = c.records.items } };

    ghost invariant = { λ c. Filled (model c.sheet) c.records.items × (limit ≤ vec_capacity c.records) };
}
