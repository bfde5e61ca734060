ghost use Rattle.std.specs.Prelude.{◌≡◌, ℕ, ◌<◌, ◌||◌, length, IfOk};
ghost use Rattle.sets.specs.Sets.{has};
ghost use Rattle.sheets.specs.Changes.{Goes};
ghost use Rattle.sheets.specs.Sheets.{model, conflicts_of};
ghost use Rattle.catalogue.specs.Notes.{Filled};
ghost use Rattle.catalogue.specs.Examples.{Examples};
ghost use Rattle.catalogue.specs.Drafts.{Kept, empty_draft, component_made, components_made, need_made, clash_made, clash, closed};

use super::OpenCatalogue;
use crate::closed::ClosedCatalogue;
use crate::records::ComponentRecord;
use refusals::Refusal;
use sets::ComponentSet;
use sheets::{Clause, Sheet};
use std::alloc::{AllocError, Global};

impl OpenCatalogue {
    /// A catalogue without components.
    pub fn new(heap: Global) -> Result<OpenCatalogue, AllocError>
        ensures empty { IfOk result (λ c. c ≡ empty_draft) }
        ensures kept { IfOk result (λ c. Kept c) }
    {
        let sheet = Sheet::new(heap)?;
        let records = Vec::with_capacity(heap, ComponentSet::LIMIT)?;
        Ok(OpenCatalogue { sheet, records })
    }

    /// How many components there are so far, and what every open catalogue keeps.
    pub fn size(&self) -> usize
        ensures value { result ≡ length self.now.records }
        ensures kept { Kept self.now }
    {
        self.records.len()
    }

    /// One more component, and its number; too-many past the limit.
    pub fn add_component(&mut self) -> Result<usize, Refusal>
        ensures goes { Goes (component_made self.old) (length self.old.records) result self.old self.new }
        ensures kept { Kept self.new }
    {
        let component = self.sheet.add_component()?;
        self.records.push_reserved(ComponentRecord::new());
        Ok(component)
    }

    /// So many components more; too-many where they would pass the limit, and then none is added.
    pub fn add_components(&mut self, count: usize) -> Result<(), Refusal>
        ensures goes { Goes (components_made self.old count) tt result self.old self.new }
        ensures kept { Kept self.new }
    {
        if count > ComponentSet::LIMIT - self.records.len() {
            return Err(Refusal::TooMany);
        }
        for _ in 0..count {
            self.add_component().unwrap();
        }
        Ok(())
    }

    /// A component needs one of the members; no-component where a number was not made yet, then table-full.
    pub fn add_need(&mut self, owner: usize, members: ComponentSet) -> Result<(), Refusal>
        ensures goes { Goes (need_made self.old owner members) tt result self.old self.new }
        ensures kept { Kept self.new }
    {
        self.sheet.add_clause(Clause { owner, members })
    }

    /// A component clashes with another, which is noted at its own record alone.
    /// No-component where a number was not made yet, then self-clash for a component with itself; repeating it is obeyed.
    pub fn add_clash(&mut self, component: usize, other: usize) -> Result<(), Refusal>
        ensures goes { Goes (clash_made self.old component other) tt result self.old self.new }
        ensures kept { Kept self.new }
    {
        // Tested here and not by `get_mut`: both numbers come before the clash with oneself.
        if component >= self.records.len() || other >= self.records.len() {
            return Err(Refusal::NoComponent);
        }
        if component == other {
            return Err(Refusal::SelfClash);
        }
        let record = &mut self.records[component];
        record.note(other);
        Ok(())
    }

    /// Closes the catalogue: two components conflict where one of them has noted the other.
    /// This is never declined and asks for no memory.
    pub fn close(self) -> ClosedCatalogue
        ensures sheet { model result.sheet ≡ closed self }
        ensures both { (p q : ℕ) → has (conflicts_of (model result.sheet) p) q ≡ clash self p q }
        ensures kept { Kept self }
        ensures examples { Examples }
    {
        let OpenCatalogue { mut sheet, records } = self;
        complete(&mut sheet, records.as_slice());
        ClosedCatalogue { sheet }
    }
}

/// Gives the sheet the clashes of the records, both ways. No addition is declined: the records name other components that are present.
fn complete(sheet: &mut Sheet, records: &[ComponentRecord])
    requires { Filled (model sheet.old) records.now }
    ensures sheet { model sheet.new ≡ closed (record { clauses = (model sheet.old).clauses; records = records.now }) }
    ensures both { (p q : ℕ) → has (conflicts_of (model sheet.new) p) q ≡ clash (record { clauses = (model sheet.old).clauses; records = records.now }) p q }
{
    for (component, record) in records.iter().enumerate() {
        sheet.add_conflicts(component, record.clashes()).unwrap();
    }
}
