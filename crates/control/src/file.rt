ghost use Rattle.std.specs.Prelude.{◌≡◌, Ok, Err, MatchResult};
ghost use Rattle.sheets.specs.Sheets.{model};
ghost use Rattle.levels.specs.Piles.{ground};
ghost use Rattle.texts.specs.Spans.{look_up};
ghost use Rattle.stanzas.specs.Views.{Answers};
ghost use Rattle.control.specs.Examples.{Examples};
ghost use Rattle.control.specs.Grounds.{contents, name_at};
ghost use Rattle.control.specs.Views.{view};
ghost use Rattle.control.specs.Laws.{HoldsWritten, ConflictsNamed};
ghost use Rattle.std.proofs.Common.{rules};

use crate::resolve::resolve;
use catalogue::ClosedCatalogue;
use levels::{Ground, Level};
use refusals::Refusal;
use sets::ComponentSet;
use sheets::Sheet;
use stanzas::Notes;
use std::alloc::Global;
use texts::{ReadError, Span, find};

/// A control file that was read: its text, the names of the components as stretches of it, and the catalogue that it describes, which is a ground.
///
/// Contracts see it by `view`; an `impl Model` would hide that its sheet is well-formed, which the law of a ground needs.
#[derive(Drop)]
pub struct ControlFile {
    text: Vec<u8>,
    names: Vec<Span>,
    catalogue: ClosedCatalogue,
}

impl ControlFile {
    /// Reads a control file. An error is the first fault in it, or want of memory.
    #[tactic(auto, using(crate::proofs::Laws::holds_written, crate::proofs::Laws::conflicts_named, crate::proofs::Examples::examples))]
    pub fn read(heap: Global, text: Vec<u8>) -> Result<ControlFile, ReadError>
        ensures value { Answers view result (contents text.items) }
        ensures written { HoldsWritten }
        ensures conflicts { ConflictsNamed }
        ensures examples { Examples }
    {
        let notes = Notes::read(heap, text.as_slice())?;
        let catalogue = resolve(heap, text.as_slice(), &notes)?;
        Ok(ControlFile {
            text,
            names: notes.into_names(),
            catalogue,
        })
    }

    /// The name of a component, as it stands in the text, or no-component.
    pub fn name(&self, component: usize) -> Result<&[u8], Refusal>
        ensures { MatchResult result (λ s. name_at (view self.now) component ≡ Ok s.now) (λ e. name_at (view self.now) component ≡ Err e) }
    {
        let span = self.names.get(component).ok_or(Refusal::NoComponent)?;
        Ok(span.of(self.text.as_slice()))
    }

    /// The number of the component with this name.
    pub fn find(&self, name: &[u8]) -> Option<usize>
        ensures { result ≡ look_up 0 (view self.now).names name.now }
    {
        find(self.text.as_slice(), self.names.as_slice(), name)
    }
}

impl Level for ControlFile {
    ghost pile = { λ c. ground (model c.catalogue.sheet) };

    fn sheet(&self) -> &Sheet {
        self.catalogue.sheet()
    }

    fn ground(&self) -> &Sheet {
        self.catalogue.ground()
    }

    fn image_of(&self, component: usize) -> usize {
        self.catalogue.image_of(component)
    }

    fn lift_of(&self, set: ComponentSet) -> ComponentSet {
        self.catalogue.lift_of(set)
    }
}

impl Ground for ControlFile {
    ghost alone = { Prim.search rules };

    ghost formed = { Prim.search rules };
}
