//! From names to components: the catalogue that notes describe.
ghost use Rattle.std.specs.Prelude.{◌≡◌, map, IfOk};
ghost use Rattle.sheets.specs.Sheets.{model};
ghost use Rattle.catalogue.specs.Drafts.{closed};
ghost use Rattle.texts.specs.Spans.{look_up, stretch};
ghost use Rattle.stanzas.specs.Sound.{Sound};
ghost use Rattle.stanzas.specs.Views.{notes_of};
ghost use Rattle.control.specs.Grounds.{known, draft_of};

use catalogue::{ClosedCatalogue, OpenCatalogue};
use sets::ComponentSet;
use stanzas::Notes;
use std::alloc::{AllocError, Global};
use texts::{Span, find};

/// The component that a name means, if a stanza has it.
fn meant(text: &[u8], notes: &Notes, name: Span) -> Option<usize>
    ensures { result ≡ look_up 0 (notes_of text.now notes.now).names (stretch text.now name) }
{
    find(text, notes.names(), name.of(text))
}

/// The components that the names of a choice mean.
fn members(text: &[u8], notes: &Notes, choice: &[Span]) -> ComponentSet
    ensures { result ≡ known (notes_of text.now notes.now).names (map (stretch text.now) choice.now) }
{
    let mut members = ComponentSet::empty();
    for name in choice {
        if let Some(component) = meant(text, notes, *name) {
            members = members.with(component);
        }
    }
    members
}

/// The catalogue that the notes describe: a component for each name, the clauses in file order, and the conflicts whose
/// name means another component. Notes keep the limits and their owners are components, so no call is declined.
pub(crate) fn resolve(
    heap: Global,
    text: &[u8],
    notes: &Notes,
) -> Result<ClosedCatalogue, AllocError>
    requires { Sound (notes_of text.now notes.now) }
    ensures { IfOk result (λ c. model c.sheet ≡ closed (draft_of (notes_of text.now notes.now))) }
{
    let mut catalogue = OpenCatalogue::new(heap)?;
    catalogue.add_components(notes.names().len()).unwrap();
    for need in notes.needs() {
        let members = members(text, notes, need.names.as_slice());
        catalogue.add_need(need.owner, members).unwrap();
    }
    for clash in notes.clashes() {
        if let Some(other) = meant(text, notes, clash.name) {
            if other != clash.owner {
                catalogue.add_clash(clash.owner, other).unwrap();
            }
        }
    }
    Ok(catalogue.close())
}
