//! How notes grow: by the name of a component, by a clause, by conflicts.
ghost use Rattle.std.specs.Prelude.{◌≡◌, map};
ghost use Rattle.stanzas.specs.declared.lines.Relation.TheVariants.{Depends, Conflicts};
ghost use Rattle.stanzas.specs.Notes.{start, name_added, added};
ghost use Rattle.stanzas.specs.Spans.{mention};
ghost use Rattle.stanzas.specs.Views.{Leaves, said_of};

use super::{Clash, Need, Notes, OpenNotes};
use crate::lines::{Relation, Stanza};
use refusals::Refusal;
use sets::ComponentSet;
use sheets::Sheet;
use std::alloc::Global;
use texts::faults::{Fault, Layer, ReadError};
use texts::spans::{Span, find};

impl<'a> OpenNotes<'a> {
    /// Before the first line.
    pub(crate) fn new(heap: Global, text: &'a [u8]) -> OpenNotes<'a>
        ensures text { result.text.now ≡ text.now }
        ensures start { said_of result ≡ start }
    {
        OpenNotes {
            text,
            notes: Notes {
                names: Vec::new(heap),
                needs: Vec::new(heap),
                clashes: Vec::new(heap),
                stanza: None,
            },
        }
    }

    /// A stanza begins, and its component has this name.
    pub(crate) fn add_name(&mut self, name: Span) -> Result<(), ReadError>
        ensures { Leaves result (name_added (said_of self.old) (mention self.old.text.now name)) self.old self.new }
    {
        let place = name.start;
        if find(self.text, self.notes.names.as_slice(), name.of(self.text)).is_some() {
            return Err(Fault::new(Refusal::NameTwice, Layer::File, place).into());
        }
        if self.notes.names.len() >= ComponentSet::LIMIT {
            return Err(Fault::new(Refusal::TooMany, Layer::File, place).into());
        }
        self.notes.names.push(name)?;
        self.notes.stanza = Some(Stanza::default());
        Ok(())
    }

    /// What stands between two commas is whole: a clause of the stanza's component, or conflicts.
    pub(crate) fn add(&mut self, relation: Relation, names: Vec<Span>) -> Result<(), ReadError>
        ensures { Leaves result (added relation (said_of self.old) (map (mention self.old.text.now) names.items)) self.old self.new }
    {
        // The file says which, when it is read: a step passed as a closure would have to be chosen all the same.
        match relation {
            Relation::Depends => self.add_need(names),
            Relation::Conflicts => self.add_clashes(names.as_slice()),
        }
    }

    /// A clause of the stanza's component.
    fn add_need(&mut self, names: Vec<Span>) -> Result<(), ReadError>
        ensures { Leaves result (added Depends (said_of self.old) (map (mention self.old.text.now) names.items)) self.old self.new }
    {
        if self.notes.needs.len() >= Sheet::MAX_CLAUSES {
            let place = names.first().map_or(0, |name| name.start);
            return Err(Fault::new(Refusal::TableFull, Layer::Field, place).into());
        }
        let owner = self.notes.names.len().saturating_sub(1);
        self.notes.needs.push(Need { owner, names })?;
        Ok(())
    }

    /// Conflicts of the stanza's component.
    fn add_clashes(&mut self, names: &[Span]) -> Result<(), ReadError>
        ensures { Leaves result (added Conflicts (said_of self.old) (map (mention self.old.text.now) names.now)) self.old self.new }
    {
        let owner = self.notes.names.len().saturating_sub(1);
        self.notes
            .clashes
            .extend(names.iter().map(|name| Clash { owner, name: *name }))?;
        Ok(())
    }
}
