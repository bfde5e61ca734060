//! Reads the value of a field.
ghost use Rattle.stanzas.specs.Spans.{IsFront};
ghost use Rattle.stanzas.specs.Values.{single, related};
ghost use Rattle.stanzas.specs.Cursors.{rest, end};
ghost use Rattle.stanzas.specs.Views.{Leaves, said_of};

use super::OpenNotes;
use crate::cursor::{Cursor, Separator};
use crate::lines::Relation;
use std::mem;
use texts::faults::ReadError;

impl OpenNotes<'_> {
    /// Reads the value of a `Package`.
    pub(crate) fn read_package(&mut self, mut cursor: Cursor<'_>) -> Result<(), ReadError>
        requires { IsFront cursor.text.now self.old.text.now }
        ensures { Leaves result (single (end cursor.entry) (said_of self.old) (rest cursor.entry)) self.old self.new }
    {
        let name = cursor.only_name()?;
        self.add_name(name)?;
        cursor.nothing_more()?;
        Ok(())
    }

    /// Reads the value of a field that relates the stanza's component to others.
    pub(crate) fn read_related(
        &mut self,
        mut cursor: Cursor<'_>,
        relation: Relation,
    ) -> Result<(), ReadError>
        requires { IsFront cursor.text.now self.old.text.now }
        ensures { Leaves result (related relation (end cursor.entry) (said_of self.old) (rest cursor.entry)) self.old self.new }
    {
        if cursor.is_done() {
            return Ok(());
        }
        let heap = *self.notes.names.allocator();
        let mut clause = Vec::new(heap);
        loop {
            let name = cursor.name(relation)?;
            clause.push(name)?;
            match cursor.separator(relation)? {
                Separator::Bar => {}
                Separator::Comma => {
                    let whole = mem::replace(&mut clause, Vec::new(heap));
                    self.add(relation, whole)?;
                }
                Separator::End => return self.add(relation, clause),
            }
        }
    }
}
