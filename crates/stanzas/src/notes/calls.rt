//! What can be asked of notes.
ghost use Rattle.std.specs.Prelude.{◌≡◌};

use super::{Clash, Need, Notes, OpenNotes};
use texts::spans::Span;

impl Notes {
    /// The names of the components, by number.
    pub fn names(&self) -> &[Span]
        ensures { result.now ≡ self.now.names.items }
    {
        self.names.as_slice()
    }

    /// The clauses in file order.
    pub fn needs(&self) -> &[Need]
        ensures { result.now ≡ self.now.needs.items }
    {
        self.needs.as_slice()
    }

    /// The conflicts in file order.
    pub fn clashes(&self) -> &[Clash]
        ensures { result.now ≡ self.now.clashes.items }
    {
        self.clashes.as_slice()
    }

    /// The names alone.
    pub fn into_names(self) -> Vec<Span>
        ensures { result ≡ self.names }
    {
        self.names
    }
}

impl<'a> OpenNotes<'a> {
    /// The text from which the notes are taken, for as long as it was lent.
    pub fn text(&self) -> &'a [u8]
        ensures { result.now ≡ self.now.text.now }
    {
        self.text
    }

    /// The notes that are taken from the text.
    pub fn notes(&self) -> &Notes
        ensures { result.now ≡ self.now.notes }
    {
        &self.notes
    }

    /// The notes alone, which stay when the text goes.
    pub fn into_notes(self) -> Notes
        ensures { result ≡ self.entry.notes }
    {
        self.notes
    }
}
