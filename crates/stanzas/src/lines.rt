//! The lines of a file, and what each of them is.
ghost use Rattle.std.specs.Prelude.{◌≡◌, ◌-◌, ◌≤◌, length};
ghost use Rattle.stanzas.specs.Lines.{field_of, heading_of};
ghost use Rattle.stanzas.specs.Files.{has, with};

use crate::cursor::Cursor;
use texts::bytes::{InLabel, InLine, is_blank, is_letter, scan};
use texts::spans::front;

/// The fields that relate a component to others.
#[derive(Clone, Copy, PartialEq, Eq, Hash, Debug)]
pub enum Relation {
    Depends,
    Conflicts,
}

/// What a line is.
#[derive(Clone, Copy, PartialEq, Eq, Hash, Debug)]
pub enum Heading {
    Empty,
    Continued,
    Package,
    Related(Relation),
    Skipped,
    Malformed,
}

/// Which fields a stanza has had after its `Package`, and whether a continuation may come next. Flags, since each can hold
/// with each other.
#[derive(Clone, Copy, PartialEq, Eq, Hash, Default, Debug)]
pub struct Stanza {
    pub(crate) depends: bool,
    pub(crate) conflicts: bool,
    pub(crate) skipping: bool,
}

impl Stanza {
    /// Whether the field has occurred.
    pub(crate) fn has(self, relation: Relation) -> bool
        ensures { result ≡ has self relation }
    {
        match relation {
            Relation::Depends => self.depends,
            Relation::Conflicts => self.conflicts,
        }
    }

    /// The stanza once the field has occurred.
    pub(crate) fn with(self, relation: Relation) -> Stanza
        ensures { result ≡ with self relation }
    {
        match relation {
            Relation::Depends => Stanza {
                depends: true,
                skipping: false,
                ..self
            },
            Relation::Conflicts => Stanza {
                conflicts: true,
                skipping: false,
                ..self
            },
        }
    }
}

impl Heading {
    /// What the field with this label is to us.
    fn named(label: &[u8]) -> Heading
        ensures { result ≡ field_of label.now }
    {
        match label {
            b"Package" => Heading::Package,
            b"Depends" => Heading::Related(Relation::Depends),
            b"Conflicts" => Heading::Related(Relation::Conflicts),
            _ => Heading::Skipped,
        }
    }

    /// What the line is.
    pub(crate) fn of(line: &[u8]) -> Heading
        ensures { result ≡ heading_of line.now }
    {
        if line.is_empty() {
            return Heading::Empty;
        }
        if is_blank(line[0]) {
            return Heading::Continued;
        }
        let colon = scan::<InLabel>(line, 0);
        if is_letter(line[0]) && colon < line.len() && line[colon] == b':' {
            Heading::named(&line[..colon])
        } else {
            Heading::Malformed
        }
    }
}

/// A line: the text up to its end, and where it begins, since faults tell places in the text.
#[derive(Clone, Copy, Debug)]
pub(crate) struct Line<'a> {
    pub(crate) text: &'a [u8],
    pub(crate) start: usize,
    ghost inside: { start ≤ length text.now },
}

impl<'a> Line<'a> {
    ghost use Rattle.stanzas.specs.Lines.{value_of};
    ghost use Rattle.stanzas.specs.Cursors.{rest};
    ghost use Rattle.stanzas.specs.Views.{line_of};

    /// What it is.
    pub(crate) fn heading(&self) -> Heading
        ensures { result ≡ heading_of (line_of self.now).text }
    {
        Heading::of(&self.text[self.start..])
    }

    /// The value of a field line, from behind its colon.
    pub(crate) fn value(&self) -> Cursor<'a>
        ensures text { result.text.now ≡ self.now.text.now }
        ensures tokens { rest result ≡ value_of (line_of self.now) }
    {
        let colon = scan::<InLabel>(self.text, self.start);
        Cursor {
            text: self.text,
            at: colon + 1,
        }
    }
}

/// The lines of a text that are still to come, from a place in it on, which lines tell.
#[derive(Debug, Drop)]
pub(crate) struct Lines<'a> {
    pub(crate) text: &'a [u8],
    pub(crate) at: usize,
}

impl<'a> Iterator for Lines<'a> {
    ghost use Rattle.std.specs.Iterator.{at_most};
    ghost use Rattle.stanzas.specs.Views.{GivesLine};

    type Item = Line<'a>;

    ghost next_gives = { GivesLine };

    ghost remaining = { λ s. at_most (length s.text.now - s.at) };

    fn next(&mut self) -> Option<Line<'a>> {
        let start = self.at;
        if start >= self.text.len() {
            return None;
        }
        let end = scan::<InLine>(self.text, start);
        self.at = end + 1;
        Some(Line {
            text: front(self.text, end),
            start,
        })
    }
}
