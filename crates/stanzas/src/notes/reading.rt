//! Reads a file line by line.
ghost use Rattle.std.specs.Prelude.{◌≡◌, IfOk};
ghost use Rattle.stanzas.specs.Files.{step, reading};
ghost use Rattle.stanzas.specs.Plain.{ReadsBack};
ghost use Rattle.stanzas.specs.Sound.{Sound};
ghost use Rattle.stanzas.specs.Spans.{IsFront};
ghost use Rattle.stanzas.specs.Lines.{heading_of};
ghost use Rattle.stanzas.specs.Views.{Answers, Leaves, notes_of, said_of, line_of};

use super::{Notes, OpenNotes};
use crate::lines::{Heading, Line, Lines, Stanza};
use refusals::Refusal;
use std::alloc::Global;
use texts::faults::{Fault, Layer, ReadError};

impl Notes {
    /// How many bytes a file has at most.
    pub const MAX_BYTES: usize = 65_535;

    /// Reads a file, up to its first fault.
    pub fn read(heap: Global, text: &[u8]) -> Result<Notes, ReadError>
        ensures value { Answers (notes_of text.now) result (reading text.now) }
        ensures sound { IfOk result (λ n. Sound (notes_of text.now n)) }
        ensures plain { ReadsBack }
    {
        if text.len() > Self::MAX_BYTES {
            return Err(Fault::new(Refusal::TooLong, Layer::File, Self::MAX_BYTES).into());
        }
        let mut reading = OpenNotes::new(heap, text);
        for line in (Lines { text, at: 0 }) {
            reading.read_line(line)?;
        }
        Ok(reading.notes)
    }
}

impl<'a> OpenNotes<'a> {
    /// Reads a file, up to its first fault, and keeps its text at hand beside the notes.
    pub fn read(heap: Global, text: &'a [u8]) -> Result<OpenNotes<'a>, ReadError>
        ensures value { Answers said_of result (reading text.now) }
        ensures text { IfOk result (λ n. n.text.now ≡ text.now) }
        ensures sound { IfOk result (λ n. Sound (said_of n)) }
        ensures plain { ReadsBack }
    {
        let notes = Notes::read(heap, text)?;
        Ok(OpenNotes { text, notes })
    }

    /// Reads a line. That it is one of the file's text stands in three contracts: it relates two parameters, so no type says it.
    fn read_line(&mut self, line: Line<'_>) -> Result<(), ReadError>
        requires { IsFront line.text.now self.old.text.now }
        ensures { Leaves result (step (said_of self.old) (line_of line.entry) (heading_of (line_of line.entry).text)) self.old self.new }
    {
        match (line.heading(), self.notes.stanza) {
            (Heading::Empty, _) => self.notes.stanza = None,
            (Heading::Package, None) => self.read_package(line.value())?,
            (Heading::Related(relation), Some(stanza)) if !stanza.has(relation) => {
                self.notes.stanza = Some(stanza.with(relation));
                self.read_related(line.value(), relation)?;
            }
            (Heading::Skipped, Some(stanza)) => {
                self.notes.stanza = Some(Stanza {
                    skipping: true,
                    ..stanza
                });
            }
            (Heading::Continued, Some(stanza)) if stanza.skipping => {}
            (Heading::Package | Heading::Related(_) | Heading::Skipped, _) => {
                return Err(Fault::new(Refusal::StrayField, Layer::File, line.start).into());
            }
            (Heading::Continued | Heading::Malformed, _) => {
                return Err(Fault::new(Refusal::BadLine, Layer::File, line.start).into());
            }
        }
        Ok(())
    }
}
