//! What a file has said so far.
use crate::lines::Stanza;
use texts::spans::Span;

mod adding;
mod calls;
mod reading;
mod values;

/// A clause as it is written: the component in whose stanza it stands, and the names between which there is a choice.
#[derive(Drop)]
pub struct Need {
    pub owner: usize,
    pub names: Vec<Span>,
}

/// A conflict as it is written: the component in whose stanza it stands, and the name of the other.
#[derive(Clone, Copy, PartialEq, Eq, Hash, Debug)]
pub struct Clash {
    pub owner: usize,
    pub name: Span,
}

/// The names of the components, then the clauses and the conflicts in file order, all as stretches of the text; and the
/// stanza at hand.
///
/// Contracts see it by `notes_of` and by its spans, which an `impl Model` would forget.
#[derive(Drop)]
pub struct Notes {
    names: Vec<Span>,
    needs: Vec<Need>,
    clashes: Vec<Clash>,
    stanza: Option<Stanza>,
}

/// The text that is read and the notes of it so far; and, for who wants both at hand, the whole notes beside their text.
///
/// Contracts see the text, and what the notes say by `said_of`.
#[derive(Drop)]
pub struct OpenNotes<'a> {
    text: &'a [u8],
    notes: Notes,
}
