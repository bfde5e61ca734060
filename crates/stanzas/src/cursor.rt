//! Goes through the value of a field, token by token.
ghost use Rattle.std.specs.Prelude.{◌≡◌, []};
ghost use Rattle.stanzas.specs.Values.{no_name, misplaced, bars};
ghost use Rattle.stanzas.specs.Cursors.{rest, Took, NameRead, PackageFault, ListFault, Nothing, SeparatorRead, Begun, token_of};
ghost use Rattle.stanzas.specs.Tokens.{place_of};

use crate::lines::Relation;
use refusals::Refusal;
use texts::bytes::{Blanks, InRun, is_name, scan};
use texts::faults::{Fault, Layer};
use texts::spans::Span;

/// What a value is made of; `Misnamed` is a run that is no good name.
#[derive(Clone, Copy, PartialEq, Eq, Hash, Debug)]
pub(crate) enum Lexeme {
    Name(Span),
    Misnamed(usize),
    Comma(usize),
    Bar(usize),
}

/// What stands after a name in a list of names. The end is one of the three, and no absence of the others.
#[derive(Clone, Copy, PartialEq, Eq, Hash, Debug)]
pub(crate) enum Separator {
    Bar,
    Comma,
    End,
}

/// A place in a value: the text up to the value's end, and the place. A slice of what is left would not tell the place in
/// the file, which faults do.
#[derive(Clone, Copy, Debug)]
pub(crate) struct Cursor<'a> {
    pub(crate) text: &'a [u8],
    pub(crate) at: usize,
}

// Two faults that differ in their parts alone keep a name each: that of the rule.

/// A name breaks the rule, or is missing.
fn no_name(place: usize) -> Fault
    ensures { result ≡ no_name place }
{
    Fault::new(Refusal::BadName, Layer::Name, place)
}

/// A name or a separator stands where the field has none.
fn misplaced(place: usize) -> Fault
    ensures { result ≡ misplaced place }
{
    Fault::new(Refusal::BadLine, Layer::Field, place)
}

impl Relation {
    /// Whether the field has bars.
    fn has_bars(self) -> bool
        ensures { result ≡ bars self }
    {
        self == Relation::Depends
    }
}

impl Lexeme {
    /// Where it begins.
    pub(crate) fn place(self) -> usize
        ensures { result ≡ place_of (token_of [] self) }
    {
        match self {
            Lexeme::Name(span) => span.start,
            Lexeme::Misnamed(place) | Lexeme::Comma(place) | Lexeme::Bar(place) => place,
        }
    }
}

impl Cursor<'_> {
    /// Reads the next token, if there is one.
    pub(crate) fn token(&mut self) -> Option<Lexeme>
        ensures { Took result self.old self.new }
    {
        let at = scan::<Blanks>(self.text, self.at);
        self.at = at;
        if at >= self.text.len() {
            return None;
        }
        match self.text[at] {
            b',' => {
                self.at = at + 1;
                Some(Lexeme::Comma(at))
            }
            b'|' => {
                self.at = at + 1;
                Some(Lexeme::Bar(at))
            }
            _ => {
                let end = scan::<InRun>(self.text, at);
                self.at = end;
                if is_name(&self.text[at..end]) {
                    Some(Lexeme::Name(Span { start: at, end }))
                } else {
                    Some(Lexeme::Misnamed(at))
                }
            }
        }
    }

    /// Reads the name with which the value of a `Package` begins.
    pub(crate) fn only_name(&mut self) -> Result<Span, Fault>
        ensures { NameRead PackageFault result self.old self.new }
    {
        match self.token() {
            Some(Lexeme::Name(span)) => Ok(span),
            Some(Lexeme::Misnamed(place)) => Err(no_name(place)),
            Some(Lexeme::Comma(place) | Lexeme::Bar(place)) => Err(misplaced(place)),
            None => Err(no_name(self.text.len())),
        }
    }

    /// Sees that nothing follows the name of a `Package`.
    pub(crate) fn nothing_more(&mut self) -> Result<(), Fault>
        ensures { Nothing result (rest self.old) }
    {
        match self.token() {
            None => Ok(()),
            Some(lexeme) => Err(misplaced(lexeme.place())),
        }
    }

    /// Reads the name that is due in a list of names.
    pub(crate) fn name(&mut self, relation: Relation) -> Result<Span, Fault>
        ensures { NameRead (ListFault relation) result self.old self.new }
    {
        match self.token() {
            Some(Lexeme::Name(span)) => Ok(span),
            Some(Lexeme::Bar(place)) if !relation.has_bars() => Err(misplaced(place)),
            Some(other) => Err(no_name(other.place())),
            None => Err(no_name(self.text.len())),
        }
    }

    /// Reads what stands after a name in a list of names.
    pub(crate) fn separator(&mut self, relation: Relation) -> Result<Separator, Fault>
        ensures { SeparatorRead relation result self.old self.new }
    {
        match self.token() {
            None => Ok(Separator::End),
            Some(Lexeme::Comma(_)) => Ok(Separator::Comma),
            Some(Lexeme::Bar(_)) if relation.has_bars() => Ok(Separator::Bar),
            Some(other) => Err(misplaced(other.place())),
        }
    }

    /// Whether nothing but blanks is left.
    pub(crate) fn is_done(&mut self) -> bool
        ensures { Begun result self.old self.new }
    {
        self.at = scan::<Blanks>(self.text, self.at);
        self.at >= self.text.len()
    }
}
