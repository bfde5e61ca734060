//! What is wrong with a file.
ghost use Rattle.std.specs.Prelude.{◌≡◌, Some};
ghost use Rattle.texts.specs.Faults.{fault, layer_word, fault_line, refused_line};
ghost use Rattle.texts.specs.declared.faults.ReadError.TheVariants.{Faulty, OutOfMemory};

use refusals::Refusal;
use std::alloc::{AllocError, AllocFailed};
use std::error::Error;
use std::fmt;
use thiserror::Error;

/// Where a fault was noticed: in a name, in the value of a field, or in the file.
#[derive(Clone, Copy, PartialEq, Eq, Hash, Debug)]
pub enum Layer {
    Name,
    Field,
    File,
}

impl Layer {
    /// Its word, as reports print it.
    pub fn word(self) -> &'static str
        ensures { result.now ≡ layer_word self }
    {
        match self {
            Layer::Name => "name",
            Layer::Field => "field",
            Layer::File => "file",
        }
    }
}

// By hand, and once more like `Refusal`'s: a derived `Display` states no output, and one for all that has a word would
// overlap with every other.
impl fmt::Display for Layer {
    ghost output = { λ x. Some (layer_word x) };

    fn fmt<W: fmt::Write>(&self, f: &mut fmt::Formatter<W>) -> fmt::Result {
        f.write_str(self.word())
    }
}

/// A fault: the rule that is broken, the layer that noticed it, and the byte where.
#[derive(Clone, Copy, PartialEq, Eq, Hash, Debug)]
pub struct Fault {
    pub refusal: Refusal,
    pub layer: Layer,
    pub place: usize,
}

impl Fault {
    /// The fault with these parts.
    pub fn new(refusal: Refusal, layer: Layer, place: usize) -> Fault
        ensures { result ≡ fault refusal layer place }
    {
        Fault {
            refusal,
            layer,
            place,
        }
    }
}

// By hand: a derived `Display` states no output.
impl fmt::Display for Fault {
    ghost output = { λ x. Some (fault_line x) };

    fn fmt<W: fmt::Write>(&self, f: &mut fmt::Formatter<W>) -> fmt::Result {
        write!(
            f,
            "{} {} {} {}",
            self.refusal.number(),
            self.refusal,
            self.layer,
            self.place
        )
    }
}

impl Error for Fault {}

/// The line `(refused NUMBER WORD LAYER PLACE)` of a fault.
#[derive(Clone, Copy, PartialEq, Eq, Hash, Debug)]
pub struct RefusedLine(pub Fault);

// By hand: a derived `Display` states no output.
impl fmt::Display for RefusedLine {
    ghost output = { λ x. Some (refused_line x) };

    fn fmt<W: fmt::Write>(&self, f: &mut fmt::Formatter<W>) -> fmt::Result {
        write!(f, "(refused {})", self.0)
    }
}

/// Why a file was not read: a fault in it, or want of memory.
#[derive(Clone, Copy, PartialEq, Eq, Hash, Debug, Error)]
pub enum ReadError {
    #[error("refused: {0}")]
    Faulty(Fault),
    #[error("out of memory")]
    OutOfMemory,
}

// By hand, all three: a derived `From` does not say which error `?` makes.
impl From<Fault> for ReadError {
    ghost from_gives = { λ x r. r ≡ Faulty x };

    fn from(fault: Fault) -> ReadError {
        ReadError::Faulty(fault)
    }
}

impl From<AllocError> for ReadError {
    ghost from_gives = { λ _ r. r ≡ OutOfMemory };

    fn from(_error: AllocError) -> ReadError {
        ReadError::OutOfMemory
    }
}

impl<T: Drop> From<AllocFailed<T>> for ReadError {
    ghost from_gives = { λ _ r. r ≡ OutOfMemory };

    fn from(failed: AllocFailed<T>) -> ReadError {
        ReadError::from(AllocError::from(failed))
    }
}
