//! Why a call is declined: the refusals, each with its number and its word, and want of memory beside them.
#![tactic(auto)]

ghost use Rattle.std.specs.Prelude.{◌≡◌, Some};
ghost use Rattle.refusals.specs.Refusals.{number_of, word_of};
ghost use Rattle.refusals.specs.declared.Failure.TheVariants.{Refused, OutOfMemory};

use std::alloc::{AllocError, AllocFailed};
use std::error::Error;
use std::fmt;
use thiserror::Error;

/// A rule of the rule book that declines a call. A declined call alters nothing.
#[derive(Clone, Copy, PartialEq, Eq, Hash, Debug)]
pub enum Refusal {
    BadLine = 1,
    StrayField = 2,
    BadName = 3,
    NameTwice = 4,
    TooMany = 5,
    TableFull = 6,
    NoComponent = 7,
    NoClause = 8,
    NotIrrelevant = 9,
    NotRedundant = 10,
    NotFlat = 11,
    NotAlike = 12,
    NoInstallation = 13,
    TooShort = 14,
    SelfClash = 15,
    TooLong = 16,
}

impl Refusal {
    /// Its number in the rule book. A method: `u8::from` would not say that it is that number.
    pub fn number(self) -> u8
        ensures { result ≡ number_of self }
    {
        self as u8
    }

    /// Its word, as reports print it.
    pub fn word(self) -> &'static str
        ensures { result.now ≡ word_of self }
    {
        match self {
            Refusal::BadLine => "bad-line",
            Refusal::StrayField => "stray-field",
            Refusal::BadName => "bad-name",
            Refusal::NameTwice => "name-twice",
            Refusal::TooMany => "too-many",
            Refusal::TableFull => "table-full",
            Refusal::NoComponent => "no-component",
            Refusal::NoClause => "no-clause",
            Refusal::NotIrrelevant => "not-irrelevant",
            Refusal::NotRedundant => "not-redundant",
            Refusal::NotFlat => "not-flat",
            Refusal::NotAlike => "not-alike",
            Refusal::NoInstallation => "no-installation",
            Refusal::TooShort => "too-short",
            Refusal::SelfClash => "self-clash",
            Refusal::TooLong => "too-long",
        }
    }
}

// By hand, and like `Layer`'s of the faults: a derived `Display` states no output, and one for all that has a word would overlap
// with every other.
impl fmt::Display for Refusal {
    ghost output = { λ x. Some (word_of x) };

    fn fmt<W: fmt::Write>(&self, f: &mut fmt::Formatter<W>) -> fmt::Result {
        f.write_str(self.word())
    }
}

impl Error for Refusal {}

/// Why something was not made: a refusal, or want of memory, which is no refusal and has no number.
///
/// What is not read has a type like it, `ReadError` of `texts`. One type for both, generic in the reason, asks callers to write
/// the reason's type where nothing tells it, and its `Debug` has one word for a refusal and for a fault.
#[derive(Clone, Copy, PartialEq, Eq, Hash, Debug, Error)]
pub enum Failure {
    #[error("refused: {0}")]
    Refused(Refusal),
    #[error("out of memory")]
    OutOfMemory,
}

// By hand, all three: a derived `From` does not say which failure `?` makes.
impl From<Refusal> for Failure {
    ghost from_gives = { λ x r. r ≡ Refused x };

    fn from(refusal: Refusal) -> Failure {
        Failure::Refused(refusal)
    }
}

impl From<AllocError> for Failure {
    ghost from_gives = { λ _ r. r ≡ OutOfMemory };

    fn from(_error: AllocError) -> Failure {
        Failure::OutOfMemory
    }
}

impl<T: Drop> From<AllocFailed<T>> for Failure {
    ghost from_gives = { λ _ r. r ≡ OutOfMemory };

    fn from(failed: AllocFailed<T>) -> Failure {
        Failure::from(AllocError::from(failed))
    }
}
