//! Sets of component numbers, one machine word wide.
//!
//! Every call is total: a number at or past the limit is no member of any set, and adding or taking it out changes nothing.
#![tactic(auto)]

ghost use Rattle.std.specs.Prelude.{◌≡◌, ℕ, ◌-◌, ◌^◌, ◌<◌, false, not, ◌&&◌, ◌||◌, MatchBool, MatchOption, ◌==◌, bit_and, bit_or, count_ones, nat_lt};
ghost use Rattle.sets.specs.Limit.{limit};
ghost use Rattle.sets.specs.Sets.{has, minus, within, meets, with_member, below, count, First, MadeOf, Subset, Beyond, Meet, Apart};
ghost use Rattle.std.specs.Iterator.{at_most};

use std::fmt;
use std::marker::Model;
use std::ops::{BitAnd, BitOr, Sub};

/// The word that holds a set. A wider limit is another word here and another number in `specs/Limit.antt`.
type Word = u64;

/// A set of component numbers.
#[derive(Clone, Copy, PartialEq, Eq, PartialOrd, Ord, Hash, Default)]
pub struct ComponentSet {
    bits: Word,
}

impl Model for ComponentSet {
    ghost Value = { ℕ };

    ghost view = { λ s. s.bits };

    ghost invariant = { λ s. s.bits < 2 ^ limit };

    ghost inverse = { λ n. record { bits = n } };
}

/// The word whose one member is `component`.
#[tactic(auto, using(crate::proofs::Calls::calls))]
fn bit(component: usize) -> Word
    requires { component < limit }
    ensures { result ≡ 2 ^ component }
{
    1 << component
}

#[tactic(auto, using(crate::proofs::Calls::calls))]
impl ComponentSet {
    /// How many components there can be: a set holds numbers below this.
    pub const LIMIT: usize = Word::BITS as usize;

    /// The set without members.
    pub const fn empty() -> Self
        ensures value { result ≡ 0 }
        ensures members { (i : ℕ) → has result i ≡ false }
    {
        ComponentSet { bits: 0 }
    }

    /// The numbers below `n`.
    pub fn full(n: usize) -> Self
        ensures value { result ≡ below n }
        ensures members { (i : ℕ) → has result i ≡ (nat_lt i n && nat_lt i limit) }
    {
        if n >= Self::LIMIT {
            return ComponentSet { bits: Word::MAX };
        }
        ComponentSet { bits: bit(n) - 1 }
    }

    /// Whether `component` is a member. A set is its members: no other set has the same.
    pub fn contains(self, component: usize) -> bool
        ensures value { result ≡ has self component }
        ensures extensional { (t : ℕ) → ((i : ℕ) → has t i ≡ has self i) → t ≡ self }
        ensures bounded { self < 2 ^ limit }
    {
        component < Self::LIMIT && self.bits >> component & 1 == 1
    }

    /// The set with one more member.
    pub fn with(self, component: usize) -> Self
        ensures value { result ≡ with_member self component }
        ensures members { (i : ℕ) → has result i ≡ (has self i || (i == component && nat_lt i limit)) }
    {
        if component >= Self::LIMIT {
            return self;
        }
        ComponentSet {
            bits: self.bits | bit(component),
        }
    }

    /// The set with one member less.
    pub fn without(self, component: usize) -> Self
        ensures value { result ≡ minus self (2 ^ component) }
        ensures members { (i : ℕ) → has result i ≡ (has self i && not (i == component)) }
    {
        if component >= Self::LIMIT {
            return self;
        }
        ComponentSet {
            bits: self.bits & !bit(component),
        }
    }

    /// The members of either.
    pub fn union(self, other: Self) -> Self
        ensures value { result ≡ bit_or self other }
        ensures members { (i : ℕ) → has result i ≡ (has self i || has other i) }
    {
        ComponentSet {
            bits: self.bits | other.bits,
        }
    }

    /// The members of both.
    pub fn intersection(self, other: Self) -> Self
        ensures value { result ≡ bit_and self other }
        ensures members { (i : ℕ) → has result i ≡ (has self i && has other i) }
    {
        ComponentSet {
            bits: self.bits & other.bits,
        }
    }

    /// The members that `other` does not have.
    pub fn difference(self, other: Self) -> Self
        ensures value { result ≡ minus self other }
        ensures members { (i : ℕ) → has result i ≡ (has self i && not (has other i)) }
    {
        ComponentSet {
            bits: self.bits & !other.bits,
        }
    }

    /// Whether `other` has every member.
    pub fn is_subset(self, other: Self) -> bool
        ensures value { result ≡ within self other }
        ensures cases { MatchBool result (Subset self other) (Beyond self other) }
    {
        self.bits & other.bits == self.bits
    }

    /// Whether the two have a member in common.
    pub fn intersects(self, other: Self) -> bool
        ensures value { result ≡ meets self other }
        ensures cases { MatchBool result (Meet self other) (Apart self other) }
    {
        self.bits & other.bits != 0
    }

    /// Whether there is no member.
    pub fn is_empty(self) -> bool
        ensures { result ≡ (self == 0) }
    {
        self.bits == 0
    }

    /// How many members there are.
    pub fn len(self) -> usize
        ensures { result ≡ count self }
    {
        self.bits.count_ones() as usize
    }

    /// The least member.
    pub fn first(self) -> Option<usize>
        ensures { MatchOption result (self ≡ 0) (λ i. (i < limit) × First self i) }
    {
        if self.bits == 0 {
            return None;
        }
        Some(self.bits.trailing_zeros() as usize)
    }

    /// The members, ascending.
    pub fn iter(self) -> Members
        ensures { result ≡ self }
    {
        Members { rest: self }
    }
}

impl<const N: usize> From<[usize; N]> for ComponentSet {
    ghost from_gives = { MadeOf };

    /// The set of these numbers.
    fn from(components: [usize; N]) -> Self {
        let mut set = Self::empty();
        for component in components {
            set = set.with(component);
        }
        set
    }
}

impl IntoIterator for ComponentSet {
    type Item = usize;

    type IntoIter = Members;

    ghost into_iter_gives = { λ s r. r ≡ s };

    fn into_iter(self) -> Members {
        self.iter()
    }
}

impl BitOr for ComponentSet {
    type Output = Self;

    ghost bitor_gives = { λ a b r. r ≡ bit_or a b };

    fn bitor(self, rhs: Self) -> Self {
        self.union(rhs)
    }
}

impl BitAnd for ComponentSet {
    type Output = Self;

    ghost bitand_gives = { λ a b r. r ≡ bit_and a b };

    fn bitand(self, rhs: Self) -> Self {
        self.intersection(rhs)
    }
}

impl Sub for ComponentSet {
    type Output = Self;

    ghost sub_gives = { λ a b r. r ≡ minus a b };

    fn sub(self, rhs: Self) -> Self {
        self.difference(rhs)
    }
}

impl fmt::Debug for ComponentSet {
    /// The members between braces, as `{0, 3}`, whatever width or layout is asked for.
    fn fmt<W: fmt::Write>(&self, f: &mut fmt::Formatter<W>) -> fmt::Result {
        write!(f, "{:?}", Braced(self.iter()))
    }
}

/// Members to print. What `write!` prints it prints plainly, so the set is one line in any layout.
#[derive(Clone, Copy)]
struct Braced(Members);

impl fmt::Debug for Braced {
    fn fmt<W: fmt::Write>(&self, f: &mut fmt::Formatter<W>) -> fmt::Result {
        f.debug_set().entries(self.0).finish()
    }
}

/// The members of a set that are still to come, ascending. A contract sees their set.
#[derive(Clone, Copy, Debug)]
pub struct Members {
    rest: ComponentSet,
}

impl Model for Members {
    ghost Value = { ℕ };

    ghost view = { λ m. m.rest };

    ghost inverse = { λ n. record { rest = n } };
}

impl Iterator for Members {
    type Item = usize;

    ghost next_gives = { λ s r t. MatchOption r (s ≡ 0) (λ i. (i < limit) × First s i × (t ≡ minus s (2 ^ i))) };

    ghost remaining = { λ s. at_most (count_ones s) };

    fn next(&mut self) -> Option<usize> {
        let component = self.rest.first()?;
        self.rest = self.rest.without(component);
        Some(component)
    }
}
