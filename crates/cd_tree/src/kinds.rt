//! Kinds of faults and sets of them.

ghost use Rattle.std.specs.Prelude.{◌≡◌, ◌↔◌, ◌<◌, ◌≤◌, ◌^◌, IsTrue, bit_or, bit_and, nat_lt};
ghost use Rattle.cd_tree.specs.Limits.{kinds_limit};
ghost use Rattle.cd_tree.specs.KindSets.{no_kinds, with_kind, has_kind, kinds_without, halting};

use crate::limits::MOST_KINDS;
use cd_base::Text;
use std::marker::Model;

/// A kind of fault, by its number in the order of declaration, from 0. A number from `MOST_KINDS` on is no kind.
#[derive(Debug, Clone, Copy, PartialEq, Eq)]
pub struct Kind(pub u8);

/// A kind's name, and whether a note of it ends a try at its point.
#[derive(Drop)]
pub struct KindName {
    pub name: Text,
    pub halts: bool,
}

/// The kinds that halt, of a document's names in the order of declaration. A name past the limit is that of no kind. It
/// takes no memory.
pub fn halting(names: &[KindName]) -> Kinds
    ensures { result ≡ halting names.now }
{
    let mut kinds = Kinds::none();
    for (at, name) in names.iter().enumerate() {
        if name.halts {
            kinds = kinds.with_number(at);
        }
    }
    kinds
}

// Whether a number is a kind's.
fn is_kind(number: usize) -> bool
    ensures { result ≡ nat_lt number kinds_limit }
{
    number < MOST_KINDS as usize
}

/// A set of kinds. Contracts see the number whose bit k says whether kind k is in it.
#[derive(Debug, Clone, Copy, PartialEq, Eq)]
pub struct Kinds {
    bits: u16,
}

impl Model for Kinds {
    ghost use Rattle.std.specs.Prelude.{ℕ, ◌<◌, ◌^◌};

    ghost Value = { ℕ };

    ghost view = { λ kinds. kinds.bits };

    ghost inverse = { λ bits. record { bits = bits } };
}

impl Kinds {
    /// The empty set.
    pub fn none() -> Kinds
        ensures { result ≡ no_kinds }
    {
        Kinds { bits: 0 }
    }

    /// This set with a kind. A number that is no kind leaves the set as it is.
    pub fn with(self, kind: Kind) -> Kinds
        ensures { result ≡ with_kind self kind }
    {
        if is_kind(kind.0 as usize) {
            Kinds {
                bits: self.bits | (1 << kind.0),
            }
        } else {
            self
        }
    }

    // This set with the kind of a number.
    fn with_number(self, number: usize) -> Kinds
        ensures { result ≡ with_kind self (record { 0 = number }) }
    {
        if is_kind(number) {
            self.with(Kind(number as u8))
        } else {
            self
        }
    }

    /// The kinds of this set that are not in another.
    pub fn without(self, others: Kinds) -> Kinds
        ensures { result ≡ kinds_without self others }
    {
        Kinds {
            bits: self.bits ^ (self.bits & others.bits),
        }
    }

    /// The kinds of either set.
    pub fn union(self, other: Kinds) -> Kinds
        ensures { result ≡ bit_or self other }
    {
        Kinds {
            bits: self.bits | other.bits,
        }
    }

    /// The kinds of both sets.
    pub fn meet(self, other: Kinds) -> Kinds
        ensures { result ≡ bit_and self other }
    {
        Kinds {
            bits: self.bits & other.bits,
        }
    }

    /// Whether a kind is in the set.
    pub fn has(self, kind: Kind) -> bool
        ensures { result ≡ has_kind self kind }
    {
        is_kind(kind.0 as usize) && (self.bits >> kind.0) % 2 == 1
    }

    /// Whether the set has none but the first `count` kinds.
    pub(crate) fn are_below(self, count: usize) -> bool
        requires { count ≤ kinds_limit }
        ensures { IsTrue result ↔ (self < 2 ^ count) }
    {
        u32::from(self.bits) < 1 << count
    }

    /// Whether the set is empty.
    pub fn is_none(self) -> bool
        ensures { IsTrue result ↔ (self ≡ no_kinds) }
    {
        self.bits == 0
    }
}
