//! The labels of a packet.
//!
//! They are one number of 32 bits, in the code and in the model. The law `labels_are_a_set` says that its words are
//! those of sets.
ghost use Rattle.std.specs.Prelude.{◌≡◌, ◌<◌};
ghost use Rattle.ts_packet.specs.Labels.{has_label, joined, no_labels, shares_label, with_label};

use std::marker::Model;

/// The number of labels; each is below it.
pub const LABEL_COUNT: u32 = 32;

/// The labels of a packet: a set of numbers from 0 to 31, which `filter` sets and the plugins after it look at.
///
/// They are not part of the packet's bytes. Contracts see the number whose binary digit n is 1 where n is a label.
#[derive(Clone, Copy, Debug, PartialEq, Eq)]
pub struct Labels {
    bits: u32,
}

impl Model for Labels {
    ghost use Rattle.std.specs.Prelude.{ℕ, ◌<◌, ◌^◌};

    ghost Value = { ℕ };

    ghost view = { λ l. l.bits };

    ghost invariant = { λ l. l.bits < 2 ^ 32 };

    ghost inverse = { λ bits. record { bits = bits } };
}

impl Labels {
    /// The empty set.
    #[inline]
    pub fn none() -> Labels
        ensures { result ≡ no_labels }
    {
        Labels { bits: 0 }
    }

    /// Whether the number, below 32, is a label.
    #[inline]
    pub fn has(&self, n: u32) -> bool
        requires { n < LABEL_COUNT }
        ensures { result ≡ has_label self.now n }
    {
        self.bits >> n & 1 == 1
    }

    /// The same labels and this number, which is below 32.
    #[inline]
    pub fn with(self, n: u32) -> Labels
        requires { n < LABEL_COUNT }
        ensures { result ≡ with_label self n }
    {
        Labels {
            bits: self.bits | 1 << n,
        }
    }

    /// The labels of both sets.
    #[inline]
    pub fn union(self, other: Labels) -> Labels
        ensures { result ≡ joined self other }
    {
        Labels {
            bits: self.bits | other.bits,
        }
    }

    /// Whether some number is a label of both sets.
    #[inline]
    pub fn shares(self, other: Labels) -> bool
        ensures { result ≡ shares_label self other }
    {
        self.bits & other.bits != 0
    }
}
