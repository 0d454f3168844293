// A set of numbers below 32, as racks are and the places of a stripe's blocks.
ghost use Rattle.std.specs.Prelude.{◌≡◌, ◌^◌, ◌<◌, if◌then◌else◌, bit_or, bit_xor, count_ones, nat_lt};
ghost use Rattle.site.specs.Words.{member};

use std::marker::Model;

/// A set of numbers below 32. A clause sees its word, in which bit i, the lowest being bit 0, is 1 where i is in the set.
#[derive(Clone, Copy, PartialEq, Eq, Debug)]
pub struct NumberSet {
    word: u32,
}

impl Model for NumberSet {
    ghost use Rattle.std.specs.Prelude.{ℕ, ◌<◌, ◌^◌};

    ghost Value = { ℕ };

    ghost view = { λ s. s.word };

    ghost invariant = { λ s. s.word < 2 ^ 32 };

    ghost inverse = { λ w. record { word = w } };
}

/// The set that a word writes.
impl From<u32> for NumberSet {
    ghost from_gives = { λ word set. set ≡ word };

    fn from(word: u32) -> NumberSet {
        NumberSet { word }
    }
}

/// The word that writes a set.
impl From<NumberSet> for u32 {
    ghost from_gives = { λ set word. word ≡ set };

    fn from(set: NumberSet) -> u32 {
        set.word
    }
}

impl NumberSet {
    /// Whether a number is in the set. None from 32 on is.
    pub fn has(self, i: u32) -> bool
        ensures { result ≡ member self i }
    {
        i < 32 && (self.word >> i) % 2 == 1
    }

    /// The set with one more number, if it is below 32.
    pub fn with(self, i: u32) -> NumberSet
        ensures { result ≡ (if nat_lt i 32 then bit_or self (2 ^ i) else self) }
    {
        if i < 32 {
            NumberSet {
                word: self.word | (1 << i),
            }
        } else {
            self
        }
    }

    /// The set without a number.
    pub fn without(self, i: u32) -> NumberSet
        ensures { result ≡ (if member self i then bit_xor self (2 ^ i) else self) }
    {
        if self.has(i) {
            NumberSet {
                word: self.word ^ (1 << i),
            }
        } else {
            self
        }
    }

    /// How many numbers are in the set.
    pub fn len(self) -> u32
        ensures value { result ≡ count_ones self }
        ensures fits { self < 2 ^ 32 }
    {
        self.word.count_ones()
    }
}
