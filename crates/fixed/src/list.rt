// A list in fixed room. A clause sees the list of its items and nothing of the room.
ghost use Rattle.std.specs.Prelude.{◌≡◌, ◌<◌, ◌≤◌, ◌==◌, [], ◌∷◌, ◌++◌, length, MatchResult, slice_get, slice_set, min, replicate, ⊤};
ghost use Rattle.std.specs.List.{list_any};

use std::alloc::AllocError;
use std::marker::Model;

/// What stands in the places of a list that are not used, so that equal lists are equal values. `Default` would not do: it names
/// no value that a clause could speak of.
pub trait Blank {
    ghost blank: { Self };

    fn blank() -> Self
        ensures { result ≡ blank };
}

impl Blank for u16 {
    ghost blank = { 0 };

    fn blank() -> u16 {
        0
    }
}

impl Blank for u32 {
    ghost blank = { 0 };

    fn blank() -> u32 {
        0
    }
}

/// Why an item was not put into a list: all its room is used.
#[derive(Clone, Copy, PartialEq, Eq, Debug)]
pub struct Full;

/// Up to `N` items.
pub struct FixedList<T: Blank, const N: usize> {
    at: [T; N],
    len: usize,
}

impl<T: Blank, const N: usize> Model for FixedList<T, N> {
    ghost use Rattle.std.specs.Prelude.{◌≡◌, ◌-◌, ◌≤◌, ◌++◌, List, length, take, drop, replicate};
    ghost use Rattle.fixed.specs.Blanks.{whole, front-len};

    ghost Value = { List T };

    ghost view = { λ s. take s.len s.at };

    ghost invariant = { λ s. (s.len ≤ N) × (length s.at ≡ N) × (drop s.len s.at ≡ replicate (N - s.len) T.blank) };

    ghost inverse = { λ xs. record { at = xs ++ replicate (N - length xs) T.blank; len = length xs } };

    ghost inverse_ok = { λ s h i. record { at = whole N s.len s.at T.blank h.0 h.1 h.2 i; len = front-len N s.len s.at h.0 h.1 i } };
}

// By hand: a derived copy goes field by field, and the prover does not see that it keeps the invariant (tried).
impl<T: Blank + Copy, const N: usize> Copy for FixedList<T, N> {}

impl<T: Blank + Copy, const N: usize> Clone for FixedList<T, N> {
    ghost is_clone = { λ x y. y ≡ x };

    ghost is_infallible = { λ _. ⊤ };

    fn clone(&self) -> Result<Self, AllocError> {
        Ok(*self)
    }
}

impl<T: Blank + Copy, const N: usize> FixedList<T, N> {
    /// No items.
    pub fn new() -> Self
        ensures { result ≡ [] }
    {
        FixedList {
            at: [T::blank(); N],
            len: 0,
        }
    }

    /// A list of blank items, as many as there is room for.
    pub fn blanks(len: usize) -> Self
        ensures { result ≡ replicate (min len N) T.blank }
    {
        FixedList {
            at: [T::blank(); N],
            len: len.min(N),
        }
    }

    /// How many items there are.
    pub fn len(&self) -> usize
        ensures value { result ≡ length self.now }
        ensures few { result ≤ N }
    {
        self.as_slice().len()
    }

    /// Whether there is no item.
    pub fn is_empty(&self) -> bool
        ensures { result ≡ (length self.now == 0) }
    {
        self.len == 0
    }

    /// The items, in order.
    pub fn as_slice(&self) -> &[T]
        ensures value { result.now ≡ self.now }
        ensures few { length result.now ≤ N }
    {
        &self.at[..self.len]
    }

    /// The item at place `i` from 0.
    pub fn get(&self, i: usize) -> Option<T>
        ensures { result ≡ slice_get self.now i }
    {
        self.as_slice().get(i).copied()
    }

    /// One more item at the end, unless all the room is used.
    pub fn push(&mut self, item: T) -> Result<(), Full>
        ensures { MatchResult result
            (λ _. (length self.old < N) × (self.new ≡ self.old ++ item ∷ []))
            (λ _. (length self.old ≡ N) × (self.new ≡ self.old)) }
    {
        if self.len == N {
            return Err(Full);
        }
        self.at[self.len] = item;
        self.len += 1;
        Ok(())
    }

    /// Another item at place `i`, if there is such a place.
    pub fn set(&mut self, i: usize, item: T)
        ensures { self.new ≡ slice_set self.old i item }
    {
        if i < self.len {
            self.at[i] = item;
        }
    }
}

impl<T: Blank + Copy, const N: usize> Blank for FixedList<T, N> {
    ghost blank = { [] };

    fn blank() -> FixedList<T, N> {
        FixedList::new()
    }
}

impl<T: Blank + Copy, const N: usize> TryFrom<&[T]> for FixedList<T, N> {
    type Error = Full;

    ghost try_from_gives = { λ items r. MatchResult r (λ list. (length items.now ≤ N) × (list ≡ items.now)) (λ _. N < length items.now) };

    fn try_from(items: &[T]) -> Result<Self, Full> {
        if items.len() > N {
            return Err(Full);
        }
        let mut at = [T::blank(); N];
        // Over all the room, which is known beforehand: a loop over the items becomes a call that copies bytes (measured).
        for i in 0..N {
            if let Some(item) = items.get(i) {
                at[i] = *item;
            }
        }
        Ok(FixedList {
            at,
            len: items.len(),
        })
    }
}

impl<T: Blank + Copy + PartialEq, const N: usize> FixedList<T, N> {
    /// Whether an item is among them.
    pub fn contains(&self, item: &T) -> bool
        ensures { result ≡ list_any (λ y. T.eq y item.now) self.now }
    {
        self.as_slice().contains(item)
    }
}
