// What a kind of keys is: finitely many keys, numbered from 0 without gaps. A key's number is its place.
ghost use Rattle.std.specs.Prelude.{◌≡◌, ℕ, ◌+◌, ◌-◌, ◌^◌, ◌<◌, ◌≤◌, MatchOption};
ghost use Rattle.std.specs.Ordering.{MatchOrdering};

use std::cmp::Ordering;

pub trait Key: Copy + Drop + Sized {
    // how many keys there are
    const COUNT: u64;

    ghost COUNT: { ℕ };

    // the number of a key
    ghost place: { Self → ℕ };

    // The number of a key.
    fn place(&self) -> u64
        ensures { result ≡ place self.now };

    // The key at a place, none from the count on.
    fn at(p: u64) -> Option<Self>
        ensures { MatchOption result (COUNT ≤ p) (λ k. place k ≡ p) };

    // Keys compare as their places.
    fn compare(&self, other: &Self) -> Ordering
        ensures { MatchOrdering result (place self.now < place other.now) (place self.now ≡ place other.now) (place other.now < place self.now) }
    {
        self.place().cmp(&other.place())
    }

    // The key one place up, none past the last.
    fn succ(&self) -> Option<Self>
        ensures { MatchOption result (place self.now + 1 ≡ COUNT) (λ k. place k ≡ place self.now + 1) }
    {
        Self::at(self.place() + 1)
    }

    // The key one place down, none before the first.
    fn pred(&self) -> Option<Self>
        ensures { MatchOption result (place self.now ≡ 0) (λ k. place k + 1 ≡ place self.now) }
    {
        self.place().checked_sub(1).and_then(|p| Self::at(p))
    }

    // The first key.
    fn min() -> Self
        ensures { place result ≡ 0 }
    {
        Self::at(0).unwrap()
    }

    // The last key.
    fn max() -> Self
        ensures { place result + 1 ≡ COUNT }
    {
        Self::at(Self::COUNT - 1).unwrap()
    }

    // How many places up the other key is, 0 where it comes earlier.
    fn distance(&self, other: &Self) -> u64
        ensures { result ≡ place other.now - place self.now }
    {
        other.place().saturating_sub(self.place())
    }

    ghost positive: { 0 < COUNT };

    ghost small: { COUNT ≤ 2 ^ 40 };

    ghost within: { (k : Self) → place k < COUNT };

    // every place below the count has a key
    ghost onto: { (p : ℕ) → p < COUNT → (k : Self) × (place k ≡ p) };

    // different keys have different places
    ghost injective: { (a b : Self) → place a ≡ place b → a ≡ b };
}
