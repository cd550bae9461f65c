// Pairs of two kinds: place = first place * second count + second place.
ghost use Rattle.std.specs.Prelude.{◌≡◌, ℕ, ◌+◌, ◌*◌, ◌/◌, ◌%◌, ◌^◌, ◌<◌, ◌≤◌};
ghost use Rattle.std.specs.Ordering.{ordering_then};
ghost use Rattle.std.proofs.Common.{ap, ◌∙◌, rules};
ghost use Rattle.lawful.specs.Grid.{grid_positive, grid_within, grid_row, grid_same_row, grid_same_column, grid_order};
ghost use Rattle.std.proofs.lemmas.Nat.{mod_below, div-add-mod'};

use crate::key::Key;
use crate::ordered_key::OrderedKey;
use crate::value::EqValue;

// What makes a pair a key: the first kind names the second, and states the pair's count as its own.
pub trait PairWith<B: Key>: Key {
    // The count of the pair.
    const PAIR_COUNT: u64;

    ghost PAIR_COUNT: { ℕ };

    // The count of the pair, which is the product of the two kinds' counts, and at most 2^40.
    fn paired() -> u64
        ensures { (result ≡ PAIR_COUNT) × (result ≡ Self.COUNT * B.COUNT) × (result ≤ 2 ^ 40) }
    {
        Self::PAIR_COUNT
    }

    ghost product: { PAIR_COUNT ≡ Self.COUNT * B.COUNT };

    ghost fits: { PAIR_COUNT ≤ 2 ^ 40 };
}

#[derive(Clone, Copy, PartialEq, Eq, PartialOrd, Ord)]
pub struct Pair<A, B> {
    pub first: A,
    pub second: B,
}

impl<A: EqValue, B: EqValue> EqValue for Pair<A, B> {}

impl<A: PairWith<B>, B: Key> Key for Pair<A, B> {
    const COUNT: u64 = A::PAIR_COUNT;

    ghost COUNT = { A.COUNT * B.COUNT };

    ghost place = { λ k. A.place k.first * B.COUNT + B.place k.second };

    ghost positive = { grid_positive A.COUNT B.COUNT A.positive B.positive };

    ghost small = { Prim.search rules };

    ghost within = { λ k.
        grid_within A.COUNT B.COUNT (A.place k.first) (B.place k.second)
        (A.within k.first) (B.within k.second) };

    ghost onto = { λ p h.
        let m = A.COUNT in
        let n = B.COUNT in
        let a = A.onto (p / n) (grid_row m n p B.positive h) in
        let b = B.onto (p % n) (mod_below p n B.positive) in
        (record { first = a.0; second = b.0 }, ap (λ x. x * n + B.place b.0) a.1 ∙ ap (λ y. p / n * n + y) b.1 ∙ div-add-mod' p n) };

    ghost injective = { λ a b e.
        let n = B.COUNT in
        let h = B.within a.second in
        let k = B.within b.second in
        let x = A.injective a.first b.first (grid_same_row n (A.place a.first) (B.place a.second) (A.place b.first) (B.place b.second) h k e) in
        let y = B.injective a.second b.second (grid_same_column n (A.place a.first) (B.place a.second) (A.place b.first) (B.place b.second) h k e) in
        λ i. record { first = x i; second = y i } };

    fn place(&self) -> u64 {
        self.first.place() * B::COUNT + self.second.place()
    }

    fn at(p: u64) -> Option<Pair<A, B>> {
        let (row, column) = row_and_column(p, B::COUNT);
        let first = A::at(row)?;
        let second = B::at(column)?;
        Some(Pair { first, second })
    }
}

impl<A: PairWith<B>, B: Key> Pair<A, B> {
    // The first key, as `Key` has it.
    pub fn min() -> Pair<A, B>
        ensures { ⟦<Pair<A, B> as Key>⟧.place result ≡ 0 }
    {
        <Pair<A, B> as Key>::min()
    }

    // The last key, as `Key` has it.
    pub fn max() -> Pair<A, B>
        ensures { ⟦<Pair<A, B> as Key>⟧.place result + 1 ≡ ⟦<Pair<A, B> as Key>⟧.COUNT }
    {
        <Pair<A, B> as Key>::max()
    }
}

impl<A: PairWith<B> + OrderedKey, B: OrderedKey> OrderedKey for Pair<A, B> {
    ghost ordered = { λ a b.
        (λ i. ordering_then (A.ordered a.first b.first i) (B.ordered a.second b.second i))
        ∙ grid_order B.COUNT (A.place a.first) (B.place a.second) (A.place b.first) (B.place b.second) (B.within a.second) (B.within b.second) };
}

// Where place p stands in rows of n places; no row from m on has a place below m * n.
fn row_and_column(p: u64, n: u64) -> (u64, u64)
    requires { 0 < n }
    ensures place { result.0 * n + result.1 ≡ p }
    ensures inside { result.1 < n }
    ensures past { (m : ℕ) → m ≤ result.0 → m * n ≤ p }
{
    (p / n, p % n)
}
