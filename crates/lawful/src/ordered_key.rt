// A kind of keys whose own order, too, is that of its places: what asks for it compares keys by `<`, `==` and `cmp`.
ghost use Rattle.std.specs.Prelude.{◌≡◌};
ghost use Rattle.std.specs.Ordering.{nat_cmp};

use crate::key::Key;

// `Ord` has a `min` and a `max` of two keys, beside which `RawCount::min()` could mean either: each such type here
// gives both in its own `impl`, and its name means those. In code over any `K: OrderedKey`, `<K as Key>::min()` does.
pub trait OrderedKey: Key + Ord {
    // keys compare by `cmp` as their places
    ghost ordered: { (a b : Self) → Self.cmp a b ≡ nat_cmp (Self.place a) (Self.place b) };
}
