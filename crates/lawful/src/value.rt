// What a kind of values is: it has an equality of its own, and promises speak of no other.
ghost use Rattle.std.specs.Prelude.{◌≡◌, Bool};
ghost use Rattle.std.specs.Cmp.{IsEquivalence};

pub trait Value: Copy + Drop + Sized {
    ghost equals: { Self → Self → Bool };

    fn equals(&self, other: &Self) -> bool
        ensures { result ≡ equals self.now other.now };

    ghost lawful: { IsEquivalence equals };
}

// A kind of values that are equal where `==` says so.
pub trait EqValue: Copy + Drop + Eq + Sized {}

impl<T: EqValue> Value for T {
    ghost equals = { T.eq };

    ghost lawful = { T.Eq.laws };

    fn equals(&self, other: &T) -> bool {
        *self == *other
    }
}

impl EqValue for bool {}

impl EqValue for char {}

impl EqValue for i8 {}

impl EqValue for i16 {}

impl EqValue for i32 {}

impl EqValue for i64 {}

impl EqValue for isize {}

impl EqValue for u8 {}

impl EqValue for u16 {}

impl EqValue for u32 {}

impl EqValue for u64 {}

impl EqValue for usize {}
