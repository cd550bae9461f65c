// Where a walk stands in the list.
ghost use Rattle.std.specs.Prelude.{◌≡◌};
ghost use Rattle.rangemap.specs.Spots.{address};

// An address, and whether the item there still stands or is used up, to give way to what comes next. (No Result: neither case is a failure.)
#[derive(Clone, Copy)]
pub(crate) enum Spot {
    Kept(usize),
    Spent(usize),
}

impl Spot {
    pub(crate) fn address(self) -> usize
        ensures { result ≡ address self }
    {
        match self {
            Spot::Kept(addr) | Spot::Spent(addr) => addr,
        }
    }
}
