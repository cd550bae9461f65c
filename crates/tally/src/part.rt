// The bytes of a sample that is not whole yet: three cases, and no buffer with a length, so that there is never a third byte.
ghost use Rattle.std.specs.Prelude.{◌≡◌, [], ◌∷◌, ◌++◌, length, MatchOption};
ghost use Rattle.tally.specs.Parts.{part_bytes};

#[derive(Clone, Copy)]
pub enum Part {
    Nothing,
    One(u8),
    Two(u8, u8),
}

impl Part {
    // One byte more: the sample that it completes, if it does.
    pub fn push(&mut self, byte: u8) -> Option<[u8; 3]>
        ensures { MatchOption result (part_bytes self.new ≡ part_bytes self.old ++ byte ∷ []) (λ s. (length (part_bytes self.old) ≡ 2) × (s ≡ part_bytes self.old ++ byte ∷ []) × (part_bytes self.new ≡ [])) }
    {
        match *self {
            Part::Nothing => {
                *self = Part::One(byte);
                None
            }
            Part::One(a) => {
                *self = Part::Two(a, byte);
                None
            }
            Part::Two(a, b) => {
                *self = Part::Nothing;
                Some([a, b, byte])
            }
        }
    }

    // How many bytes there are.
    pub fn len(&self) -> u8
        ensures { result ≡ length (part_bytes self.now) }
    {
        match self {
            Part::Nothing => 0,
            Part::One(_) => 1,
            Part::Two(_, _) => 2,
        }
    }
}
