// The tally of an input that comes in chunks.
ghost use Rattle.std.specs.Prelude.{◌≡◌, ℕ, List, [], ◌∷◌, ◌++◌, length};
ghost use Rattle.std.specs.List.{flat_map};
ghost use Rattle.tally.specs.Input.{Tallied, left_over_bytes};
ghost use Rattle.tally.specs.Parts.{part_bytes};

use crate::counts::Counts;
use crate::part::Part;
use kinds::{RawCount, band_of};

#[derive(Clone, Copy)]
pub struct Tally {
    counts: Counts,
    part: Part,
}

impl Tally {
    // The tally of no input.
    pub fn new() -> Tally
        ensures { Tallied [] result }
    {
        Tally {
            counts: Counts::default(),
            part: Part::Nothing,
        }
    }

    // Takes the next chunk of the input; a sample may lie across two chunks. (Of every input that may have come so far, where a
    // ghost field would say it of one.)
    pub fn take(&mut self, chunk: &[u8])
        ensures { (seen : List ℕ) → Tallied seen self.old → Tallied (seen ++ chunk.now) self.new }
    {
        for &byte in chunk {
            self.push(byte);
        }
    }

    fn push(&mut self, byte: u8)
        ensures { (seen : List ℕ) → Tallied seen self.old → Tallied (seen ++ byte ∷ []) self.new }
    {
        if let Some(bytes) = self.part.push(byte) {
            let count = RawCount::from(bytes);
            self.counts.add(&count, band_of(&count));
        }
    }

    pub fn counts(&self) -> Counts
        ensures { result ≡ self.now.counts }
    {
        self.counts
    }

    // How many bytes stand after the last whole sample.
    pub fn left_over(&self) -> u8
        ensures { result ≡ length (part_bytes self.now.part) }
    {
        self.part.len()
    }
}

// The tally of the whole input, given in chunks of any lengths.
pub fn tally_of(chunks: &[&[u8]]) -> Tally
    ensures { Tallied (flat_map (λ chunk. chunk.now) chunks.now) result }
{
    let mut tally = Tally::new();
    for chunk in chunks {
        tally.take(chunk);
    }
    tally
}
