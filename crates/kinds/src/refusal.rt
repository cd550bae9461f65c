// Why a key or a value is not made.
ghost use Rattle.std.specs.Prelude.{◌≡◌, Some};
ghost use Rattle.kinds.specs.Refusals.{kind_refusal_number, kind_refusal_text};

use std::error::Error;
use std::fmt;

#[derive(Clone, Copy, PartialEq, Eq, Debug)]
pub enum KindRefusal {
    // a field is outside its limits
    BadKey,
}

// The number that stands for the refusal in files and listings.
impl From<KindRefusal> for u8 {
    ghost from_gives = { λ refusal number. number ≡ kind_refusal_number refusal };

    fn from(refusal: KindRefusal) -> u8 {
        match refusal {
            KindRefusal::BadKey => 8,
        }
    }
}

impl fmt::Display for KindRefusal {
    ghost output = { λ refusal. Some (kind_refusal_text refusal) };

    fn fmt<W: fmt::Write>(&self, f: &mut fmt::Formatter<W>) -> fmt::Result {
        match self {
            KindRefusal::BadKey => f.write_str("a field is outside its limits"),
        }
    }
}

impl Error for KindRefusal {}
