// Why a call is refused, and the number that stands for it.
ghost use Rattle.std.specs.Prelude.{◌≡◌, cond};
ghost use Rattle.settings.specs.Refused as Refused;
ghost use Rattle.settings.specs.Refused.{number};

use std::error::Error;
use std::fmt;

#[derive(Clone, Copy, Debug, PartialEq, Eq)]
pub enum Refusal {
    Sides = 1,
    Length = 2,
    Rate = 3,
    Force = 4,
    Face = 5,
    Place = 6,
    NotCopying = 7,
    Lossy = 8,
    // 9 stands with the steady run
    Run = 10,
    FileShort = 12,
    FileVersion = 13,
    FileSides = 14,
    FileLength = 15,
    Order = 16,
    Tally = 17,
}

impl Refusal {
    #[tactic(auto, unfolding(crate::specs::Refused::number))]
    pub fn number(self) -> u32
        ensures { result ≡ number self }
    {
        self as u32
    }
}

impl fmt::Display for Refusal {
    fn fmt<W: fmt::Write>(&self, f: &mut fmt::Formatter<W>) -> fmt::Result {
        f.write_str(match self {
            Refusal::Sides => "a side or the cell count is outside its range",
            Refusal::Length => "a lent buffer or a file has the wrong length",
            Refusal::Rate => "the viscosity, the minus rate or the floor is outside its range",
            Refusal::Force => "a force component is not finite",
            Refusal::Face => "a face's number is outside its range",
            Refusal::Place => "a place or a direction is outside the grid",
            Refusal::NotCopying => "a face does more than copy",
            Refusal::Lossy => "the faces are not lossless",
            Refusal::Run => "the tolerance is not a number, or there are too many steps",
            Refusal::FileShort => "the file ends before its version",
            Refusal::FileVersion => "the file's version is not 1",
            Refusal::FileSides => "the file ends before its sides",
            Refusal::FileLength => "the file's count or length is wrong",
            Refusal::Order => "the obstacles do not ascend",
            Refusal::Tally => "the tally's numbers do not wrap to its first",
        })
    }
}

impl Error for Refusal {}

pub fn number_of<T: Copy>(r: Result<T, Refusal>) -> u32
    ensures { result ≡ Refused.number_of r }
{
    match r {
        Ok(_) => 0,
        Err(why) => why.number(),
    }
}

pub fn unless(bad: bool, why: Refusal) -> Result<(), Refusal>
    ensures { Refused.number_of result ≡ cond bad (number why) 0 }
{
    if bad { Err(why) } else { Ok(()) }
}
