// Why a call refuses, and where.

ghost use Rattle.std.specs.Prelude.{◌≡◌};

// Why a call refuses, in the order and with the numbers of FORMAT, "Codes and places".
#[derive(Clone, Copy, Debug, PartialEq, Eq)]
pub enum Code {
    Strings = 1,
    Rows = 2,
    Places = 3,
    Names = 4,
    Paths = 5,
    Content = 6,
    Attributes = 7,
    Interleaves = 8,
    Nodes = 9,
    Width = 10,
    NoClass = 11,
    Room = 12,
    Line = 13,
}

// A refusal: its code, and the place of the fault.
#[derive(Clone, Copy, Debug, PartialEq, Eq)]
pub struct Refusal {
    pub code: Code,
    pub place: u32,
}

impl Code {
    ghost use Rattle.tables.specs.Codes.{number_of, refusal_at, refused_by};

    // The number of a code.
    pub fn number(self) -> u32
        ensures { result ≡ number_of self }
    {
        self as u32
    }

    // The refusal with this code at a place.
    pub fn at(self, place: u32) -> Refusal
        ensures { result ≡ refusal_at self place }
    {
        Refusal { code: self, place }
    }

    // What a check says, where it is the one of this code: passed, or refused at the place of its fault.
    pub fn judge(self, checked: Result<(), u32>) -> Result<(), Refusal>
        ensures { result ≡ refused_by self checked }
    {
        checked.map_err(|place| self.at(place))
    }
}
