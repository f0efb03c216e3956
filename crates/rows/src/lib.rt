// Rows: the steps that every reader and writer is made of, a line a field.
#![tactic(auto)]

ghost use Rattle.std.specs.Prelude.{◌≡◌, ◌+◌, ◌^◌, ◌<◌, not, ◌==◌};
ghost use Rattle.rows.specs.Why.{number_of};
ghost use Rattle.rows.specs.Inner.Standing.{stand};
ghost use Rattle.rows.specs.Inner.Step.{passes};

use std::num::wrapping_add_u32;

pub mod margin;
pub mod put;
mod step;
pub mod take;

// Why an operation refuses. Document 01, "Refusal numbers".
#[derive(Clone, Copy, Debug, PartialEq, Eq)]
pub enum Why {
    WrongLength = 1,
    PastEnd = 2, // a field runs past the end
    Unknown = 3, // a contract type that there is not, or EnvData2
    OutOfRange = 4,
    LeftOver = 5, // a one after the last field of a list
    ListRule = 6,
    NoFit = 7, // a number too wide, or not zero where its field is absent
    NoneEligible = 8,
    NoPosition = 9,
    MustFall = 10, // a bit would have to fall
    OutsideLimits = 11,
}

impl Why {
    // Its number in document 01.
    pub fn number(self) -> u32
        ensures { result ≡ number_of self }
    {
        self as u32
    }
}

// Where a walk over a record or area stands. After a refusal it stays there. It counts the fields that it has come to, absent ones
// too: so many is the rank of the next field, and once one is at fault, that is the last counted. 5, 6 and the 7
// of a margin are of no field: 0.
#[derive(Clone, Copy, Debug, PartialEq, Eq)]
pub struct Cursor {
    pub at: u32, // the bit reached: the place of the refusal, once there is one
    pub why: Option<Why>, // its refusal
    pub field: u32, // how many fields it has come to
    pub number: u32, // the number read last
}

// When a field is there.
#[derive(Clone, Copy, Debug, PartialEq, Eq)]
pub enum When {
    Always,
    Bit(u32, u32), // a bitmap's number and the element, [0] being its last bit
    Above(u32, u32), // a count and how many entries stand before this one
}

// What the numbers of a field must keep to.
#[derive(Clone, Copy, Debug, PartialEq, Eq)]
pub enum Rule {
    Any,
    Most(u32), // at most so much, else 4
    Tariff, // the third number, a priority, is not 13, else 4
    NoSecond, // element [1] is not marked present, else 3
}

impl Cursor {
    // At the first bit of a record or area.
    pub const START: Cursor = Cursor {
        at: 0,
        why: None,
        field: 0,
        number: 0,
    };

    // Whether the walk has met a refusal.
    pub fn is_refused(self) -> bool
        ensures { result ≡ not ((stand self).why == 0) }
    {
        self.why.is_some()
    }

    // Without a refusal, behind so many fields of so many bits in all. A walk does not know how long its table is, and counts modulo
    // 2^32.
    pub fn passed(self, fields: u32, width: u32, number: u32) -> Cursor
        requires { self.at + width < 2 ^ 32 }
        ensures { stand result ≡ passes (stand self) fields width number }
    {
        Cursor {
            at: self.at + width,
            why: None,
            field: wrapping_add_u32(self.field, fields),
            number,
        }
    }
}
