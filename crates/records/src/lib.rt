// The records of a card as values: each structure is read from lent bytes and written to them.
#![tactic(auto, using(rows::proofs::Ready::took_ready, rows::proofs::Ready::gave_ready, rows::proofs::Ready::gave_long))]

ghost use Rattle.std.specs.Prelude.{◌≡◌};
ghost use Rattle.rows.specs.Inner.Standing.{stand};
ghost use Rattle.records.specs.Answer.{answer_of};
ghost use Rattle.records.specs.Order.{record_at};
ghost use Rattle.records.specs.Inner.Met.{met};

use rows::Cursor;
pub use rows::Why;

pub mod environment;
pub mod event;

// Why an operation refuses, and where.
#[derive(Clone, Copy, Debug, PartialEq, Eq)]
pub struct Refusal {
    pub why: Why,
    pub place: u32,
    pub field: u32, // the rank of the field at fault, from 0 in card order, absent ones counted; 0 also where none is named
}

impl Refusal {
    // The ones that have no place in a record and name no field.
    pub const WRONG_LENGTH: Refusal = Refusal {
        why: Why::WrongLength,
        place: 0,
        field: 0,
    };

    pub const UNKNOWN_TYPE: Refusal = Refusal {
        why: Why::Unknown,
        place: 0,
        field: 0,
    };

    pub const NONE_ELIGIBLE: Refusal = Refusal {
        why: Why::NoneEligible,
        place: 0,
        field: 0,
    };

    pub const NO_POSITION: Refusal = Refusal {
        why: Why::NoPosition,
        place: 0,
        field: 0,
    };

    pub const OUTSIDE_LIMITS: Refusal = Refusal {
        why: Why::OutsideLimits,
        place: 0,
        field: 0,
    };

    // What a walk met: nothing where it came to its end. At fault is the last field that it counted.
    pub fn met(c: Cursor) -> Result<(), Refusal>
        ensures { answer_of result ≡ met (stand c) }
    {
        match c.why {
            None => Ok(()),
            Some(why) => Err(Refusal {
                why,
                place: c.at,
                field: c.field.saturating_sub(1),
            }),
        }
    }
}

// The bytes and the bits of a record.
pub const BYTES: usize = 29;

pub const BITS: u32 = 232;

// The most records of a journal, and of gate writes in one call.
pub const MOST_RECORDS: usize = 15;

// The last day that a date can name, and the last minute of a day.
pub const LAST_DAY: u32 = 16383;

pub const LAST_MINUTE: u32 = 1439;

// The record at a pointer, from 1, as a part of a lent file; an empty part where the file has none.
pub fn part(file: &[u8], pointer: u32) -> &[u8]
    ensures { result.now ≡ record_at file.now pointer }
{
    let k = pointer as usize;
    if k < 1 {
        return &file[0..0];
    }
    if file.len() / BYTES < k {
        return &file[0..0];
    }
    let start = BYTES * (k - 1);
    &file[start..start + BYTES]
}
