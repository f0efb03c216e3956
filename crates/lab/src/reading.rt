// The readings that the structures share: a run, and what its last state tells.
ghost use Rattle.std.specs.Prelude.{◌≡◌, ◌≤◌, false, map, length, Ok, Err};
ghost use Rattle.bits.specs.Bits.{spread};
ghost use Rattle.rows.specs.Walk.{slots, read_bare};
ghost use Rattle.records.specs.Answer.{heard, answered};
ghost use Rattle.lists.specs.Listing.{at_fault, read_list};
ghost use Rattle.lab.specs.Layout.{row_of};
ghost use Rattle.lab.specs.Inner.Reading.{Fits, said, read_with};

use crate::{rules, run};
use records::{Refusal, Why};

// A table's numbers, the first of N, and its margin in words of 64 bits.
pub(crate) fn with_margin<const N: usize, const M: usize>(
    rows: &[u64],
    bytes: &[u8],
) -> Result<([u32; N], [u64; M]), Refusal>
    requires { Fits (map (row_of 0) rows.now) (length bytes.now) N × (M ≤ 15) }
    ensures { said (slots (map (row_of 0) rows.now)) result ≡ read_with M (map (row_of 0) rows.now) bytes.now }
{
    let state = run::run(rows, 0, bytes);
    state.met()?;
    let mut numbers = [0; N];
    numbers.copy_from_slice(&state.numbers[..N]);
    Ok((numbers, run::margin(bytes, state.start)))
}

// A list's numbers, held to its rule: of so many entries with so many numbers each.
pub(crate) fn listed<const N: usize>(
    rows: &[u64],
    bytes: &[u8],
    entries: u32,
    size: u32,
    full: u32,
    limit: u32,
) -> Result<[u32; N], Refusal>
    requires { Fits (map (row_of limit) rows.now) (length bytes.now) N × (slots (map (row_of limit) rows.now) ≡ N) × (length bytes.now ≡ 29) × (entries ≤ 8) × (size ≤ 6) }
    ensures { heard result ≡ read_list Ok Err (at_fault entries size full limit) false (map (row_of limit) rows.now) bytes.now }
{
    let numbers = bare(rows, limit, bytes)?;
    match rules::at_fault(&numbers, entries, size, full, limit) {
        Some(entry) => Err(rules::against(entry)),
        None => Ok(numbers),
    }
}

// A list's numbers: 5 at the first one in its margin.
fn bare<const N: usize>(rows: &[u64], most: u32, bytes: &[u8]) -> Result<[u32; N], Refusal>
    requires { Fits (map (row_of most) rows.now) (length bytes.now) N × (slots (map (row_of most) rows.now) ≡ N) }
    ensures { heard result ≡ answered Ok Err (read_bare (map (row_of most) rows.now) (spread 8 bytes.now)) }
{
    let state = run::run(rows, most, bytes);
    state.met()?;
    if let Some(place) = run::first_one(bytes, state.start) {
        return Err(Refusal {
            why: Why::LeftOver,
            place,
            field: 0,
        });
    }
    let mut numbers = [0; N];
    numbers.copy_from_slice(&state.numbers[..N]);
    Ok(numbers)
}
