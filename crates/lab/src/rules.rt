// The rule of both lists, refusal 6.
ghost use Rattle.std.specs.Prelude.{◌≡◌, ◌≢◌, ◌+◌, ◌*◌, ◌≤◌, slice_index, MatchOption};
ghost use Rattle.rows.specs.Row.{among};
ghost use Rattle.records.specs.Answer.{as_answer, refusal_at};
ghost use Rattle.lists.specs.Rules.{keeps};
ghost use Rattle.lists.specs.Listing.{column, at_fault};

use crate::row;
use records::{Refusal, Why};

// The number, from 1, of the first counted entry that does not keep the rule: of so many entries with so many numbers each, the
// bitmap first and the pointer last. Document 01, "Numbers with a range".
#[tactic(auto, using(crate::proofs::Faults::fault_first, crate::proofs::Faults::fault_next, crate::proofs::Faults::fault_past))]
pub(crate) fn at_fault(
    numbers: &[u32],
    entries: u32,
    size: u32,
    full: u32,
    limit: u32,
) -> Option<u32>
    requires { (entries ≤ 8) × (size ≤ 6) }
    ensures { MatchOption result (at_fault entries size full limit numbers.now ≡ 0) (λ entry. (at_fault entries size full limit numbers.now ≡ entry) × (entry ≢ 0)) }
{
    for k in 0..entries.min(row::at(numbers, 0)) {
        if !keeps(numbers, size, k, full, limit) {
            return Some(k + 1);
        }
    }
    None
}

// Whether entry k, from 0, keeps it.
fn keeps(numbers: &[u32], size: u32, k: u32, full: u32, limit: u32) -> bool
    requires { (k ≤ 8) × (size ≤ 6) }
    ensures { result ≡ keeps full limit (column k size size numbers.now) (slice_index numbers.now (1 + size * k)) (slice_index numbers.now (size + size * k)) }
{
    let pointer = of_entry(numbers, size, k, size);
    of_entry(numbers, size, k, 1) / 2 == full
        && 1 <= pointer
        && pointer <= limit
        && !repeated(numbers, size, k, pointer)
}

// Whether an entry before entry k has the pointer.
#[tactic(auto, using(crate::proofs::Faults::column_from))]
fn repeated(numbers: &[u32], size: u32, k: u32, pointer: u32) -> bool
    requires { (k ≤ 8) × (size ≤ 6) }
    ensures { result ≡ among pointer (column k size size numbers.now) }
{
    for i in 0..k {
        if of_entry(numbers, size, i, size) == pointer {
            return true;
        }
    }
    false
}

// The number of entry k whose slot in entry 0 is this one.
fn of_entry(numbers: &[u32], size: u32, k: u32, slot: u32) -> u32
    requires { (k ≤ 8) × (size ≤ 6) × (slot ≤ 6) }
    ensures { result ≡ slice_index numbers.now (slot + size * k) }
{
    row::at(numbers, (slot + size * k) as u64)
}

// The refusal for an entry.
pub(crate) fn against(entry: u32) -> Refusal
    ensures { as_answer result ≡ refusal_at 6 entry 0 }
{
    Refusal {
        why: Why::ListRule,
        place: entry,
        field: 0,
    }
}
