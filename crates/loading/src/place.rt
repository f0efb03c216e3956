// The pointer that the rule names for a new contract.
ghost use Rattle.std.specs.Prelude.{◌≡◌, ◌&&◌, ◌+◌, ◌-◌, ◌≤◌, length, unwrap_or, IfSome};
ghost use Rattle.lists.specs.Entries.{counted};
ghost use Rattle.lists.specs.Tally.{tally_of};
ghost use Rattle.loading.specs.Inner.Marks.{marked};
ghost use Rattle.loading.specs.Inner.Tallied.{Shows, lowest_zero};
ghost use Rattle.loading.specs.Place.{within, erasable, lowest_free, first_erasable, or_else, place};

use crate::Order;
use lists::list::{ContractList, Entry};
use lists::tally::Positions;

// None where the rule names none. The marks are those of blocked pointers; which are in use, and whether any entry is used up, the
// list's tally says. Counter pointers are 1 to c, the others up to n plain.
pub fn place(list: ContractList, marks: &[bool], order: Order) -> Option<u32>
    requires { (length marks.now ≡ 9) × (order.n ≤ 8) × (order.c ≤ order.n) × (list.tally ≡ tally_of order.c (counted list)) }
    ensures pointer { unwrap_or result 0 ≡ place (marked marks.now) order.n order.c order.counter (counted list) }
    ensures some { IfSome result (λ pointer. 1 ≤ pointer) }
{
    let counter = list.tally.counter;
    if order.counter {
        return free_or_erasable(list, counter, marks, 1, order.c);
    }
    let plain = list.tally.plain;
    if let Some(pointer) = free_or_erasable(list, plain, marks, order.c + 1, order.n) {
        return Some(pointer);
    }
    free_or_erasable(list, counter, marks, 1, order.c)
}

// Of the pointers from a first to a last: the lowest that is free, or else that of the erasable entry listed first.
fn free_or_erasable(
    list: ContractList,
    positions: Positions,
    marks: &[bool],
    first: u32,
    last: u32,
) -> Option<u32>
    requires { Shows (counted list) first last positions × (length marks.now ≡ 9) × (1 ≤ first) × (first ≤ last + 1) × (last ≤ 8) }
    ensures pointer { unwrap_or result 0 ≡ or_else (lowest_free (counted list) (last + 1 - first) first) (first_erasable (marked marks.now) first last (counted list)) }
    ensures some { IfSome result (λ pointer. 1 ≤ pointer) }
{
    if let Some(free) = lowest_zero(positions.used, last + 1 - first, first) {
        return Some(free);
    }
    if positions.spent == 0 {
        return None;
    }
    first_erasable(list, marks, first, last)
}

// Of n pointers, from a first one on, the lowest whose bit is zero.
fn lowest_zero(used: u32, n: u32, first: u32) -> Option<u32>
    requires { (1 ≤ first) × (first + n ≤ 9) }
    ensures pointer { unwrap_or result 0 ≡ lowest_zero used n first }
    ensures some { IfSome result (λ pointer. 1 ≤ pointer) }
{
    for p in first..first + n {
        if (used >> (p - 1)) % 2 == 0 {
            return Some(p);
        }
    }
    None
}

// Of the pointers from a first to a last, that of the erasable entry listed first.
fn first_erasable(list: ContractList, marks: &[bool], first: u32, last: u32) -> Option<u32>
    requires { (length marks.now ≡ 9) × (1 ≤ first) × (last ≤ 8) }
    ensures pointer { unwrap_or result 0 ≡ first_erasable (marked marks.now) first last (counted list) }
    ensures some { IfSome result (λ pointer. 1 ≤ pointer) }
{
    let n = list.len();
    for entry in &list.entries[..n] {
        if erasable(*entry, marks, first, last) {
            return Some(entry.pointer);
        }
    }
    None
}

fn erasable(entry: Entry, marks: &[bool], first: u32, last: u32) -> bool
    requires { (length marks.now ≡ 9) × (last ≤ 8) }
    ensures { result ≡ within first last entry.pointer && erasable (marked marks.now) entry }
{
    first <= entry.pointer
        && entry.pointer <= last
        && entry.priority == Entry::ERASABLE
        && !marks[entry.pointer as usize]
}
