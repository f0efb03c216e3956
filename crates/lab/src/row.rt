// A row of a layout is one number, the sum of what is said of its field: the width, in bits, and what follows here. Nothing more is
// a field of one box that is always there and takes every number of its width. No struct of its parts: over tables of such the checker
// takes minutes (docs/DECISIONS.md, Q-6), and docs/CONTRACTS.md promises the functions that take a row apart.
#![tactic(auto, unfolding(crate::specs::Layout::boxes_of, crate::specs::Layout::cond_of, crate::specs::Layout::rule_of), using(rows::proofs::Stepping::total_same, crate::proofs::Rows::some_width, crate::proofs::Rows::box_even))]

ghost use Rattle.std.specs.Prelude.{◌≡◌, ◌^◌, ◌<◌, length, drop, slice_index};
ghost use Rattle.rows.specs.Inner.Standing.{why_of};
ghost use Rattle.rows.specs.Row.{told, holds, broken};
ghost use Rattle.rows.specs.Walk.{total};
ghost use Rattle.lab.specs.Layout.{width_of, letters_of, when_of, slot_of, element_of, rule_number, limit_of, cond_of, boxes_of, rule_of};
ghost use Rattle.lab.specs.Machine.{box_at};

use records::Why;

// How the parts of a row that say when and the rule are numbered; 0 is always, and any number. They are numbers and no enum, since
// `when` and `rule` have the contracts that docs/CONTRACTS.md names, `when_of` and `rule_number`.
const BY_BIT: u64 = 1;

const BY_COUNT: u64 = 2;

const LIMITED: u64 = 1;

const OF_TARIFF: u64 = 2;

const WITHOUT_SECOND: u64 = 3;

const LIMITED_BY_N: u64 = 4;

// A text of so many letters, each of that width.
pub const LETTERS: u64 = 1 << 8;

// The field is there where bit [e] of the bitmap in a slot is one: WHEN_BIT + SLOT * slot + BIT * e.
pub const WHEN_BIT: u64 = BY_BIT << 16;

// It is there where the count in a slot is above k: WHEN_ABOVE + SLOT * slot + ENTRY * k.
pub const WHEN_ABOVE: u64 = BY_COUNT << 16;

pub const SLOT: u64 = 1 << 24;

pub const BIT: u64 = 1 << 32;

pub const ENTRY: u64 = BIT;

// Its number is at most m: AT_MOST + LIMIT * m.
pub const AT_MOST: u64 = LIMITED << 40;

pub const LIMIT: u64 = 1 << 44;

// It is a list's tariff, of three boxes of 4, 8 and 4 bits; the third, the priority, is not 13.
pub const TARIFF: u64 = OF_TARIFF << 40;

// Its element [1] is not marked.
pub const NO_SECOND: u64 = WITHOUT_SECOND << 40;

// Its number is at most that of the card's contract records.
pub const AT_MOST_N: u64 = LIMITED_BY_N << 40;

// The parts of a row.
pub fn width(row: u64) -> u64
    ensures { result ≡ width_of row }
{
    row % LETTERS
}

pub fn letters(row: u64) -> u64
    ensures { result ≡ letters_of row }
{
    row / LETTERS % 256
}

pub fn when(row: u64) -> u64
    ensures { result ≡ when_of row }
{
    row / WHEN_BIT % 256
}

pub fn slot(row: u64) -> u64
    ensures { result ≡ slot_of row }
{
    row / SLOT % 256
}

// The element of a bitmap, or the entry.
pub fn element(row: u64) -> u64
    ensures { result ≡ element_of row }
{
    row / BIT % 32
}

pub fn rule(row: u64) -> u64
    ensures { result ≡ rule_number row }
{
    row / AT_MOST % 16
}

pub fn limit(row: u64) -> u64
    ensures { result ≡ limit_of row }
{
    row / LIMIT
}

// How many boxes the field has.
pub fn boxes(row: u64) -> u64
    ensures { result ≡ length (boxes_of row) }
{
    match (rule(row), letters(row)) {
        (OF_TARIFF, _) => 3,
        (_, 0) => 1,
        (_, letters) => letters,
    }
}

// How many bits it has in all.
pub fn bits(row: u64) -> u64
    ensures { result ≡ total (boxes_of row) }
{
    match (rule(row), letters(row)) {
        (OF_TARIFF, _) => 16,
        (_, 0) => width(row),
        (_, letters) => letters * width(row),
    }
}

// Which of its boxes its bit p is in.
pub(crate) fn box_at(row: u64, p: u64) -> u64
    requires { p < total (boxes_of row) }
    ensures { result ≡ box_at (boxes_of row) p }
{
    match (rule(row), letters(row)) {
        (OF_TARIFF, _) if p < 4 => 0,
        (OF_TARIFF, _) if p < 12 => 1,
        (OF_TARIFF, _) => 2,
        (_, 0) => 0,
        _ => p / width(row),
    }
}

// The number in a slot, 0 where there is none.
pub(crate) fn at(numbers: &[u32], slot: u64) -> u32
    ensures { result ≡ slice_index numbers.now slot }
{
    numbers.get(slot as usize).copied().unwrap_or(0)
}

// Whether it is there, after the numbers so far.
pub(crate) fn there(row: u64, numbers: &[u32]) -> bool
    ensures { result ≡ holds (told (cond_of row) numbers.now) }
{
    let marks = at(numbers, slot(row));
    match when(row) {
        BY_BIT => (marks >> element(row)) % 2 == 1,
        BY_COUNT => element(row) < marks as u64,
        _ => true,
    }
}

// The number of the refusal, where its rule is broken by its numbers, those from slot first on.
pub(crate) fn broken(row: u64, most: u32, numbers: &[u32], first: u64) -> Option<Why>
    requires { first < 2 ^ 32 }
    ensures { why_of result ≡ broken (rule_of most row) (drop first numbers.now) }
{
    let number = at(numbers, first);
    match rule(row) {
        LIMITED => (limit(row) < number as u64).then_some(Why::OutOfRange),
        OF_TARIFF => (at(numbers, first + 2) == 13).then_some(Why::OutOfRange),
        WITHOUT_SECOND => (number / 2 % 2 == 1).then_some(Why::Unknown),
        LIMITED_BY_N => (most < number).then_some(Why::OutOfRange),
        _ => None,
    }
}
