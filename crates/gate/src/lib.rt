// Gate writes. A gate can only raise bits of a record: here are applying, finding and joining such writes.
#![tactic(auto)]

ghost use Rattle.std.specs.Prelude.{◌≡◌, ◌<◌, ◌≤◌, ◌/◌, ◌%◌, length, slice_index, EachIndex, MatchOption};
ghost use Rattle.bits.specs.Bits.{spread, leading, join as joined};
ghost use Rattle.records.specs.Answer.{answer_of};
ghost use Rattle.gate.specs.Writes.{applying, finding, joining, applied, only, writes_of};

use records::{BITS, BYTES, MOST_RECORDS, Refusal, Why};

// Raises in the lent record every bit that is one in a lent write.
#[tactic(auto, unfolding(crate::specs::Writes::applying))]
pub fn apply(record: &mut [u8], writes: &[u8]) -> Result<(), Refusal>
    ensures { record { answer = answer_of result; bytes = «record».new } ≡ applying «record».old writes.now }
{
    if record.len() != BYTES || writes.len() % BYTES != 0 {
        return Err(Refusal::WRONG_LENGTH);
    }
    if MOST_RECORDS < writes.len() / BYTES {
        return Err(Refusal::OUTSIDE_LIMITS);
    }
    raise_all(record, writes);
    Ok(())
}

// The writes, one after the other.
fn raise_all(record: &mut [u8], writes: &[u8])
    requires { (length «record».old ≡ 29) × (length writes.now % 29 ≡ 0) }
    ensures { spread 8 «record».new ≡ applied (spread 8 «record».old) (writes_of (length writes.now / 29) writes.now) }
{
    for write in writes.chunks_exact(BYTES) {
        raise(record, write);
    }
}

// Every bit that is one in the write is one in the record after.
fn raise(record: &mut [u8], write: &[u8])
    requires { length «record».old ≡ length write.now }
    ensures { spread 8 «record».new ≡ joined (spread 8 «record».old) (spread 8 write.now) }
{
    for (i, byte) in record.iter_mut().enumerate() {
        *byte |= write[i];
    }
}

// Writes to the third record the bits that are one in wanted and zero in present: 10 where a bit would have to fall.
#[tactic(auto, unfolding(crate::specs::Writes::finding))]
pub fn find(present: &[u8], wanted: &[u8], write: &mut [u8]) -> Result<(), Refusal>
    ensures { record { answer = answer_of result; bytes = write.new } ≡ finding present.now wanted.now write.old }
{
    if present.len() != BYTES || wanted.len() != BYTES || write.len() != BYTES {
        return Err(Refusal::WRONG_LENGTH);
    }
    if let Some(place) = first_fall(present, wanted) {
        return Err(Refusal {
            why: Why::MustFall,
            place,
            field: 0,
        });
    }
    keep_only(wanted, present, write);
    Ok(())
}

// The first bit that is one in present and zero in wanted.
fn first_fall(present: &[u8], wanted: &[u8]) -> Option<u32>
    requires { (length present.now ≡ 29) × (length wanted.now ≡ 29) }
    ensures { let at = leading (only (spread 8 present.now) (spread 8 wanted.now)) in
        MatchOption result (232 ≤ at) (λ place. (place ≡ at) × (place < 232)) }
{
    let mut falls = [0u8; BYTES];
    keep_only(present, wanted, &mut falls);
    let mut words = [0u64; 8];
    bits::words(&falls, &mut words);
    let place = bits::next_one(&words, BITS, 0);
    (place < BITS).then_some(place)
}

// The bits that are one in a and zero in b.
fn keep_only(a: &[u8], b: &[u8], out: &mut [u8])
    requires { (length a.now ≡ length out.old) × (length b.now ≡ length out.old) }
    ensures { spread 8 out.new ≡ only (spread 8 a.now) (spread 8 b.now) }
{
    each_byte(a, b, out, |x, y| (x | y) - y);
}

// Each byte of the third is made of the two at its place.
fn each_byte<F: Fn(u8, u8) -> u8>(a: &[u8], b: &[u8], out: &mut [u8], made: F)
    requires long { (length a.now ≡ length out.old) × (length b.now ≡ length out.old) }
    requires callable { F.IsAlwaysCallable made }
    ensures { EachIndex out.new (λ i. F.post made (slice_index a.now i) (slice_index b.now i) (slice_index out.new i)) }
{
    for (i, byte) in out.iter_mut().enumerate() {
        *byte = made(a[i], b[i]);
    }
}

// Writes to the third record the two writes as one: bitwise or.
#[tactic(auto, unfolding(crate::specs::Writes::joining))]
pub fn join(a: &[u8], b: &[u8], write: &mut [u8]) -> Result<(), Refusal>
    ensures { record { answer = answer_of result; bytes = write.new } ≡ joining a.now b.now write.old }
{
    if a.len() != BYTES || b.len() != BYTES || write.len() != BYTES {
        return Err(Refusal::WRONG_LENGTH);
    }
    both(a, b, write);
    Ok(())
}

// The bits that are one in a or in b.
fn both(a: &[u8], b: &[u8], out: &mut [u8])
    requires { (length a.now ≡ length out.old) × (length b.now ≡ length out.old) }
    ensures { spread 8 out.new ≡ joined (spread 8 a.now) (spread 8 b.now) }
{
    each_byte(a, b, out, |x, y| x | y);
}
