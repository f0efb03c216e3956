// The margin of a value, the last of its words: a byte string.
use crate::answer::Answer;
use crate::scan;
use crate::scan::Words;
use records::BYTES;
use rows::margin::Margin;

// The bytes of a Holder's margin, whatever its area.
pub const AREA_BYTES: usize = 4 * BYTES;

pub fn answer(out: &mut Answer, margin: Margin) {
    let mut bytes = [0; BYTES];
    fill(&mut bytes, &margin.words());
    out.bytes(&bytes);
}

pub fn take(words: &mut Words) -> Option<Margin> {
    Some(Margin::of(take_bits(words, BYTES)?))
}

// A byte string of just so many bytes, eight a number, high byte first; another length is no request.
pub fn take_bits<const N: usize>(words: &mut Words, wanted: usize) -> Option<[u64; N]> {
    let mut space = [0; scan::BYTES];
    if words.bytes(&mut space)?.len() != wanted {
        return None;
    }
    let mut bits = [0; N];
    for (eight, bytes) in bits.iter_mut().zip(space.as_chunks().0) {
        *eight = u64::from_be_bytes(*bytes);
    }
    Some(bits)
}

// The bytes of numbers, eight each.
pub fn fill(bytes: &mut [u8], bits: &[u64]) {
    for (part, eight) in bytes.chunks_mut(8).zip(bits) {
        put_eight(part, *eight);
    }
}

// As many of a number's bytes as there is room for, high byte first.
fn put_eight(part: &mut [u8], eight: u64) {
    for (byte, own) in part.iter_mut().zip(&eight.to_be_bytes()) {
        *byte = *own;
    }
}
