// A run: the bits of lent bytes, one after another.
ghost use Rattle.std.specs.Prelude.{◌≡◌, ◌*◌, ◌<◌, ◌≤◌, false, ◌++◌, map, length, take, drop, slice_index_or, MatchOption};
ghost use Rattle.bits.specs.Bits.{bit, number, zeros, spread, cut, cleared, leading};
ghost use Rattle.lab.specs.Layout.{row_of};
ghost use Rattle.lab.specs.Machine.{reader, begun, run};

use crate::state::State;

// The bit at a place: bit 0 is the top bit of byte 0.
pub fn bit_at(bytes: &[u8], place: u32) -> bool
    ensures { result ≡ slice_index_or (spread 8 bytes.now) place false }
{
    match bytes.get(place as usize / 8) {
        Some(byte) => (byte >> (7 - place % 8)) % 2 == 1,
        None => false,
    }
}

// The state behind the last bit.
pub(crate) fn run(rows: &[u64], most: u32, bytes: &[u8]) -> State
    requires { length bytes.now ≤ 116 }
    ensures { reader result ≡ run (map (row_of most) rows.now) (begun (map (row_of most) rows.now) most (8 * length bytes.now)) (spread 8 bytes.now) }
{
    let room = 8 * bytes.len() as u32;
    let mut state = State::begin(rows, most, room);
    for place in 0..room {
        state = state.step(rows, bit_at(bytes, place));
    }
    state
}

// The margin behind the last field, which ends at a bit: words of 64 bits, zeros before that bit and behind the last.
pub(crate) fn margin<const M: usize>(bytes: &[u8], end: u32) -> [u64; M]
    requires { M ≤ 15 }
    ensures { result ≡ cut 64 64 M (cleared end (spread 8 bytes.now)) }
{
    let mut words = [0; M];
    for (k, word) in words.iter_mut().enumerate() {
        *word = margin_word(bytes, end, 64 * k as u32);
    }
    words
}

// The word of a margin that begins at a bit.
fn margin_word(bytes: &[u8], end: u32, from: u32) -> u64
    requires { from ≤ 960 }
    ensures { result ≡ number (take 64 (drop from (cleared end (spread 8 bytes.now)) ++ zeros 64)) }
{
    let mut word = 0;
    for k in 0..64 {
        word = word * 2 + margin_bit(bytes, end, from + k);
    }
    word
}

// The bit of a margin at a place.
fn margin_bit(bytes: &[u8], end: u32, place: u32) -> u64
    ensures { result ≡ bit (slice_index_or (cleared end (spread 8 bytes.now)) place false) }
{
    (end <= place && bit_at(bytes, place)) as u64
}

// The place of the first one from a bit on.
pub(crate) fn first_one(bytes: &[u8], from: u32) -> Option<u32>
    requires { length bytes.now ≤ 116 }
    ensures { MatchOption result (leading (cleared from (spread 8 bytes.now)) ≡ length (cleared from (spread 8 bytes.now))) (λ place. (place ≡ leading (cleared from (spread 8 bytes.now))) × (place < 8 * length bytes.now)) }
{
    for place in from..8 * bytes.len() as u32 {
        if bit_at(bytes, place) {
            return Some(place);
        }
    }
    None
}
