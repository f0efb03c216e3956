// Bits and numbers at a place of some bytes.
#![tactic(auto)]

ghost use Rattle.std.specs.Prelude.{◌≡◌, ℕ, Bool, false, List, ◌++◌, ◌+◌, ◌*◌, ◌/◌, ◌<◌, ◌≤◌, ◌^◌, min, eqb, length, get_or, slice_index, take, drop};
ghost use Rattle.bits.specs.Bits.{number, spread, zeros, cut, bits_of, leading, cleared};
ghost use Rattle.bits.specs.Inner.Words.{number_at};

// Eight bytes from byte i on as one number, high byte first.
fn eight(bytes: &[u8], i: usize) -> u64
    requires { i + 8 ≤ length bytes.now }
    ensures { result ≡ number (take 64 (drop (8 * i) (spread 8 bytes.now) ++ zeros 64)) }
{
    u64::from_be_bytes([
        bytes[i],
        bytes[i + 1],
        bytes[i + 2],
        bytes[i + 3],
        bytes[i + 4],
        bytes[i + 5],
        bytes[i + 6],
        bytes[i + 7],
    ])
}

// The words of a record of 29 bytes, in a straight line. Word j holds the 64 bits from bit 32 × j on, zeros past the end: a
// number of up to 32 bits that begins in a word's first 32 bits stands whole in it. Here and in the readers a slice is handed on as
// `&bytes[..]`: of one handed on as it was lent the compiler keeps pointer and length in memory.
pub fn words(bytes: &[u8], words: &mut [u64; 8])
    requires { (length bytes.now ≡ 29) × (length words.old ≡ 8) }
    ensures { words.new ≡ cut 32 64 8 (spread 8 bytes.now) }
{
    let all = &bytes[..];
    // No `for j in 0..6`: tried, it took a list 8 instructions more, of 832.
    words[0] = eight(all, 0);
    words[1] = eight(all, 4);
    words[2] = eight(all, 8);
    words[3] = eight(all, 12);
    words[4] = eight(all, 16);
    words[5] = eight(all, 20);
    // The last five bytes, and zeros.
    let last = eight(all, 21) << 24;
    words[6] = last;
    words[7] = last << 32;
}

// The words of an area of any length.
pub fn area_words(bytes: &[u8], words: &mut [u64])
    ensures { words.new ≡ cut 32 64 (length words.old) (spread 8 bytes.now) }
{
    for (j, place) in words.iter_mut().enumerate() {
        *place = word(bytes, j);
    }
}

// The word of some bytes from bit 32 × j on, zeros past the end.
fn word(bytes: &[u8], j: usize) -> u64
    requires { j < 2 ^ 60 }
    ensures { result ≡ number (take 64 (drop (32 * j) (spread 8 bytes.now) ++ zeros 64)) }
{
    let i = 4 * j;
    if i + 8 <= bytes.len() {
        return eight(bytes, i);
    }
    u64::from_be_bytes([
        byte(bytes, i),
        byte(bytes, i + 1),
        byte(bytes, i + 2),
        byte(bytes, i + 3),
        byte(bytes, i + 4),
        byte(bytes, i + 5),
        byte(bytes, i + 6),
        byte(bytes, i + 7),
    ])
}

// Byte i, or zero past the end.
fn byte(bytes: &[u8], i: usize) -> u8
    ensures { result ≡ get_or bytes.now i 0 }
{
    bytes.get(i).copied().unwrap_or(0)
}

// Whether the bit at a place is one; past the end none is.
pub fn is_one(bytes: &[u8], at: u32) -> bool
    ensures { result ≡ get_or (spread 8 bytes.now) at false }
{
    let byte = byte(bytes, at as usize / 8);
    (byte >> (7 - at % 8)) % 2 == 1
}

// A word that begins with bit start of some bits, with zeros before bit at.
pub fn cleared(word: u64, start: u32, at: u32) -> u64
    ensures { (bs : List Bool) → word ≡ number (take 64 (drop start bs ++ zeros 64))
        → result ≡ number (take 64 (drop start (cleared at bs) ++ zeros 64)) }
{
    if at <= start {
        return word;
    }
    if at - start < 64 {
        let before = at - start;
        return (word << before) >> before;
    }
    0
}

// The bits from bit at on, where they stand, in words of 64 bits each.
pub fn rest(words: &[u64], at: u32, out: &mut [u64])
    requires { (2 * length out.old ≤ length words.now) × (length words.now < 65536) }
    ensures { (bs : List Bool) → words.now ≡ cut 32 64 (length words.now) bs
        → out.new ≡ cut 64 64 (length out.old) (cleared at bs) }
{
    for (k, place) in out.iter_mut().enumerate() {
        *place = cleared(words[2 * k], 64 * k as u32, at);
    }
}

// Whether every bit of some words is zero.
pub fn all_zero(words: &[u64]) -> bool
    ensures { result ≡ eqb (leading (spread 64 words.now)) (64 * length words.now) }
{
    words.iter().all(|word| *word == 0)
}

// The number in the w bits from bit at on: one load and three shifts.
pub fn number(words: &[u64], at: u32, w: u32) -> u32
    requires { (at / 32 < length words.now) × (w ≤ 32) }
    ensures { result ≡ number_at words.now at w }
{
    let word = words[(at / 32) as usize];
    (((word << (at % 32)) >> 32) >> (32 - w)) as u32
}

// The place of the first one from bit at on, or the end. (No Option, here and in the next two: a caller compares the place with an end of
// its own, and with an Option would have to give it one for none first.)
pub fn next_one(words: &[u64], end: u32, at: u32) -> u32
    requires { (at ≤ end) × ((end / 32 < length words.now) × (end < 65536)) }
    ensures { (bs : List Bool) → length bs ≡ end → words.now ≡ cut 32 64 (length words.now) bs → result ≡ at + leading (drop at bs) }
{
    let skip = number(words, at, 32).leading_zeros();
    if skip < 32 {
        return at + skip;
    }
    next_in_words(words, end, at / 32 + 1)
}

// The place of the first one from bit 32 × from on, by whole words, or the end.
fn next_in_words(words: &[u64], end: u32, from: u32) -> u32
    requires { (from ≤ end / 32 + 1) × ((end / 32 < length words.now) × (end < 65536)) }
    ensures { (bs : List Bool) → length bs ≡ end → words.now ≡ cut 32 64 (length words.now) bs → result ≡ min (32 * from) end + leading (drop (32 * from) bs) }
{
    for j in (from..end.div_ceil(32)).step_by(2) {
        let skip = words[j as usize].leading_zeros();
        if skip < 64 {
            return 32 * j + skip;
        }
    }
    end
}

// The place of the first one from a bit on, in words of 64 bits each, or their end.
pub fn first_one(whole: &[u64], from: u32) -> u32
    requires { (from ≤ 64 * length whole.now) × (length whole.now < 1024) }
    ensures { result ≡ from + leading (drop from (spread 64 whole.now)) }
{
    for k in from / 64..whole.len() as u32 {
        let at = from.max(64 * k);
        let ahead = whole[k as usize] << (at % 64);
        if ahead != 0 {
            return at + ahead.leading_zeros();
        }
    }
    64 * whole.len() as u32
}

// Lays the w bits of v behind the bits of a draft, words of 32 bits that are zeros from bit at on.
pub fn lay(draft: &mut [u64], at: u32, w: u32, v: u32)
    requires { (at / 32 + 1 < length draft.old) × ((w ≤ 32) × (v < 2 ^ w)) }
    ensures { (out : List Bool) → length out ≡ at → draft.old ≡ cut 32 32 (length draft.old) out
        → draft.new ≡ cut 32 32 (length draft.old) (out ++ bits_of w v) }
{
    let j = (at / 32) as usize;
    let x = 2 * ((v as u64) << (63 - at % 32 - w));
    draft[j] |= x >> 32;
    draft[j + 1] = x % 4294967296;
}

// Lays the bits of whole words, 64 each, behind the bits of a draft, up to whose end they are zeros.
pub fn lay_words(draft: &mut [u64], whole: &[u64])
    requires { 2 * length whole.now ≤ length draft.old }
    ensures { (out : List Bool) → length out ≤ leading (spread 64 whole.now) → draft.old ≡ cut 32 32 (length draft.old) out
        → draft.new ≡ cut 32 32 (length draft.old) (out ++ drop (length out) (spread 64 whole.now)) }
{
    for (k, word) in whole.iter().enumerate() {
        draft[2 * k] |= *word >> 32;
        draft[2 * k + 1] |= *word % 4294967296;
    }
}

// The bytes of a draft: four of each word, then those that are left.
pub fn pack(draft: &[u64], bytes: &mut [u8])
    requires { length bytes.old ≤ 4 * length draft.now }
    ensures { (out : List Bool) → draft.now ≡ cut 32 32 (length draft.now) out
        → bytes.new ≡ cut 8 8 (length bytes.old) out }
{
    let packed = pack_words(draft, bytes);
    for i in packed..bytes.len() {
        bytes[i] = ((draft[i / 4] >> (24 - 8 * (i % 4))) % 256) as u8;
    }
}

// How many bytes, four of each word, are written from the front.
fn pack_words(draft: &[u64], bytes: &mut [u8]) -> usize
    requires { length bytes.old ≤ 4 * length draft.now }
    ensures upper_bound { result ≤ length bytes.old }
    ensures bytes_after { (out : List Bool) → draft.now ≡ cut 32 32 (length draft.now) out
        → (k : ℕ) → k < result → slice_index bytes.new k ≡ slice_index (cut 8 8 (length bytes.old) out) k }
{
    let n = bytes.len() / 4;
    for j in 0..n {
        let word = (draft[j] % 4294967296) as u32;
        bytes[4 * j..4 * j + 4].copy_from_slice(&word.to_be_bytes());
    }
    4 * n
}
