// Bytes as text, for the programs.
#![tactic(auto)]

ghost use Rattle.std.specs.Prelude.{◌≡◌, Bool, true, ℕ, ◌+◌, ◌*◌, ◌≤◌, length};
ghost use Rattle.text.specs.Hex.{choose, worth, all_digits, spelt, spells};

// What a digit 0-9 A-F is worth; 16 for what is none, as `worth` has it: a None would be no plainer, its clause would make it 16 again.
fn digit(b: u8) -> u8
    ensures { result ≡ worth b }
{
    match b {
        48..=57 => b - 48,
        65..=70 => b - 55,
        _ => 16,
    }
}

fn all_digits(text: &[u8]) -> bool
    ensures { result ≡ all_digits text.now }
{
    text.iter().all(|b| digit(*b) < 16)
}

// Fills the lent bytes with those that a text spells. A text of another length, or with another letter, changes nothing.
pub fn bytes(text: &[u8], out: &mut [u8]) -> bool
    ensures { (result ≡ spells (length out.old) text.now)
        × (out.new ≡ choose result (spelt (length out.old) text.now) out.old) }
{
    if text.len() / 2 != out.len() {
        return false;
    }
    if text.len() % 2 != 0 {
        return false;
    }
    if all_digits(text) {
        fill(text, out);
        return true;
    }
    false
}

fn fill(text: &[u8], out: &mut [u8])
    requires { (length text.now ≡ 2 * length out.old) × (all_digits text.now ≡ true) }
    ensures { out.new ≡ spelt (length out.old) text.now }
{
    for (i, byte) in out.iter_mut().enumerate() {
        let high = digit(text[2 * i]);
        let low = digit(text[2 * i + 1]);
        *byte = pair(high, low);
    }
}

// Two digits as a byte.
fn pair(high: u8, low: u8) -> u8
    requires { (high ≤ 15) × (low ≤ 15) }
    ensures { result ≡ high * 16 + low }
{
    high * 16 + low
}
