// Upper-case hexadecimal: digits, bytes and rows of bytes.
#![tactic(auto)]

ghost use Rattle.std.specs.Prelude.{◌≡◌, ◌<◌, ℕ, ◌*◌, true, [], ◌∷◌, length, is_some, Some, None, MatchResult, OnOk};
ghost use Rattle.codes.specs.declared.number.Refusal.TheVariants.{Malformed};
ghost use Rattle.hexadecimal.specs.Hex.{digit_value, pair_byte, digit_of, spelled, row_in, all_digits};

use codes::number::Refusal;

// What a digit counts: nothing for any character but `0` to `9` and `A` to `F`.
pub fn value(digit: u8) -> Option<u8>
    ensures { result ≡ digit_value digit }
{
    match digit {
        b'0'..=b'9' => Some(digit - b'0'),
        b'A'..=b'F' => Some(digit - b'A' + 10),
        _ => None,
    }
}

// The digit of the low four bits.
pub fn digit(value: u8) -> u8
    ensures { result ≡ digit_of value }
{
    let low = value % 16;
    if low < 10 {
        b'0' + low
    } else {
        b'A' + (low - 10)
    }
}

// The two digits of a byte, the high one first.
pub fn encode(byte: u8) -> [u8; 2]
    ensures value { result ≡ spelled (byte ∷ []) }
    ensures back { row_in 1 result ≡ Some (byte ∷ []) }
{
    [digit(byte / 16), digit(byte)]
}

// What a character counts that is known to be a digit: its low four bits, and nine more for a letter, whose codes begin
// at 65. The last remainder bounds it for any other character. It has no jump, which would cost a row of mixed digits.
#[tactic(auto, unfolding(crate::specs::Hex::digit_value))]
fn known_value(digit: u8) -> u8
    ensures value { (v : ℕ) → digit_value digit ≡ Some v → result ≡ v }
    ensures low { result < 16 }
{
    (digit % 16 + 9 * (digit / 64)) % 16
}

// The byte of two digits, the high one first.
#[tactic(auto, unfolding(crate::specs::Hex::pair_byte))]
fn byte(pair: [u8; 2]) -> u8
    ensures { (b : ℕ) → pair_byte pair ≡ Some b → result ≡ b }
{
    let [high, low] = pair;
    known_value(high) * 16 + known_value(low)
}

fn is_all_digits(text: &[u8]) -> bool
    ensures { result ≡ all_digits text.now }
{
    text.iter().all(|digit| value(*digit).is_some())
}

#[tactic(auto, using(crate::proofs::Rows::right_length, crate::proofs::Rows::wrong_length))]
fn is_row(text: &[u8], count: usize) -> bool
    ensures value { result ≡ is_some (row_in count text.now) }
    ensures long { result ≡ true → length text.now ≡ 2 * count }
{
    text.len() / 2 == count && text.len() % 2 == 0 && is_all_digits(text)
}

// Fills `bytes` from exactly two digits for each of its places, the high digit first. Any other text is
// refused, and `bytes` then stays as it is.
#[tactic(auto, using(crate::proofs::Rows::row_filled))]
pub fn decode(text: &[u8], bytes: &mut [u8]) -> Result<(), Refusal>
    ensures value { MatchResult result
        (λ _. row_in (length bytes.old) text.now ≡ Some bytes.new)
        (λ e. (e ≡ Malformed) × (row_in (length bytes.old) text.now ≡ None) × (bytes.new ≡ bytes.old)) }
    ensures long { OnOk result (length text.now ≡ 2 * length bytes.old) }
{
    if !is_row(text, bytes.len()) {
        return Err(Refusal::Malformed);
    }
    let (pairs, _) = text.as_chunks::<2>();
    // by index: a proof does not see what a zip with `iter_mut` writes
    for (n, pair) in pairs.iter().enumerate() {
        bytes[n] = byte(*pair);
    }
    Ok(())
}

// The same into an array of its own.
pub fn decode_array<const N: usize>(text: &[u8]) -> Result<[u8; N], Refusal>
    ensures value { MatchResult result
        (λ bytes. row_in N text.now ≡ Some bytes)
        (λ e. (e ≡ Malformed) × (row_in N text.now ≡ None)) }
    ensures long { OnOk result (length text.now ≡ 2 * N) }
{
    let mut bytes = [0; N];
    decode(text, &mut bytes)?;
    Ok(bytes)
}
