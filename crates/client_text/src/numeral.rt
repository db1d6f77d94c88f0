ghost use Rattle.std.specs.Prelude.{◌≡◌, ◌≢◌, ℕ, ℤ, ◌<◌, ◌^◌, ◌∷◌, IfSome, IfNone, FitsSigned};
ghost use Rattle.std.specs.Fmt.{decimal, signed_decimal};
ghost use Rattle.std.specs.Int.{w32};

use itoa::Buffer;
use std::str;

/// The value of decimal digits in the form that is printed: without leading zeros.
fn decimal(digits: &[u8]) -> Option<u32>
    ensures found { IfSome result (λ n. digits.now ≡ decimal n) }
    ensures none { IfNone result ((n : ℕ) → n < 2 ^ 32 → digits.now ≢ decimal n) }
{
    let number: u32 = str::from_utf8(digits).ok()?.parse().ok()?;
    (Buffer::new().format(number).as_bytes() == digits).then_some(number)
}

/// The signed number in a word, in the form that is printed: decimal digits, after `-` if it is negative.
pub fn signed(word: &[u8]) -> Option<i32>
    ensures found { IfSome result (λ n. word.now ≡ signed_decimal n) }
    ensures none { IfNone result ((n : ℤ) → FitsSigned w32 n → word.now ≢ signed_decimal n) }
{
    let number: i32 = str::from_utf8(word).ok()?.parse().ok()?;
    (Buffer::new().format(number).as_bytes() == word).then_some(number)
}

/// The number after a letter, for example 3 in `r3`.
pub fn index(letter: u8, word: &[u8]) -> Option<u8>
    ensures found { IfSome result (λ n. (n < 256) × (word.now ≡ letter ∷ decimal n)) }
    ensures none { IfNone result ((n : ℕ) → n < 256 → word.now ≢ letter ∷ decimal n) }
{
    match word {
        [first, digits @ ..] if *first == letter => u8::try_from(decimal(digits)?).ok(),
        _ => None,
    }
}
