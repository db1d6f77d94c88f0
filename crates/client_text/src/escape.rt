ghost use Rattle.std.specs.Prelude.{◌≡◌, ◌≢◌, ℕ, List, ◌<◌, ◌≤◌, length, All, IfSome, IfNone, IsTrue};
ghost use Rattle.client_spec.specs.Text.{hex_digit, is_plain, SpellsText};
ghost use Rattle.client_text.specs.Texts.{SpellsByte};

use arrayvec::ArrayVec;
use client_code::LONGEST;

/// The bytes of a constant.
pub type Bytes = ArrayVec<u8, LONGEST>;

/// Whether a byte of a text spells itself.
pub fn is_plain(byte: u8) -> bool
    ensures test { result ≡ is_plain byte }
    ensures ascii { IsTrue result → byte < 128 }
{
    matches!(byte, b' '..=b'~') && byte != b'\\'
}

/// The lower case hexadecimal digit of a value.
pub fn hex_digit(value: u8) -> u8
    requires { value < 16 }
    ensures digit { result ≡ hex_digit value }
    ensures ascii { result < 128 }
{
    if value < 10 {
        b'0' + value
    } else {
        b'a' + (value - 10)
    }
}

/// The value of a lower case hexadecimal digit.
fn hex(digit: u8) -> Option<u8>
    ensures found { IfSome result (λ value. (value < 16) × (digit ≡ hex_digit value)) }
    ensures none { IfNone result ((value : ℕ) → value < 16 → digit ≢ hex_digit value) }
{
    match digit {
        b'0'..=b'9' => Some(digit - b'0'),
        b'a'..=b'f' => Some(digit - b'a' + 10),
        _ => None,
    }
}

/// The first byte of a text with this spelling, and the rest of the spelling.
fn first(spelling: &[u8]) -> Option<(u8, &[u8])>
    ensures shorter { IfSome result (λ found. length found.1.now < length spelling.now) }
    ensures small { IfSome result (λ found. found.0 < 256) }
    ensures found { IfSome result (λ found. SpellsByte found.0 found.1.now spelling.now) }
    ensures none { IfNone result ((b : ℕ) (rest : List ℕ) → b < 256 → SpellsByte b rest spelling.now
        → ⊥) }
{
    match spelling {
        [b'\\', high, low, rest @ ..] => Some((16 * hex(*high)? + hex(*low)?, rest)),
        [byte, rest @ ..] if is_plain(*byte) => Some((*byte, rest)),
        _ => None,
    }
}

/// The bytes of a text with this spelling, or `None` if it spells none or too many.
pub fn unescaped(spelling: &[u8]) -> Option<Bytes>
    ensures found { IfSome result (λ bytes. SpellsText bytes.items spelling.now) }
    ensures bytes { IfSome result (λ bytes. All (λ b. b < 256) bytes.items) }
    ensures none { IfNone result ((bytes : List ℕ) → length bytes ≤ LONGEST →
        All (λ b. b < 256) bytes → SpellsText bytes spelling.now → ⊥) }
{
    let mut bytes = ArrayVec::new();
    let mut rest = spelling;
    while !rest.is_empty() {
        let (byte, following) = first(rest)?;
        bytes.try_push(byte).ok()?;
        rest = following;
    }
    Some(bytes)
}
