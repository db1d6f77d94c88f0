ghost use Rattle.std.specs.Prelude.{◌<◌, IfSome};

use crate::error::ErrorKind;
use crate::token::{Token, TokenKind, TypeName};
use crate::tree::{Range, Span};
use crate::word::Word;
use std::alloc::Global;

/// The tokens of a text, as far as they are read.
#[derive(Drop)]
pub(crate) struct Lexer {
    pub tokens: Vec<Token>,
    /// The bytes of the texts, without quotation marks and escapes.
    pub bytes: Vec<u8>,
    /// The position after the last token.
    pub next: Position,
    /// The line of the last token.
    pub last_line: usize,
    pub is_out_of_memory: bool,
}

/// A position in a text, with its line and column.
#[derive(Clone, Copy)]
pub(crate) struct Position {
    start: usize,
    line: usize,
    column: usize,
}

impl Position {
    /// The span of this number of bytes.
    pub fn span(self, len: usize) -> Span {
        Span {
            start: self.start,
            end: self.start.saturating_add(len),
            line: self.line,
            column: self.column,
        }
    }

    /// Counts a byte. Only the first byte of a character has a column.
    fn pass(&mut self, byte: u8) {
        self.start = self.start.saturating_add(1);
        if byte == b'\n' {
            self.line = self.line.saturating_add(1);
            self.column = 1;
        } else if !Class::Continuation.has(byte) {
            self.column = self.column.saturating_add(1);
        }
    }
}

/// A set of bytes.
#[derive(Clone, Copy)]
enum Class {
    Blank,
    /// All bytes but the end of a line.
    Line,
    Name,
    Decimal,
    Hexadecimal,
    /// The bytes of a character after the first.
    Continuation,
}

impl Class {
    fn has(self, byte: u8) -> bool {
        match self {
            Class::Blank => matches!(byte, b' ' | b'\t' | b'\r' | b'\n'),
            Class::Line => byte != b'\n',
            Class::Name => byte == b'_' || byte.is_ascii_alphanumeric(),
            Class::Decimal => byte == b'_' || byte.is_ascii_digit(),
            Class::Hexadecimal => byte == b'_' || byte.is_ascii_hexdigit(),
            Class::Continuation => matches!(byte, 0x80..=0xbf),
        }
    }

    /// How many bytes of the class come first.
    fn len(self, bytes: &[u8]) -> usize {
        for i in 0..bytes.len() {
            if !self.has(bytes[i]) {
                return i;
            }
        }
        bytes.len()
    }
}

/// The first token of a text.
#[derive(Clone, Copy)]
struct Lexeme {
    kind: TokenKind,
    /// How many bytes come before the part that `kind` is about, and after it.
    before: usize,
    len: usize,
    after: usize,
}

impl Lexeme {
    fn new(kind: TokenKind, len: usize) -> Lexeme {
        Lexeme {
            kind,
            before: 0,
            len,
            after: 0,
        }
    }
}

impl Lexer {
    /// Reads the tokens of a program.
    pub fn read(alloc: Global, text: &[u8]) -> Lexer {
        let mut lexer = Lexer {
            tokens: Vec::new(alloc),
            bytes: Vec::new(alloc),
            next: Position {
                start: 0,
                line: 1,
                column: 1,
            },
            last_line: 0,
            is_out_of_memory: false,
        };
        // each turn takes at least one byte
        for _ in 0..text.len() {
            lexer.read_next(text);
        }
        lexer
    }

    /// The text after the tokens that were read.
    fn rest<'a>(&self, text: &'a [u8]) -> &'a [u8] {
        text.get(self.next.start..).unwrap_or_default()
    }

    /// Reads the blanks, the comment or the token that comes next.
    fn read_next(&mut self, text: &[u8]) {
        let rest = self.rest(text);
        let blank = blank_len(rest);
        if blank > 0 {
            self.take(rest, blank);
        } else if let [first, ..] = rest {
            let lexeme = self.lexeme(*first, rest);
            self.read_token(lexeme, text);
        }
    }

    /// Takes this number of the first bytes of the rest.
    fn take(&mut self, rest: &[u8], len: usize) -> Span {
        let span = self.next.span(len);
        for byte in rest.get(..len).unwrap_or(rest) {
            self.next.pass(*byte);
        }
        span
    }

    /// Adds a token.
    fn read_token(&mut self, lexeme: Lexeme, text: &[u8]) {
        let kind = lexeme.kind;
        self.take(self.rest(text), lexeme.before);
        let span = self.take(self.rest(text), lexeme.len);
        self.take(self.rest(text), lexeme.after);
        // at the beginning of a line `--` is meant as a comment
        let is_comment = matches!(kind, TokenKind::Wrong(ErrorKind::TwoMinusSigns));
        if is_comment && self.last_line != span.line {
            let rest = self.rest(text);
            self.take(rest, Class::Line.len(rest));
        }
        self.last_line = span.line;
        self.is_out_of_memory |= self.tokens.push(Token { span, kind }).is_err();
    }

    /// The first token of a text that begins with this byte.
    fn lexeme(&mut self, first: u8, text: &[u8]) -> Lexeme {
        if first == b'"' || first == b'\'' {
            self.quoted(first, text)
        } else if first.is_ascii_digit() {
            number(text)
        } else if Class::Name.has(first) {
            name(text)
        } else {
            sign(text)
        }
    }

    /// A text in quotation marks, or a byte in single ones.
    fn quoted(&mut self, quote: u8, text: &[u8]) -> Lexeme {
        let others = text.get(1..).unwrap_or_default();
        let Some(spelling) = before_quote(others, quote) else {
            let kind = TokenKind::Wrong(ErrorKind::OpenText);
            return Lexeme::new(kind, Class::Line.len(text));
        };
        let first = self.bytes.len();
        if let Some(left) = self.unescape(spelling) {
            self.bytes.truncate(first);
            return bad_escape(text, spelling.len(), left);
        }
        let len = spelling.len().saturating_add(2);
        if quote == b'"' {
            let end = self.bytes.len();
            return Lexeme::new(TokenKind::Text(Range { first, end }), len);
        }
        let kind = match self.bytes.get(first..).unwrap_or_default() {
            [byte] => TokenKind::Number(u64::from(*byte)),
            other => TokenKind::Wrong(ErrorKind::ByteLength(other.len())),
        };
        self.bytes.truncate(first);
        Lexeme::new(kind, len)
    }

    /// Adds the bytes of a text. If it has a bad escape, returns how many bytes of the spelling are left from there on.
    fn unescape(&mut self, spelling: &[u8]) -> Option<usize> {
        let mut rest = spelling;
        // each turn takes at least one byte
        for _ in 0..spelling.len() {
            if rest.is_empty() {
                break;
            }
            let Some((byte, following)) = first_byte(rest) else {
                return Some(rest.len());
            };
            self.is_out_of_memory |= self.bytes.push(byte).is_err();
            rest = following;
        }
        None
    }
}

/// The length of the blanks, or of the comment, that a text begins with.
fn blank_len(text: &[u8]) -> usize {
    match text {
        [b'#', ..] | [b'/', b'/', ..] => Class::Line.len(text),
        _ => Class::Blank.len(text),
    }
}

fn name(text: &[u8]) -> Lexeme {
    let len = Class::Name.len(text);
    let name = text.get(..len).unwrap_or_default();
    let kind = match Word::reserved(name) {
        Some(word) => TokenKind::Word(word),
        None => TokenKind::Name(TypeName::of(name)),
    };
    Lexeme::new(kind, len)
}

fn sign(text: &[u8]) -> Lexeme {
    if text.starts_with(b"--") {
        return Lexeme::new(TokenKind::Wrong(ErrorKind::TwoMinusSigns), 2);
    }
    match Word::sign(text) {
        Some(word) => Lexeme::new(TokenKind::Word(word), word.spelling().len()),
        None => {
            let others = text.get(1..).unwrap_or_default();
            let len = Class::Continuation.len(others).saturating_add(1);
            Lexeme::new(TokenKind::Wrong(ErrorKind::NoToken), len)
        }
    }
}

fn number(text: &[u8]) -> Lexeme {
    let (value, len) = match text {
        [b'0', b'x', digits @ ..] if has_digit(digits) => {
            let len = Class::Hexadecimal.len(digits);
            (parse_digits(digits, len, 16), len.saturating_add(2))
        }
        _ => {
            let len = Class::Decimal.len(text);
            (parse_digits(text, len, 10), len)
        }
    };
    // letters right after a number belong to the same token
    let whole = Class::Name.len(text);
    let kind = match value {
        _ if whole > len => TokenKind::Wrong(ErrorKind::NoToken),
        Some(value) => TokenKind::Number(value),
        None => TokenKind::Wrong(ErrorKind::LargeNumber),
    };
    Lexeme::new(kind, whole)
}

/// Whether a hexadecimal digit comes first, after any `_`.
fn has_digit(digits: &[u8]) -> bool {
    for digit in digits {
        if *digit != b'_' {
            return digit.is_ascii_hexdigit();
        }
    }
    false
}

/// The number that the first `len` of the digits spell, if it has at most 64 bits.
fn parse_digits(digits: &[u8], len: usize, base: u64) -> Option<u64> {
    let mut value = 0u64;
    for digit in digits.get(..len)? {
        if *digit != b'_' {
            let digit = u64::from(digit_value(*digit)?);
            value = value.checked_mul(base)?.checked_add(digit)?;
        }
    }
    Some(value)
}

fn digit_value(digit: u8) -> Option<u8>
    ensures { IfSome result (λ value. value < 16) }
{
    match digit {
        b'0'..=b'9' => Some(digit - b'0'),
        b'a'..=b'f' => Some(digit - b'a' + 10),
        b'A'..=b'F' => Some(digit - b'A' + 10),
        _ => None,
    }
}

/// A text in quotation marks whose spelling has a bad escape. Its backslash is the first of the `left` last bytes of the
/// spelling.
fn bad_escape(text: &[u8], spelling: usize, left: usize) -> Lexeme {
    let before = spelling.saturating_sub(left).saturating_add(1);
    let others = text.get(before.saturating_add(2)..).unwrap_or_default();
    let len = Class::Continuation.len(others).saturating_add(2);
    Lexeme {
        kind: TokenKind::Wrong(ErrorKind::BadEscape),
        before,
        len,
        after: left.saturating_add(1).saturating_sub(len),
    }
}

/// The bytes before the closing quotation mark of the line.
fn before_quote(bytes: &[u8], quote: u8) -> Option<&[u8]> {
    let mut is_escaped = false;
    for i in 0..bytes.len() {
        let byte = bytes[i];
        if byte == b'\n' {
            return None;
        }
        if byte == quote && !is_escaped {
            return bytes.get(..i);
        }
        is_escaped = byte == b'\\' && !is_escaped;
    }
    None
}

/// The first byte of a text with this spelling, and the rest of the spelling.
fn first_byte(spelling: &[u8]) -> Option<(u8, &[u8])> {
    match spelling {
        [b'\\', b'x', high, low, rest @ ..] => {
            Some((16 * digit_value(*high)? + digit_value(*low)?, rest))
        }
        [b'\\', escaped, rest @ ..] => Some((escape(*escaped)?, rest)),
        [byte, rest @ ..] if *byte != b'\\' => Some((*byte, rest)),
        _ => None,
    }
}

/// The byte that a letter after a backslash spells.
fn escape(letter: u8) -> Option<u8> {
    match letter {
        b'n' => Some(b'\n'),
        b't' => Some(b'\t'),
        b'r' => Some(b'\r'),
        b'0' => Some(0),
        b'\\' | b'"' | b'\'' => Some(letter),
        _ => None,
    }
}
