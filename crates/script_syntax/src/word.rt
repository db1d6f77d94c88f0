/// A reserved word or a sign of the language.
#[derive(Clone, Copy, PartialEq, Eq)]
pub enum Word {
    Const,
    Struct,
    Object,
    Family,
    Unique,
    Fn,
    Fail,
    Let,
    If,
    Else,
    For,
    In,
    Max,
    While,
    Break,
    Continue,
    Return,
    Stop,
    Print,
    Write,
    Delete,
    Clear,
    Shrink,
    Freeze,
    Share,
    Take,
    New,
    Use,
    As,
    True,
    False,
    Input,
    DotDot,
    OrElse,
    EqualEqual,
    NotEqual,
    LessEqual,
    GreaterEqual,
    PlusEqual,
    MinusEqual,
    StarEqual,
    SlashEqual,
    PercentEqual,
    AndAnd,
    OrOr,
    Arrow,
    Plus,
    Minus,
    Star,
    Slash,
    Percent,
    Less,
    Greater,
    Equal,
    Not,
    ParenOpen,
    ParenClose,
    BraceOpen,
    BraceClose,
    BracketOpen,
    BracketClose,
    Comma,
    Dot,
    Colon,
    Semicolon,
}

static RESERVED: [(&str, Word); 32] = [
    ("const", Word::Const),
    ("struct", Word::Struct),
    ("object", Word::Object),
    ("family", Word::Family),
    ("unique", Word::Unique),
    ("fn", Word::Fn),
    ("fail", Word::Fail),
    ("let", Word::Let),
    ("if", Word::If),
    ("else", Word::Else),
    ("for", Word::For),
    ("in", Word::In),
    ("max", Word::Max),
    ("while", Word::While),
    ("break", Word::Break),
    ("continue", Word::Continue),
    ("return", Word::Return),
    ("stop", Word::Stop),
    ("print", Word::Print),
    ("write", Word::Write),
    ("delete", Word::Delete),
    ("clear", Word::Clear),
    ("shrink", Word::Shrink),
    ("freeze", Word::Freeze),
    ("share", Word::Share),
    ("take", Word::Take),
    ("new", Word::New),
    ("use", Word::Use),
    ("as", Word::As),
    ("true", Word::True),
    ("false", Word::False),
    ("input", Word::Input),
];

/// A sign comes before the signs that it begins with.
static SIGNS: [(&str, Word); 33] = [
    ("..", Word::DotDot),
    ("??", Word::OrElse),
    ("==", Word::EqualEqual),
    ("!=", Word::NotEqual),
    ("<=", Word::LessEqual),
    (">=", Word::GreaterEqual),
    ("+=", Word::PlusEqual),
    ("-=", Word::MinusEqual),
    ("*=", Word::StarEqual),
    ("/=", Word::SlashEqual),
    ("%=", Word::PercentEqual),
    ("&&", Word::AndAnd),
    ("||", Word::OrOr),
    ("->", Word::Arrow),
    ("+", Word::Plus),
    ("-", Word::Minus),
    ("*", Word::Star),
    ("/", Word::Slash),
    ("%", Word::Percent),
    ("<", Word::Less),
    (">", Word::Greater),
    ("=", Word::Equal),
    ("!", Word::Not),
    ("(", Word::ParenOpen),
    (")", Word::ParenClose),
    ("{", Word::BraceOpen),
    ("}", Word::BraceClose),
    ("[", Word::BracketOpen),
    ("]", Word::BracketClose),
    (",", Word::Comma),
    (".", Word::Dot),
    (":", Word::Colon),
    (";", Word::Semicolon),
];

impl Word {
    /// The reserved word with this name.
    pub fn reserved(name: &[u8]) -> Option<Word> {
        named(&RESERVED, name)
    }

    /// The sign that a text begins with.
    pub fn sign(text: &[u8]) -> Option<Word> {
        first_of(&SIGNS, text)
    }

    pub fn spelling(self) -> &'static str {
        match spelled(&RESERVED, self) {
            Some(spelling) => spelling,
            None => spelled(&SIGNS, self).unwrap_or_default(),
        }
    }

    /// Whether it is a reserved word, and not a sign.
    pub fn is_reserved(self) -> bool {
        spelled(&RESERVED, self).is_some()
    }
}

/// The word of a table with this spelling.
fn named(table: &[(&'static str, Word)], name: &[u8]) -> Option<Word> {
    for (spelling, word) in table {
        if spelling.as_bytes() == name {
            return Some(*word);
        }
    }
    None
}

/// The first word of a table that a text begins with.
fn first_of(table: &[(&'static str, Word)], text: &[u8]) -> Option<Word> {
    for (spelling, word) in table {
        if text.starts_with(spelling.as_bytes()) {
            return Some(*word);
        }
    }
    None
}

fn spelled(table: &[(&'static str, Word)], word: Word) -> Option<&'static str> {
    for (spelling, found) in table {
        if *found == word {
            return Some(*spelling);
        }
    }
    None
}
