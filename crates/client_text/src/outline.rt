ghost use Rattle.std.specs.Prelude.{◌≡◌, ◌≢◌, ◌+◌, ◌∷◌, ◌++◌, [], ◌≤◌, ℕ, List, length, map, take, IsTrue, IsFalse};
ghost use Rattle.client_spec.specs.Text.{Item, words_of, SpellsItem, EachSpells};
ghost use Rattle.client_text.specs.Outlines.{section_of, item_version, items_version, IsOutline, outline_of, entry_total};
ghost use Rattle.client_spec.specs.Pieces.{meant};

use crate::lines::Lines;
use crate::words::Words;
use client_code::{
    FIRST_VERSION, FileHeader, MOST_CONSTANTS, MOST_INSTRUCTIONS, MOST_TYPES, SHARING_VERSION,
};

/// The sections of a client, in order.
#[derive(Clone, Copy, PartialEq, Eq)]
enum Section {
    Types,
    Constants,
    Instructions,
}

impl Section {
    /// The section that a line belongs to, by its first word.
    fn of(line: &[u8]) -> Section
        ensures { (item : Item) → SpellsItem line.now item → result ≡ section_of item }
    {
        match Words::new(line).next() {
            Some(word) => Section::by(word),
            None => Section::Instructions,
        }
    }

    /// The section of the lines that begin with a word.
    fn by(word: &[u8]) -> Section
        ensures { (line : List ℕ) (rest : List (List ℕ)) (item : Item) →
            words_of line ≡ word.now ∷ rest → SpellsItem line item → result ≡ section_of item }
    {
        if word == b"type".as_slice() {
            Section::Types
        } else if word == b"text".as_slice()
            || word == b"name".as_slice()
            || word == b"family".as_slice()
        {
            Section::Constants
        } else {
            Section::Instructions
        }
    }
}

/// The header with the counts of a text's lines, up to the first line that is out of order or one too many.
pub fn header_of(text: &[u8]) -> FileHeader
    ensures within { entry_total result ≤ length (meant text.now) }
    ensures counted { (items : List Item) → EachSpells (meant text.now) items →
        map section_of (take (entry_total result) items) ≡ outline_of result }
    ensures all { (items : List Item) → EachSpells (meant text.now) items →
        IsOutline (map section_of items) → length items ≡ entry_total result }
{
    let mut header = FileHeader {
        types: 0,
        constants: 0,
        instructions: 0,
    };
    let mut lines = Lines::new(text);
    while let Some(line) = lines.next_meant() {
        if !add(&mut header, Section::of(line)) {
            break;
        }
    }
    header
}

/// Counts a line, or returns false if it is out of order or one too many.
fn add(header: &mut FileHeader, section: Section) -> bool
    ensures counted { IsTrue result → outline_of header.new
        ≡ outline_of header.old ++ section ∷ [] }
    ensures one { IsTrue result → entry_total header.new ≡ entry_total header.old + 1 }
    ensures refused { IsFalse result → (following : List Section) →
        IsOutline (outline_of header.old ++ section ∷ following) → ⊥ }
    ensures kept { IsFalse result → header.new ≡ header.old }
{
    let is_code = header.instructions > 0;
    match section {
        Section::Types if !is_code && header.constants == 0 && header.types < MOST_TYPES =>
            header.types += 1,
        Section::Constants if !is_code && header.constants < MOST_CONSTANTS => header.constants +=
            1,
        Section::Instructions if header.instructions < MOST_INSTRUCTIONS => header.instructions +=
            1,
        _ => return false,
    }
    true
}

/// Takes the next word, and returns whether it is this one.
fn is_next(words: &mut Words, word: &[u8]) -> bool
    ensures found { IsTrue result → words_of words.old.line.now
        ≡ word.now ∷ words_of words.new.line.now }
    ensures other { IsFalse result → (rest : List (List ℕ)) →
        words_of words.old.line.now ≢ word.now ∷ rest }
{
    match words.next() {
        Some(found) => found == word,
        None => false,
    }
}

/// The file version that a line needs, by its first words.
fn line_version(line: &[u8]) -> u32
    ensures { (item : Item) → SpellsItem line.now item → result ≡ item_version item }
{
    let mut words = Words::new(line);
    if is_next(&mut words, b"type") && is_next(&mut words, b"shared") {
        SHARING_VERSION
    } else {
        FIRST_VERSION
    }
}

/// The file version of a text whose first `types` lines are its types.
pub fn version_in(text: &[u8], types: u32) -> u32
    ensures { (items : List Item) → EachSpells (meant text.now) items →
        result ≡ items_version (take types items) }
{
    let mut version = FIRST_VERSION;
    let mut lines = Lines::new(text);
    for _ in 0..types {
        let Some(line) = lines.next_meant() else {
            return version;
        };
        version = version.max(line_version(line));
    }
    version
}
