ghost use Rattle.std.specs.Prelude.{◌≡◌, ◌++◌, ◌∷◌, ℕ, List, IfOk, IfSome, IfNone, IsTrue, IsFalse};
ghost use Rattle.client_spec.specs.Syntax as syntax;
ghost use Rattle.client_spec.specs.Text as text;
ghost use Rattle.client_spec.specs.Text.{SpellsItem, SpellsInText};
ghost use Rattle.client_spec.specs.Pieces.{IsReadable, meant, Pieces, Says, file_of};
ghost use Rattle.client_text.specs.Items.{text_item, IsWritten};

use crate::header::{append_header, entries};
use crate::item::Item;
use crate::lines::Lines;
use crate::outline::{header_of, version_in};
use std::alloc::{AllocError, Allocator};

/// The item in the next line that isn't skipped. `None` if there is no such line, or it is no valid item.
fn next_item(lines: &mut Lines) -> Option<Item>
    ensures found { IfSome result (λ item. (line : List ℕ)
        × (meant lines.old.text.now ≡ line ∷ meant lines.new.text.now)
        × SpellsItem line (text_item item)) }
    ensures readable { IfSome result (λ item. IsReadable (text_item item)) }
    ensures none { IfNone result ((line : List ℕ) (rest : List (List ℕ)) (item : text.Item) →
        meant lines.old.text.now ≡ line ∷ rest → IsWritten item → SpellsItem line item → ⊥) }
{
    Item::read(lines.next_meant()?)
}

/// Writes a file: the header of its lines, and their items, up to the first line that is no item. Returns true if the file has
/// all lines.
pub fn write<A: Allocator>(file: &mut Vec<u8, A>, text: &[u8]) -> Result<bool, AllocError>
    ensures whole { IfOk result (λ whole. IsTrue whole → (pieces : Pieces) × Says text.now pieces
        × (file.new.items ≡ file.old.items ++ file_of pieces)) }
    ensures cut { IfOk result (λ whole. IsFalse whole → (tree : syntax.Client) →
        SpellsInText text.now tree → ⊥) }
{
    let header = header_of(text);
    append_header(header, version_in(text, header.types), file)?;
    let mut lines = Lines::new(text);
    for _ in 0..entries(header) {
        match next_item(&mut lines) {
            Some(item) => item.append(file)?,
            None => return Ok(false),
        }
    }
    Ok(lines.next_meant().is_none())
}
