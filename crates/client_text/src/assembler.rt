ghost use Rattle.std.specs.Prelude.{◌≡◌, ◌⊎◌, ℕ, IfOk, IfErr, IfSome, IfNone, IsTrue};
ghost use Rattle.client_spec.specs.Syntax as syntax;
ghost use Rattle.client_spec.specs.Grammar.{IsClient, SpellsClient, client_bytes};
ghost use Rattle.client_spec.specs.Text.{SpellsInText, text_of};

use crate::item::Item;
use crate::lines::{Lines, is_skipped};
use crate::writer::write;
use client_code::{Fault, TYPES_AT, parse};
use std::alloc::Allocator;

/// Assembles a text into a client file. Fails with `BadLine` and the first line, counted from 1, that is outside the grammar or
/// against the rules of the file; if an `END` is missing, that is the line after the last. Fails with `Memory` if the host is out
/// of memory.
pub fn assemble<A: Allocator>(alloc: A, text: &[u8]) -> Result<Vec<u8, A>, Fault>
    ensures found { IfOk result (λ file. (tree : syntax.Client) × SpellsClient file.items tree
        × SpellsInText text.now tree) }
    ensures canonical { IfOk result (λ file. (tree : syntax.Client) → IsClient tree →
        text.now ≡ text_of tree → file.items ≡ client_bytes tree) }
    ensures wrong { IfErr result (λ fault. (line : ℕ) → fault ≡ Fault.BadLine line →
        (tree : syntax.Client) → SpellsInText text.now tree → ⊥) }
    ensures fault { IfErr result (λ fault. (fault ≡ Fault.Memory)
        ⊎ ((line : ℕ) × (fault ≡ Fault.BadLine line))) }
{
    let mut file = Vec::new(alloc);
    let is_whole = write(&mut file, text)?;
    match wrong_place(file.as_slice(), is_whole) {
        None => Ok(file),
        Some(place) => Err(Fault::BadLine(line_at(text, place))),
    }
}

/// The position of the first wrong field of a file that is no client's, or the file's end if lines are missing. `None` if the
/// file is a client's and complete.
fn wrong_place(file: &[u8], is_whole: bool) -> Option<u32>
    ensures right { IfNone result (IsTrue is_whole
        × (tree : syntax.Client) × SpellsClient file.now tree) }
    ensures wrong { IfSome result (λ _. IsTrue is_whole → (tree : syntax.Client) →
        SpellsClient file.now tree → ⊥) }
{
    match parse(file) {
        Ok(_) if is_whole => None,
        Ok(client) => Some(client.end()),
        Err(Fault::BadCode(place)) => Some(place),
        Err(_) => Some(0),
    }
}

/// The line whose item is, or would be, at a position of the file. The line after the last if there is no such line.
fn line_at(text: &[u8], at: u32) -> u32 {
    let mut place = TYPES_AT as usize;
    let mut number = 1u32;
    let mut lines = Lines::new(text);
    while let Some(line) = lines.next() {
        if !is_skipped(line) {
            if place >= at as usize {
                break;
            }
            place += Item::read(line).map_or(0, |item| item.len());
        }
        number = number.saturating_add(1);
    }
    number
}
