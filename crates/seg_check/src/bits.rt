ghost use Rattle.std.specs.Prelude.{◌≡◌, ℕ, ◌*◌, ◌/◌, ◌+◌, ◌<◌, ◌≤◌, true, false, [], length, set, get_or, IfOk};
ghost use Rattle.std.specs.Int.{bit_at};
ghost use Rattle.seg_check.specs.Bits.{has, KeepsBit, KeepsBits};

use std::alloc::{AllocError, Allocator};
use std::marker::Model;

/// The number of bits in a word.
const WORD: usize = 64;

/// How many words are added at least, if one is missing.
const MORE: usize = 512;

/// A bit for each unit of a heap. All memory is allocated at the start, but words are only written up to the last one
/// that had a bit set. A system gives memory to a process as it is written, and an image may be mostly free.
#[derive(Drop)]
pub(crate) struct Bits<A: Allocator> {
    /// No bit is set in the words that are missing.
    words: Vec<u64, A>,
}

impl<A: Allocator> Model for Bits<A> {
    ghost use Rattle.std.specs.Prelude.{vec_capacity};
    ghost use Rattle.seg_check.specs.Bits.{Words};

    ghost Value = { Words };

    ghost view = { λ b. record { words = b.words.items; room = vec_capacity b.words } };
}

impl<A: Allocator> Bits<A> {
    /// No bit is set.
    pub(crate) fn new(alloc: A, units: usize) -> Result<Bits<A>, AllocError>
        ensures { IfOk result (λ bits.
            bits ≡ record { words = []; room = units / 64 + 1 }) }
    {
        Ok(Bits {
            words: Vec::with_capacity(alloc, units / WORD + 1)?,
        })
    }

    /// Whether a unit's bit is set.
    #[inline(always)]
    pub(crate) fn has(&self, unit: usize) -> bool
        ensures { result ≡ has self.now.words unit }
    {
        (self.word(unit / WORD) >> (unit % WORD)) & 1 == 1
    }

    /// Sets or clears a unit's bit.
    #[inline(always)]
    pub(crate) fn put(&mut self, unit: usize, to: bool)
        ensures room { self.old.room ≤ self.new.room }
        ensures own { unit < 64 * self.old.room → has self.new.words unit ≡ to }
        ensures others { KeepsBits self.old.words self.new.words unit }
    {
        if to {
            self.set(unit);
        } else {
            self.clear(unit);
        }
    }

    #[inline(always)]
    fn set(&mut self, unit: usize)
        ensures room { self.old.room ≤ self.new.room }
        ensures own { unit < 64 * self.old.room → has self.new.words unit ≡ true }
        ensures others { KeepsBits self.old.words self.new.words unit }
    {
        self.reach(unit / WORD);
        let word = self.word(unit / WORD);
        self.put_word(unit / WORD, with_bit(word, (unit % WORD) as u32));
    }

    /// Clears a unit's bit.
    #[inline(always)]
    pub(crate) fn clear(&mut self, unit: usize)
        ensures room { self.new.room ≡ self.old.room }
        ensures own { has self.new.words unit ≡ false }
        ensures others { KeepsBits self.old.words self.new.words unit }
    {
        let word = self.word(unit / WORD);
        self.put_word(unit / WORD, without_bit(word, (unit % WORD) as u32));
    }

    /// Adds the word with an index if it is missing.
    #[inline(always)]
    fn reach(&mut self, index: usize)
        ensures room { self.old.room ≤ self.new.room }
        ensures reached { index < self.old.room → index < length self.new.words }
        ensures kept { (i : ℕ) → get_or self.new.words i 0 ≡ get_or self.old.words i 0 }
    {
        if index >= self.words.len() {
            self.add_words(index);
        }
    }

    /// Adds the word with an index, those before it and some after it, as far as there is room.
    // Not inlined, since few blocks need it.
    #[cold]
    #[inline(never)]
    fn add_words(&mut self, index: usize)
        ensures room { self.old.room ≤ self.new.room }
        ensures reached { index < self.old.room → index < length self.new.words }
        ensures kept { length self.old.words ≤ index →
            (i : ℕ) → get_or self.new.words i 0 ≡ get_or self.old.words i 0 }
    {
        let len = index.saturating_add(MORE).min(self.words.capacity());
        // this can't fail, since it takes no more than the capacity
        let _ = self.words.resize(len, 0);
    }

    #[inline(always)]
    fn word(&self, index: usize) -> u64
        ensures { result ≡ get_or self.now.words index 0 }
    {
        self.words.get(index).copied().unwrap_or(0)
    }

    /// Changes a word, unless it is missing.
    #[inline(always)]
    fn put_word(&mut self, index: usize, word: u64)
        ensures words { self.new.words ≡ set self.old.words index word }
        ensures room { self.new.room ≡ self.old.room }
    {
        if let Some(place) = self.words.get_mut(index) {
            *place = word;
        }
    }
}

fn with_bit(word: u64, place: u32) -> u64
    ensures own { place < 64 → bit_at result place ≡ 1 }
    ensures others { place < 64 → (i : ℕ) → KeepsBit word result place i }
{
    word | (1 << (place % 64))
}

fn without_bit(word: u64, place: u32) -> u64
    ensures own { place < 64 → bit_at result place ≡ 0 }
    ensures others { place < 64 → (i : ℕ) → i < 64 → KeepsBit word result place i }
{
    word & !(1 << (place % 64))
}
