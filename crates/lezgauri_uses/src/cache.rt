use lezgauri::{
    AllocatorKind, Code, Error, Image, ImageRead, IndexKind, Place, Type, TypeId, type_table,
};
use std::alloc::Global;

/// The types of the cache, by number: a number, a map of numbers, and a list of numbers.
const NUMBER: TypeId = 0;

const VALUES: TypeId = 1;

const ORDER: TypeId = 2;

/// A cache of numbers in an open image. When it is full, its oldest key is dropped. A cache of no keys keeps nothing.
#[derive(Drop)]
pub struct Cache {
    image: Image<Global>,
    values: Place,
    order: Place,
    most: u32,
}

impl Cache {
    ghost use Rattle.std.specs.Prelude.{◌≡◌, ◌≤◌, ℕ, ℤ, List, [], ◌∷◌, ◌++◌, Ok, Err, None, Some, IfOk, OnOk};
    ghost use Rattle.seg_spec.specs.Value.{Values, nil, Int};
    ghost use Rattle.seg_spec.specs.Items.{key_place};
    ghost use Rattle.lezgauri_uses.specs.Tables.{number_at, after_set};
    ghost use Rattle.lezgauri_uses.specs.CacheModel.{IsCache, HasEntered, most_of};
    ghost use Rattle.lezgauri_uses.specs.Caches.{bare, picture_of, without_key, KeepsCache};
    ghost use Rattle.lezgauri.specs.Images.{IsOpen};

    /// A new cache of at most `most` keys.
    pub fn new(alloc: Global, most: u32) -> Result<Cache, Error>
        ensures empty { IfOk result (λ cache. IsCache cache [] ([], nil)) }
        ensures most { IfOk result (λ cache. most_of cache ≡ most) }
    {
        let mut image = Image::create(alloc, 4096, AllocatorKind::Best, IndexKind::Tree)?;
        image.add_types(&type_table(&[Type::I64, Type::Map(NUMBER), Type::List(NUMBER)])?)?;
        Ok(Cache::in_image(image, most)?)
    }

    /// The cache in a saved image. If it has more than `most` keys, the next key that is entered drops the oldest ones.
    pub fn open(alloc: Global, image: Vec<u8>, most: u32) -> Result<Cache, Error>
        ensures opens { (keys : List ℤ) (entries : List ℤ × Values) →
            KeepsCache image.items keys entries →
            IfOk result (λ cache. IsCache cache keys entries) }
        ensures most { IfOk result (λ cache. most_of cache ≡ most) }
    {
        Ok(Cache::in_image(Image::open(alloc, image)?, most)?)
    }

    /// The cache in an open image, which gets the cache's objects if it doesn't have them.
    fn in_image(mut image: Image<Global>, most: u32) -> Result<Cache, Code>
        ensures makes { IsOpen image bare →
            IfOk result (λ cache. IsCache cache [] ([], nil)) }
        ensures finds { (keys : List ℤ) (entries : List ℤ × Values) (order_at values_at : ℕ) →
            IsOpen image (picture_of order_at values_at keys entries) →
            IfOk result (λ cache. IsCache cache keys entries) }
        ensures most { IfOk result (λ cache. most_of cache ≡ most) }
    {
        let values = image.find_or_construct(b"values", VALUES)?;
        let order = image.find_or_construct(b"order", ORDER)?;
        Ok(Cache {
            image,
            values,
            order,
            most,
        })
    }

    /// The number of a key. Fails with `Absent` if the cache doesn't have the key.
    pub fn get(&self, key: i64) -> Result<i64, Code>
        ensures has { (keys : List ℤ) (entries : List ℤ × Values) (number : ℤ) →
            IsCache self.now keys entries → number_at entries key ≡ Some (Int number) →
            result ≡ Ok number }
        ensures lacks { (keys : List ℤ) (entries : List ℤ × Values) →
            IsCache self.now keys entries → key_place entries.0 key ≡ None →
            result ≡ Err Code.Absent }
    {
        self.image.load(self.image.get(self.values, key)?)
    }

    /// Enters a key that the cache doesn't have. The image grows if it is full.
    pub fn enter(&mut self, key: i64, number: i64) -> Result<(), Error>
        ensures enters { (keys : List ℤ) (entries : List ℤ × Values) →
            IsCache self.old keys entries → 1 ≤ most_of self.old →
            OnOk result (HasEntered self.old self.new keys entries key number) }
        ensures nothing { most_of self.old ≡ 0 → (result ≡ Ok tt) × (self.new ≡ self.old) }
        ensures most { most_of self.new ≡ most_of self.old }
    {
        if self.most == 0 {
            return Ok(());
        }
        self.make_room()?;
        let held = self.image.len(self.order)?;
        for _ in 0..held.saturating_sub(self.most - 1) {
            self.drop_oldest()?;
        }
        self.add(key, number)?;
        Ok(())
    }

    /// Grows the image if it has no room for one more key.
    fn make_room(&mut self) -> Result<(), Error>
        ensures same { (keys : List ℤ) (entries : List ℤ × Values) →
            IsCache self.old keys entries → OnOk result (IsCache self.new keys entries) }
        ensures most { self.new.most ≡ self.old.most }
    {
        if self.image.largest_gap() < 256 {
            self.image.grow(4096)?;
        }
        Ok(())
    }

    /// Adds a key at the end of the order, with its number.
    fn add(&mut self, key: i64, number: i64) -> Result<(), Code>
        ensures adds { (keys : List ℤ) (entries : List ℤ × Values) →
            IsCache self.old keys entries →
            OnOk result (IsCache self.new (keys ++ key ∷ []) (after_set entries key number)) }
        ensures has { (keys : List ℤ) (entries : List ℤ × Values) →
            IsCache self.old keys entries →
            OnOk result (number_at (after_set entries key number) key ≡ Some (Int number)) }
        ensures most { self.new.most ≡ self.old.most }
    {
        let value = self.image.put(self.values, key)?;
        self.image.store(value, number)?;
        let last = self.image.push_back(self.order)?;
        self.image.store(last, key)
    }

    /// Removes the oldest key, with its number.
    fn drop_oldest(&mut self) -> Result<(), Code>
        ensures drops { (oldest : ℤ) (keys : List ℤ) (entries : List ℤ × Values) →
            IsCache self.old (oldest ∷ keys) entries →
            OnOk result (IsCache self.new keys (without_key entries oldest)) }
        ensures most { self.new.most ≡ self.old.most }
    {
        let oldest = self.image.load(self.image.item(self.order, 0)?)?;
        self.image.remove(self.values, oldest);
        self.image.pop_front(self.order)
    }

    /// A copy of the cache's image to save, while the cache stays open.
    pub fn save(&self, alloc: Global) -> Result<Vec<u8>, Error>
        ensures { (keys : List ℤ) (entries : List ℤ × Values) → IsCache self.now keys entries →
            IfOk result (λ saved. KeepsCache saved.items keys entries) }
    {
        Ok(self.image.save(alloc)?)
    }
}
