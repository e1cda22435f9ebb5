//! The cache.
ghost use Rattle.std.specs.Prelude.{◌≡◌, ℕ, ◌/◌, ◌<◌, ◌≤◌, ◌⊎◌, [], length, max, vec_capacity, slice_set};
ghost use Rattle.std.specs.Prelude.{Some, IfOk, IfSome, IsTrue, true, is_some, if◌then◌else◌, Contains};
ghost use Rattle.dd_cache.specs.declared.key.Key.{Key as Asked};
ghost use Rattle.dd_cache.specs.CacheMap.{Has, one_more};
ghost use Rattle.dd_cache.specs.Places.{mixed, place_of, pairs_of, ArePlaced};

use crate::key::Key;
use std::alloc::{AllocError, Global};
use std::marker::Model;

/// How many places a cache has at first.
const FEW: usize = 1024;

/// A place: a pair, if it is used.
#[derive(Clone, Copy)]
struct Entry {
    key: Key,
    value: u32,
    used: bool,
}

/// A place that is not used.
const EMPTY: Entry = Entry {
    key: Key {
        op: 0,
        a: 0,
        b: 0,
        c: 0,
        call: 0,
    },
    value: 0,
    used: false,
};

/// A bounded map from keys to values, which may lose any pair when it is given another one.
///
/// A contract sees it as a record of `pairs` and `hits`, the number of look-ups that gave a value.
/// Each key has one place, so it has at most one value. There are few places at first, and twice as
/// many once about as many pairs were kept, within the memory that `new` took: a map with twice as
/// many places begins empty.
#[derive(Drop)]
pub struct Cache {
    entries: Vec<Entry>,
    /// The largest number of places.
    most: usize,
    /// How many pairs may be kept before there are more places.
    left: usize,
    hits: u64,
}

impl Model for Cache {
    ghost use Rattle.std.specs.Prelude.{◌<◌, ◌≤◌, length, vec_capacity};
    ghost use Rattle.dd_cache.specs.CacheMap.{CacheMap};

    ghost Value = { CacheMap };

    ghost use Rattle.dd_cache.specs.Places.{pairs_of, ArePlaced};

    ghost view = { λ cache. record { pairs = pairs_of cache.entries.items; hits = cache.hits } };

    ghost invariant = { λ cache. (0 < length cache.entries.items)
        × (length cache.entries.items ≤ cache.most)
        × (cache.most ≤ 4194304)
        × (cache.most ≤ vec_capacity cache.entries)
        × ArePlaced cache.entries.items };
}

impl Cache {
    /// An empty cache for the operations on a table of at most `limit` nodes. It takes all memory
    /// that it will ever want: 32 bytes for each place, and for each eighth node a place, rounded up
    /// to a power of two.
    pub fn new(alloc: Global, limit: u32) -> Result<Cache, AllocError>
        requires { limit ≤ 16777216 }
        ensures empty { IfOk result (λ cache. cache.pairs ≡ []) }
        ensures hits { IfOk result (λ cache. cache.hits ≡ 0) }
    {
        let most = most_places(limit);
        let places = most.min(FEW);
        let mut entries = Vec::with_capacity(alloc, most)?;
        clear(&mut entries, places);
        Ok(Cache {
            entries,
            most,
            left: places,
            hits: 0,
        })
    }

    /// The value of a key, if the map has it.
    pub fn cached(&mut self, key: &Key) -> Option<u32>
        ensures found { IfSome result (λ value. Has self.old key.now value) }
        ensures exact { (value : ℕ) → Has self.old key.now value → result ≡ Some value }
        ensures kept { self.new.pairs ≡ self.old.pairs }
        ensures hits { self.new.hits
            ≡ (if is_some result then one_more self.old.hits else self.old.hits) }
    {
        match find(&self.entries, key) {
            Some(value) => {
                self.hits = self.hits.saturating_add(1);
                Some(value)
            }
            None => None,
        }
    }

    /// Keeps a pair, which may take the place of others.
    pub fn keep(&mut self, key: Key, value: u32)
        ensures kept { Has self.new key value }
        ensures others { (k : Asked) (v : ℕ) → Has self.new k v
            → Has self.old k v ⊎ ((k ≡ key) × (v ≡ value)) }
        ensures hits { self.new.hits ≡ self.old.hits }
    {
        self.widen();
        put(&mut self.entries, key, value);
    }

    /// Counts a pair that is to be kept. Once there were as many as there are places, it makes twice
    /// as many places, if there may be more, and then begins empty.
    fn widen(&mut self)
        ensures others { (k : Asked) (v : ℕ) → Has self.new k v → Has self.old k v }
        ensures hits { self.new.hits ≡ self.old.hits }
    {
        let places = self.entries.len();
        if self.left > 0 {
            self.left -= 1;
        } else if places < self.most {
            let more = (2 * places).min(self.most);
            clear(&mut self.entries, more);
            self.left = more;
        }
    }

    /// Forgets all pairs.
    pub fn forget(&mut self)
        ensures empty { self.new.pairs ≡ [] }
        ensures hits { self.new.hits ≡ self.old.hits }
    {
        let places = self.entries.len();
        clear(&mut self.entries, places);
        self.left = places;
    }

    /// How many look-ups gave a value. The number stands still at its last value.
    pub fn hits(&self) -> u64
        ensures { result ≡ self.now.hits }
    {
        self.hits
    }
}

/// The largest number of places of a cache for `limit` nodes: the least power of two that is an
/// eighth of them or more.
fn most_places(limit: u32) -> usize
    requires { limit ≤ 16777216 }
    ensures enough { limit / 8 ≤ result }
    ensures few { result ≤ max 1 (limit / 4) }
    ensures some { 0 < result }
{
    let mut most = 1;
    while most < limit as usize / 8 {
        most *= 2;
    }
    most
}

/// The place of a key.
fn place(key: &Key, places: usize) -> usize
    requires some { 0 < places }
    requires few { places ≤ 4194304 }
    ensures place { result ≡ place_of key.now places }
    ensures within { result < places }
{
    (mix(key) / 4_294_967_296 * places as u64 / 4_294_967_296) as usize
}

/// A sum of the key's numbers, each with a factor of its own.
fn mix(key: &Key) -> u64
    ensures { result ≡ mixed key.now }
{
    (key.op as u64)
        .wrapping_mul(0x9E37_79B9_7F4A_7C15)
        .wrapping_add((key.a as u64).wrapping_mul(0xBF58_476D_1CE4_E5B9))
        .wrapping_add((key.b as u64).wrapping_mul(0x94D0_49BB_1331_11EB))
        .wrapping_add((key.c as u64).wrapping_mul(0xC2B2_AE3D_27D4_EB4F))
        .wrapping_add(key.call.wrapping_mul(0xD41F_8E3B_6A72_1CFD))
}

/// The value of a key, if its place has it.
fn find(entries: &Vec<Entry>, key: &Key) -> Option<u32>
    requires some { 0 < length entries.now.items }
    requires few { length entries.now.items ≤ 4194304 }
    ensures found { IfSome result (λ value. Contains (pairs_of entries.now.items) (key.now, value)) }
    ensures exact { ArePlaced entries.now.items → (value : ℕ)
        → Contains (pairs_of entries.now.items) (key.now, value) → result ≡ Some value }
{
    let entry = entries[place(key, entries.len())];
    if has_key(&entry, key) {
        Some(entry.value)
    } else {
        None
    }
}

/// Whether a place has a pair with this key.
fn has_key(entry: &Entry, key: &Key) -> bool
    ensures yes { IsTrue result → (entry.now.used ≡ true) × (entry.now.key ≡ key.now) }
    ensures no { entry.now.used ≡ true → entry.now.key ≡ key.now → IsTrue result }
{
    entry.used && entry.key == *key
}

/// Puts a pair into the place of its key.
fn put(entries: &mut Vec<Entry>, key: Key, value: u32)
    requires some { 0 < length entries.old.items }
    requires few { length entries.old.items ≤ 4194304 }
    ensures kept { Contains (pairs_of entries.new.items) (key, value) }
    ensures others { (k : Asked) (v : ℕ) → Contains (pairs_of entries.new.items) (k, v)
        → Contains (pairs_of entries.old.items) (k, v) ⊎ ((k ≡ key) × (v ≡ value)) }
    ensures placed { ArePlaced entries.old.items → ArePlaced entries.new.items }
    ensures length { length entries.new.items ≡ length entries.old.items }
    ensures capacity { vec_capacity entries.new ≡ vec_capacity entries.old }
{
    let at = place(&key, entries.len());
    write(
        entries,
        at,
        Entry {
            key,
            value,
            used: true,
        },
    );
}

/// Writes a place.
fn write(entries: &mut Vec<Entry>, at: usize, entry: Entry)
    requires { at < length entries.old.items }
    ensures written { entries.new.items ≡ slice_set entries.old.items at entry }
    ensures capacity { vec_capacity entries.new ≡ vec_capacity entries.old }
{
    entries[at] = entry;
}

/// Makes so many places, none of them used.
fn clear(entries: &mut Vec<Entry>, places: usize)
    requires { places ≤ vec_capacity entries.old }
    ensures empty { pairs_of entries.new.items ≡ [] }
    ensures placed { ArePlaced entries.new.items }
    ensures length { length entries.new.items ≡ places }
    ensures capacity { vec_capacity entries.old ≤ vec_capacity entries.new }
{
    entries.clear();
    let _ = entries.resize(places, EMPTY);
}
