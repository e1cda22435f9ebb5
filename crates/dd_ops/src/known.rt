//! The lists of replacements that substitutions had, each with a number.
ghost use Rattle.std.specs.Prelude.{◌≡◌, ℕ, ◌+◌, ◌<◌, ◌≤◌, ◌↔◌, List, [], All, IfOk, IfSome, IsTrue, Contains, ◌⊎◌, length, slice_set};
ghost use Rattle.dd_cache.specs.declared.key.Key.{Key as Asked};
ghost use Rattle.dd_nodes.specs.declared.node.Node.{Node};
ghost use Rattle.dd_nodes.specs.NodeList.{IsNumber};
ghost use Rattle.dd_ops.specs.Known.{AreEmpty, AreKnown, IsKnownAs, IsKnownAt, IsPut, part_of};

use dd_cache::Cache;
use dd_nodes::Ref;
use std::alloc::{AllocError, Global};

/// How many places there are for lists.
const PLACES: usize = 4096;

/// How many entries the lists have at most, all together.
const ENTRIES: usize = 65536;

/// A list, which is a part of the entries of all lists, and its number.
#[derive(Clone, Copy)]
pub struct KnownList {
    pub number: u64,
    pub start: usize,
    pub end: usize,
}

/// A place that has no list yet: it has the empty one, with the number 0.
const EMPTY: KnownList = KnownList {
    number: 0,
    start: 0,
    end: 0,
};

/// Lists of replacements with their numbers. Each list has one place, which it may lose to another list;
/// then its number is never given again.
#[derive(Drop)]
pub struct KnownLists {
    pub places: Vec<KnownList>,
    pub entries: Vec<(u32, Ref)>,
    ghost few_places: { length places.items ≤ 4096 },
    ghost few_entries: { length entries.items ≤ 65536 },
}

impl KnownLists {
    /// No lists yet. All memory is taken here.
    pub fn new(alloc: Global) -> Result<KnownLists, AllocError>
        ensures empty { IfOk result (λ lists. AreEmpty lists.places.items) }
        ensures no_entries { IfOk result (λ lists. lists.entries.items ≡ []) }
    {
        let mut lists = KnownLists {
            places: Vec::with_capacity(alloc, PLACES)?,
            entries: Vec::with_capacity(alloc, ENTRIES)?,
        };
        lists.forget();
        Ok(lists)
    }

    /// Forgets all lists.
    pub fn forget(&mut self)
        ensures empty { AreEmpty self.new.places.items }
        ensures no_entries { self.new.entries.items ≡ [] }
    {
        self.entries.clear();
        self.places.clear();
        let _ = self.places.resize(PLACES, EMPTY);
    }

    /// The number of the list at a place, if it is this list.
    fn number_at(&self, place: usize, map: &[(u32, Ref)]) -> Option<u64>
        ensures { IfSome result (λ number.
            IsKnownAt self.now.places.items self.now.entries.items map.now number) }
    {
        match self.places.get(place) {
            Some(list) => number_if_same(&self.entries, *list, map),
            None => None,
        }
    }

    /// Puts a list at a place, with its number. A list for which there is no room is left out.
    fn put(&mut self, place: usize, number: u64, map: &[(u32, Ref)])
        ensures { IsPut place number map.now self.old.places.items self.old.entries.items
            self.new.places.items self.new.entries.items }
    {
        if !self.has_room(map) {
            return;
        }
        let start = self.entries.len();
        if self.entries.extend_from_slice(map).is_err() {
            return;
        }
        let end = self.entries.len();
        write(&mut self.places, place, KnownList { number, start, end });
    }

    /// Whether the entries of a list have room.
    fn has_room(&self, map: &[(u32, Ref)]) -> bool
        ensures { IsTrue result ↔ (length self.now.entries.items + length map.now ≤ 65536) }
    {
        map.len() <= ENTRIES.saturating_sub(self.entries.len())
    }
}

/// Writes a list at a place, if there is the place.
fn write(places: &mut Vec<KnownList>, place: usize, list: KnownList)
    ensures { (places.new.items ≡ places.old.items)
        ⊎ (places.new.items ≡ slice_set places.old.items place list) }
{
    if place < places.len() {
        places[place] = list;
    }
}

/// The number of a list, if it is this one.
fn number_if_same(entries: &[(u32, Ref)], list: KnownList, map: &[(u32, Ref)]) -> Option<u64>
    ensures same { IfSome result (λ number. part_of list entries.now ≡ map.now) }
    ensures number { IfSome result (λ number. number ≡ list.number) }
{
    match entries.get(list.start..list.end) {
        Some(part) if are_same(part, map) => Some(list.number),
        _ => None,
    }
}

/// Whether two lists have the same entries.
fn are_same(part: &[(u32, Ref)], map: &[(u32, Ref)]) -> bool
    ensures { IsTrue result → part.now ≡ map.now }
{
    if part.len() != map.len() {
        return false;
    }
    for place in 0..map.len() {
        if !is_same(part[place], map[place]) {
            return false;
        }
    }
    true
}

/// Whether two entries are the same.
fn is_same(a: (u32, Ref), b: (u32, Ref)) -> bool
    ensures { IsTrue result → a ≡ b }
{
    a.0 == b.0 && a.1.0 == b.1.0
}

/// A place for a list.
fn place_of(map: &[(u32, Ref)]) -> usize {
    let mut mixed = 0u64;
    for entry in map {
        mixed = mixed
            .wrapping_mul(0x9E37_79B9_7F4A_7C15)
            .wrapping_add((entry.0 as u64).wrapping_mul(0xBF58_476D_1CE4_E5B9))
            .wrapping_add((entry.1.0 as u64).wrapping_mul(0x94D0_49BB_1331_11EB));
    }
    (mixed >> 52) as usize
}

/// The number of a list: the one that it has, or a new one.
pub fn number_of(
    lists: &mut KnownLists,
    cache: &mut Cache,
    next: &mut u64,
    map: &[(u32, Ref)],
) -> u64
    ensures known { (nodes : List Node)
        → AreKnown nodes lists.old.places.items lists.old.entries.items cache.old.pairs next.old
        → All (λ entry. IsNumber nodes entry.1.0) map.now
        → IsKnownAs nodes lists.new.places.items lists.new.entries.items cache.new.pairs next.new
        map.now result }
    ensures within { (key : Asked) (value : ℕ) → Contains cache.new.pairs (key, value)
        → Contains cache.old.pairs (key, value) }
{
    let place = place_of(map);
    if let Some(number) = lists.number_at(place, map) {
        return number;
    }
    let number = next_number(lists, cache, next);
    lists.put(place, number, map);
    number
}

/// A new number. Where the numbers are used up, the cache and the lists are forgotten, and they begin
/// again at 1.
fn next_number(lists: &mut KnownLists, cache: &mut Cache, next: &mut u64) -> u64
    ensures known { (nodes : List Node)
        → AreKnown nodes lists.old.places.items lists.old.entries.items cache.old.pairs next.old
        → AreKnown nodes lists.new.places.items lists.new.entries.items cache.new.pairs result }
    ensures next { next.new ≡ result + 1 }
    ensures within { (key : Asked) (value : ℕ) → Contains cache.new.pairs (key, value)
        → Contains cache.old.pairs (key, value) }
{
    if *next == u64::MAX {
        cache.forget();
        lists.forget();
        *next = 2;
        return 1;
    }
    let number = *next;
    *next = number + 1;
    number
}
