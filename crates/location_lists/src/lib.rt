// Lists of locations where they stand in an image: whether one ascends, is sound, or is the union of others.
#![tactic(auto)]

ghost use Rattle.std.specs.Prelude.{ℕ, ◌≡◌, ◌+◌, ◌*◌, ◌^◌, ◌≤◌, ◌<◌, length, take};
ghost use Rattle.std.proofs.Math.Dec.{compare_is_eq};
ghost use Rattle.definitions.specs.Location.{order, location_at};
ghost use Rattle.location.specs.Plain.{plain};
ghost use Rattle.trie.specs.Test.{is_ascending, all_pass, is_union};
ghost use Rattle.location_lists.specs.Lists.{held, Within, span_of, spans_in, lists_in, IsList, AreSpans, AreLists, with_list, emptied, Kept};
ghost use Rattle.location_lists.specs.Steps.{has_next, stepped, stepped_all, any_next, ended_from};

use definitions::LOCATION_SIZE;
use location::SpacetimeLocation;

// A list of locations: where it starts, and how many it has.
#[derive(Clone, Copy)]
pub struct List {
    pub at: usize,
    pub count: usize,
}

impl List {
    // Where it ends.
    pub fn end(self) -> usize
        requires { self.at + self.count * 24 < 2 ^ 64 }
        ensures { result ≡ self.at + self.count * 24 }
    {
        self.at + self.count * LOCATION_SIZE
    }

    // All of it, to be walked over.
    pub fn span(self) -> Span
        requires { self.at + self.count * 24 < 2 ^ 64 }
        ensures { result ≡ record { at = self.at; end = self.at + self.count * 24 } }
    {
        Span {
            at: self.at,
            end: self.end(),
        }
    }
}

// Where a list that is walked over goes on, and where it ends.
#[derive(Clone, Copy)]
pub struct Span {
    pub at: usize,
    pub end: usize,
}

// Lists that are walked over at once, in spans that are lent. What is read ahead of the walk is kept beside them, so that it is read.
#[derive(Drop)]
pub struct Lists<'a> {
    pub each: &'a mut [Span],
    pub count: usize,
    pub ahead: u64,
}

impl<'a> Lists<'a> {
    // No lists, and room for as many as the spans that are lent.
    pub fn new(each: &'a mut [Span]) -> Lists<'a>
        ensures { result ≡ record { each = each.entry; count = 0; ahead = 0 } }
    {
        Lists {
            each,
            count: 0,
            ahead: 0,
        }
    }

    // Takes all of them away.
    pub fn clear(&mut self)
        ensures { self.new ≡ emptied self.old }
    {
        self.count = 0;
    }

    // Adds a list, if it has any locations.
    pub fn add(&mut self, list: List)
        requires { (self.old.count < length self.old.each.now) × (list.at + list.count * 24 < 2 ^ 64) }
        ensures { self.new ≡ with_list self.old list }
    {
        if list.count == 0 {
            return;
        }
        self.each[self.count] = list.span();
        self.count += 1;
    }

    // Whether the locations of a list, each back by so many addresses, are those of these, which are used up.
    pub fn is_union(&mut self, s: &[u8], list: List, back: u64) -> bool
        requires { Within s.now list × AreLists s.now self.old }
        ensures says { result ≡ is_union back (held s.now list) (lists_in s.now self.old) }
        ensures keeps { Kept self.old self.new }
    {
        let count = self.count;
        is_union_of_first(s, list, back, self.each, count)
    }
}

// Whether each location of a list comes before the next.
pub fn is_ascending(s: &[u8], list: List) -> bool
    requires { Within s.now list }
    ensures { result ≡ is_ascending (held s.now list) }
{
    for i in 1..list.count {
        let l = location::location_at(s, list.at + (i - 1) * LOCATION_SIZE);
        let m = location::location_at(s, list.at + i * LOCATION_SIZE);
        if !l.before(m) {
            return false;
        }
    }
    true
}

// Whether the locations of a list pass the checks on a block's life and end, for a piece of depth bytes.
// The address is compared with what is left of the numbers, since a sum with it could wrap.
pub fn are_sound(s: &[u8], list: List, depth: usize) -> bool
    requires { Within s.now list }
    ensures { result ≡ all_pass depth (held s.now list) }
{
    let top = u64::MAX - depth as u64;
    for i in 0..list.count {
        let l = location::location_at(s, list.at + i * LOCATION_SIZE);
        if l.destroyed_at.0 <= l.created_at.0 {
            return false;
        }
        if top < l.address.0 {
            return false;
        }
    }
    true
}

// Whether the location at index p is key. Most differ in the address, so that the other numbers are read behind it.
pub fn is_at(s: &[u8], p: usize, key: SpacetimeLocation) -> bool
    requires { p + 24 ≤ length s.now }
    ensures { result ≡ compare_is_eq (order (location_at s.now p) (plain key)) }
{
    words::get64(s, p) == key.address.0
        && words::get64(s, p + 8) == key.created_at.0
        && words::get64(s, p + 16) == key.destroyed_at.0
}

// Steps over key in each list that has it next, and says whether any has.
fn step_over(s: &[u8], key: SpacetimeLocation, lists: &mut [Span]) -> bool
    requires { AreSpans s.now lists.old }
    ensures { (lists.new ≡ stepped_all s.now (plain key) lists.old) × (result ≡ any_next s.now (plain key) lists.old (length lists.old) 0) }
{
    let mut met = 0usize;
    for list in lists.iter_mut() {
        if list.at < list.end && is_at(s, list.at, key) {
            list.at += LOCATION_SIZE;
            met += 1;
        }
    }
    met != 0
}

// Whether each list is at its end.
fn all_ended(lists: &[Span]) -> bool
    ensures { result ≡ ended_from lists.now (length lists.now) 0 }
{
    for list in lists {
        if list.at != list.end {
            return false;
        }
    }
    true
}

// Whether the locations of a list, each back by so many addresses, are those of the others.
// It walks over all of them at once, and uses the others up.
pub fn is_union(s: &[u8], list: List, back: u64, lists: &mut [Span]) -> bool
    requires { Within s.now list × AreSpans s.now lists.old }
    ensures says { result ≡ is_union back (held s.now list) (spans_in s.now lists.old) }
    ensures keeps { length lists.new ≡ length lists.old }
{
    for i in 0..list.count {
        let l = location::location_at(s, list.at + i * LOCATION_SIZE);
        let Some(address) = l.address.0.checked_sub(back) else {
            return false;
        };
        let key = SpacetimeLocation::new(address, l.created_at.0, l.destroyed_at.0);
        if !step_over(s, key, lists) {
            return false;
        }
    }
    all_ended(lists)
}

// The same of the first of them alone: the others stay as they are.
fn is_union_of_first(s: &[u8], list: List, back: u64, lists: &mut [Span], count: usize) -> bool
    requires { Within s.now list × (count ≤ length lists.old) × AreSpans s.now (take count lists.old) }
    ensures says { result ≡ is_union back (held s.now list) (spans_in s.now (take count lists.old)) }
    ensures keeps { (length lists.new ≡ length lists.old) × ((k : ℕ) → count ≤ k → span_of lists.new k ≡ span_of lists.old k) }
{
    is_union(s, list, back, &mut lists[..count])
}
