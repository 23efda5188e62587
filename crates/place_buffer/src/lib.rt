// A set of places in lent memory, 24 bytes a place. What has no room is refused only where the set itself is too large.
#![tactic(auto)]

ghost use Rattle.std.specs.Prelude.{◌*◌, ◌≤◌, length};
ghost use Rattle.place_buffer.specs.Scratch.{Tidied, Valid, valid_prop};

use definitions::LOCATION_SIZE;
use location::SpacetimeLocation;
use location_lists::List;

// What is known of a set: it is the places of scratch from number base to count - 1.
// tight: there is no room, and they ascend, so that a further place is only looked up. full: one had no room, and the set is refused.
#[derive(Clone, Copy)]
pub struct Places {
    pub base: usize,
    pub count: usize,
    pub tight: bool,
    pub full: bool,
}

// A set of places with the scratch that is lent to it.
#[derive(Drop)]
pub struct PlaceSet<'s> {
    pub scratch: &'s mut [u8],
    pub known: Places,
    pub ghost valid: { Valid scratch.now known.base known.count known.tight } by { valid_prop scratch.now known.base known.count known.tight },
}

// Sorts the places from base to count - 1 and drops those that repeat. Answers the new count.
pub fn tidy(scratch: &mut [u8], base: usize, count: usize) -> usize
    requires { (base ≤ count) × (count * 24 ≤ length scratch.old) }
    ensures { Tidied scratch.old scratch.new base count result }
{
    let at = base * LOCATION_SIZE;
    let n = count - base;
    sort::sort::<3>(scratch, at, n);
    let kept = records::drop_repeats::<3>(scratch, at, n);
    base + kept
}

impl<'s> PlaceSet<'s> {
    ghost use Rattle.std.specs.Prelude.{◌≡◌, true, false, ◌+◌, ◌*◌, ◌≤◌, ◌<◌, length, Some};
    ghost use Rattle.definitions.specs.Location.{location_at, locations_in};
    ghost use Rattle.location.specs.Plain.{plain};
    ghost use Rattle.place_lookup.specs.Lookup.{There};
    ghost use Rattle.place_buffer.specs.Buffer.{held, Behind, TidiedTo, Placed, Taken};

    // An empty set behind place number base.
    pub fn behind(scratch: &'s mut [u8], base: usize) -> PlaceSet<'s>
        requires { base * 24 ≤ length scratch.old }
        ensures { Behind scratch.entry base result }
    {
        let known = Places {
            base,
            count: base,
            tight: false,
            full: false,
        };
        PlaceSet { scratch, known }
    }

    // Place number i of scratch, within the set or before it.
    pub fn location(&self, i: usize) -> SpacetimeLocation
        requires { i < self.now.known.count }
        ensures { plain result ≡ location_at self.now.scratch.now (i * 24) }
    {
        location::location_at(self.scratch, i * LOCATION_SIZE)
    }

    // Sorts the places and drops those that repeat.
    pub fn tidy(&mut self)
        ensures { TidiedTo self.old self.new }
    {
        self.known.tight = false;
        self.known.count = tidy(self.scratch, self.known.base, self.known.count);
    }

    // Whether l is in a set that is tight.
    fn has(&self, l: SpacetimeLocation) -> bool
        requires { self.now.known.tight ≡ true }
        ensures { There result (plain l) (held self.now) }
    {
        let at = self.known.base * LOCATION_SIZE;
        place_lookup::is_there(self.scratch, at, self.known.count - self.known.base, l)
    }

    // Adds l to a set that is tight: it is there already, or has no room.
    fn look_up(&mut self, l: SpacetimeLocation) -> Option<()>
        requires { (self.old.known.tight ≡ true) × (self.old.known.full ≡ false) }
        ensures { Placed self.old self.new (plain l) result }
    {
        if self.has(l) {
            Some(())
        } else {
            self.known.full = true;
            None
        }
    }

    // Adds l behind the places of a set, where there is room.
    fn append(&mut self, l: SpacetimeLocation)
        requires { (self.old.known.tight ≡ false) × (self.old.known.full ≡ false) × (self.old.known.count * 24 + 24 ≤ length self.old.scratch.now) }
        ensures { Placed self.old self.new (plain l) (Some tt) }
    {
        location::put_location(self.scratch, self.known.count * LOCATION_SIZE, l);
        self.known.count += 1;
    }

    // Adds l to a set. Where there is no room, those that repeat are dropped first.
    // None where there is none even then, and from then on.
    pub fn place(&mut self, l: SpacetimeLocation) -> Option<()>
        ensures { Placed self.old self.new (plain l) result }
    {
        let Places { tight, full, .. } = self.known;
        if full {
            return None;
        }
        if tight {
            return self.look_up(l);
        }
        if self.known.count < self.scratch.len() / LOCATION_SIZE {
            self.append(l);
            return Some(());
        }
        let count = self.known.count;
        self.tidy();
        if self.known.count < count {
            self.append(l);
            return Some(());
        }
        self.known.tight = true;
        self.look_up(l)
    }

    // Adds the locations of a list in img to a set, one by one.
    fn take_each(&mut self, img: &[u8], list: List) -> Option<()>
        requires { list.at + list.count * 24 ≤ length img.now }
        ensures { Taken self.old self.new (locations_in img.now list.count list.at) result }
    {
        if self.known.full {
            return None;
        }
        for i in 0..list.count {
            self.place(location::location_at(img, list.at + i * LOCATION_SIZE))?;
        }
        Some(())
    }

    // Adds the locations of a list in img to a set. Where there is room for all of them they are copied as they stand.
    pub fn take_list(&mut self, img: &[u8], list: List) -> Option<()>
        requires { list.at + list.count * 24 ≤ length img.now }
        ensures { Taken self.old self.new (locations_in img.now list.count list.at) result }
    {
        if self.scratch.len() / LOCATION_SIZE - self.known.count < list.count {
            return self.take_each(img, list);
        }
        if self.known.full {
            return None;
        }
        let to = self.known.count * LOCATION_SIZE;
        self.known.tight = false;
        copying::copy(img, list.at, self.scratch, to, list.count * LOCATION_SIZE);
        self.known.count += list.count;
        Some(())
    }
}
