// The entries of a certificate in the order of their pieces, and whether a piece behind another lives together with it inside it.

ghost use Rattle.std.specs.Prelude.{◌≡◌, not, ◌&&◌, ℕ, ◌+◌, ◌-◌, ◌≤◌, ◌<◌, ltb};
ghost use Rattle.definitions.specs.Calls.{last_number};
ghost use Rattle.lined_locations.specs.declared.LineKind.TheVariants.{Logged};
ghost use Rattle.lined_locations.specs.Line.{location_of};
ghost use Rattle.certificate.specs.Entries.{all, length_of, piece_end, lives_inside};
ghost use Rattle.certificate.specs.Groups.{Group, NoneBeyond, CreatedBefore, Apart};

use lined_locations::{CERTIFIED_SIZE, Ordered};
use memory_header::{HEADER_SIZE, LOGGED_SIZE};

// Entries in line by the numbers of pieces in the log, none of which goes beyond the last address.
#[derive(Clone, Copy)]
pub struct Certified<'a> {
    pub entries: Ordered<'a>,
    pub ghost logged: { entries.line.kind ≡ Logged },
    pub ghost below: { (i : ℕ) → i < entries.line.count → piece_end entries.line i ≤ last_number },
}

impl Certified<'_> {
    // The length of the piece of entry i.
    pub fn piece_size(self, i: usize) -> u64
        requires { i < self.entries.line.count }
        ensures { result ≡ length_of self.entry.entries.line i }
    {
        let line = self.entries.line;
        let number = words::get64(line.bytes, line.base + CERTIFIED_SIZE * i) as usize;
        words::get64(line.bytes, HEADER_SIZE + LOGGED_SIZE * number)
    }

    // Where it ends.
    fn piece_end(self, i: usize) -> u64
        requires { i < self.entries.line.count }
        ensures { result ≡ piece_end self.entry.entries.line i }
    {
        let size = self.piece_size(i);
        let x = self.entries.line.location(i);
        x.address.0 + size
    }

    // Where the entries at the address of entry g end.
    fn group_end(self, g: usize) -> usize
        requires { g < self.entries.line.count }
        ensures { Group self.entry.entries.line.count (location_of self.entry.entries.line) g result }
    {
        let line = self.entries.line;
        let x = line.location(g);
        for e in g + 1..line.count {
            let l = line.location(e);
            if x.address.0 < l.address.0 {
                return e;
            }
        }
        line.count
    }

    // An address that no piece of the entries from i to e - 1 goes beyond: the greatest end of them.
    fn reach(self, i: usize, e: usize) -> u64
        requires { (i ≤ e) × (e ≤ self.entries.line.count) }
        ensures { NoneBeyond (piece_end self.entry.entries.line) i e result }
    {
        let mut end = 0;
        for j in i..e {
            end = self.piece_end(j).max(end);
        }
        end
    }

    // The first entry from q on and below h that is not created before a tick, or h.
    fn created_from(self, q: usize, h: usize, tick: u64) -> usize
        requires { (q ≤ h) × (h ≤ self.entries.line.count) }
        ensures { CreatedBefore (location_of self.entry.entries.line) q h tick result }
    {
        for r in q..h {
            let l = self.entries.line.location(r);
            if tick <= l.created_at.0 {
                return r;
            }
        }
        h
    }

    // Whether entry q - 1 is one of those from g on, and ends after a tick.
    fn lives_on(self, g: usize, q: usize, tick: u64) -> bool
        requires { q ≤ self.entries.line.count }
        ensures { result ≡ (ltb g q && ltb tick (location_of self.entry.entries.line (q - 1)).destroyed) }
    {
        if q <= g {
            return false;
        }
        let last = self.entries.line.location(q - 1);
        tick < last.destroyed_at.0
    }

    // Whether no piece at the address of entries i to e - 1 lives together with one that begins inside it at that of g to h - 1. The
    // last that is created before a piece ends decides, and stands no earlier for the next piece: one pass through both.
    fn pair_apart(self, i: usize, e: usize, g: usize, h: usize) -> bool
        requires { Group self.entries.line.count (location_of self.entries.line) i e × Group self.entries.line.count (location_of self.entries.line) g h }
        ensures { Apart result (location_of self.entry.entries.line) (piece_end self.entry.entries.line) i e g h }
    {
        let b = self.entries.line.location(g);
        let mut q = g;
        for j in i..e {
            let end = self.piece_end(j);
            let x = self.entries.line.location(j);
            if end <= b.address.0 {
                continue;
            }
            q = self.created_from(q, h, x.destroyed_at.0);
            if self.lives_on(g, q, x.created_at.0) {
                return false;
            }
        }
        true
    }

    // Whether none of the pieces at the address of entries i to e - 1 lives together with one behind them that begins inside it.
    fn group_apart(self, i: usize, e: usize) -> bool
        requires { Group self.entries.line.count (location_of self.entries.line) i e }
        ensures { Apart result (location_of self.entry.entries.line) (piece_end self.entry.entries.line) i e e self.entry.entries.line.count }
    {
        let line = self.entries.line;
        let end = self.reach(i, e);
        let mut g = e;
        while g < line.count {
            let l = line.location(g);
            if end <= l.address.0 {
                return true;
            }
            let h = self.group_end(g);
            if !self.pair_apart(i, e, g, h) {
                return false;
            }
            g = h;
        }
        true
    }

    // Whether the next entry is at an address inside the piece of entry i. Where it isn't, none behind it is.
    fn next_inside(self, i: usize) -> bool
        requires { i < self.entries.line.count }
        ensures { result ≡ (ltb (i + 1) self.entry.entries.line.count && ltb (location_of self.entry.entries.line (i + 1)).address (piece_end self.entry.entries.line i)) }
    {
        if self.entries.line.count <= i + 1 {
            return false;
        }
        let end = self.piece_end(i);
        let next = self.entries.line.location(i + 1);
        next.address.0 < end
    }

    // Whether no piece behind another in line lives together with it at an address inside it.
    pub(crate) fn none_inside(self) -> bool
        ensures { result ≡ all (λ i. not (lives_inside (location_of self.entry.entries.line) (piece_end self.entry.entries.line) self.entry.entries.line.count i)) self.entry.entries.line.count }
    {
        let mut i = 0;
        while i < self.entries.line.count {
            if self.next_inside(i) {
                let e = self.group_end(i);
                if !self.group_apart(i, e) {
                    return false;
                }
                i = e;
            } else {
                i += 1;
            }
        }
        true
    }
}
