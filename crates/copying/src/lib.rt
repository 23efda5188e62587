// Copying and clearing parts of a slice of bytes. Byte by byte: the library's copy would need memmove of whoever links this, and
// its fill takes twice as long for a few bytes.
#![tactic(auto)]

ghost use Rattle.std.specs.Prelude.{◌≡◌, ◌+◌, ◌-◌, ◌≤◌, length, take, drop, replicate};
ghost use Rattle.std.proofs.lemmas.List.Edits.{sets};

// Writes the n bytes of from that start at index a over those of to that start at index b.
pub fn copy(from: &[u8], a: usize, to: &mut [u8], b: usize, n: usize)
    requires { (a + n ≤ length from.now) × (b + n ≤ length to.old) }
    ensures { to.new ≡ sets to.old b (take n (drop a from.now)) }
{
    for k in 0..n {
        to[b + k] = from[a + k];
    }
}

// Sets the bytes from index a up to index e to zero.
pub fn clear(s: &mut [u8], a: usize, e: usize)
    requires { (a ≤ e) × (e ≤ length s.old) }
    ensures { s.new ≡ sets s.old a (replicate (e - a) 0) }
{
    for k in a..e {
        s[k] = 0;
    }
}
