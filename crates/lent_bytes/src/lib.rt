// Bytes of lent memory: one read or stored, many copied to a place, filled, or made zero. What doesn't lie within the
// slices reads as zero and is left out.
#![tactic(auto)]

ghost use Rattle.std.specs.Prelude.{◌≡◌, ◌-◌, ◌<◌, min, get_or, take, drop, set, replicate};
ghost use Rattle.std.proofs.lemmas.List.Edits.{sets};

// The byte i; 0 past the end.
pub fn byte_at(s: &[u8], i: usize) -> usize
    ensures { (result ≡ get_or s.now i 0) × (result < 256) }
{
    if i < s.len() { s[i] as usize } else { 0 }
}

// One byte at a place of `out`, where there is one.
pub fn put(b: u8, out: &mut [u8], to: usize)
    ensures { out.new ≡ set out.old to b }
{
    if to < out.len() {
        out[to] = b;
    }
}

// So many bytes of `src` from `from` on go to `dst` from `to` on.
pub fn copy(src: &[u8], from: usize, n: usize, dst: &mut [u8], to: usize)
    ensures { dst.new ≡ sets dst.old to (take n (drop from src.now)) }
{
    let there = within(n, src.len(), from);
    let m = within(there, dst.len(), to);
    // Kept: the library's copy would have a C program bring `memmove` to the archive that holds the reader (`bench`).
    for i in 0..m {
        dst[to + i] = src[from + i];
    }
}

// A store without the bytes that it held: so many of its first are zero.
pub fn clear(store: &mut [u8], held: usize)
    ensures { store.new ≡ sets store.old 0 (replicate held 0) }
{
    fill(store, held, 0);
}

// The first n bytes of `dst` are b then.
pub fn fill(dst: &mut [u8], n: usize, b: u8)
    ensures { dst.new ≡ sets dst.old 0 (replicate n b) }
{
    let there = n.min(dst.len());
    dst[..there].fill(b);
}

// How many of n bytes from a place on lie within a slice so long.
fn within(n: usize, long: usize, from: usize) -> usize
    ensures { result ≡ min n (long - from) }
{
    n.min(long.saturating_sub(from))
}
