// Text put into lent bytes at a place, as far as there is room.
//
// The call answers the place after what it puts, and that goes on where there is no room, so that one walk
// both measures and writes.
ghost use Rattle.std.specs.Prelude.{◌≡◌, ◌∷◌, [], ◌+◌, ◌^◌, ◌≤◌, ◌<◌, length};
ghost use Rattle.std.proofs.lemmas.List.Edits.{sets};
ghost use Rattle.text_lines.specs.Put.{Put, placed};

// The last place of all.
const LAST: usize = 18446744073709551615;

// A text as it is. Nothing is put where the place after it would be past the last one.
pub fn put(text: &[u8], out: &mut [u8], q: usize) -> usize
    ensures { Put out.old q (placed q text.now) out.new result × (result ≤ q + length text.now) }
{
    if text.len() > LAST - q {
        return q;
    }
    if q + text.len() <= out.len() {
        store(text, out, q);
        return q + text.len();
    }
    put_cut(text, out, q)
}

// A text for which there is room: no byte of it is tested.
fn store(text: &[u8], out: &mut [u8], q: usize)
    requires { q + length text.now ≤ length out.old }
    ensures { out.new ≡ sets out.old q text.now }
{
    out[q..q + text.len()].copy_from_slice(text);
}

// A text for which there may not be room.
fn put_cut(text: &[u8], out: &mut [u8], q: usize) -> usize
    requires { q + length text.now < 2 ^ 64 }
    ensures { Put out.old q text.now out.new result × (result ≤ q + length text.now) }
{
    let mut p = q;
    for b in text {
        p = put_byte(*b, out, p);
    }
    p
}

// A byte, where there is room for it, and the place after it.
fn put_byte(b: u8, out: &mut [u8], q: usize) -> usize
    requires { q + 1 < 2 ^ 64 }
    ensures { Put out.old q (b ∷ []) out.new result × (result ≤ q + 1) }
{
    if q < out.len() {
        out[q] = b;
    }
    q + 1
}
