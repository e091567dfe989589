// The bit pen: fields of some bits each, laid behind one another as protected nibbles (SCOPE 12.1). It goes the way that the bit reader
// goes back.
ghost use Rattle.std.specs.Prelude.{◌≡◌, ◌∷◌, [], min};
ghost use Rattle.fields.specs.Pens.{inked, moved};

// Where the next nibble goes, and the bits, fewer than four, that don't make one yet.
#[derive(Drop)]
pub struct Pen {
    pub at: usize,
    pub held: usize,
    pub bits: usize,
}

// The widest field that is laid at once.
const WIDEST: usize = 32;

// Lays a field of w bits, at most 32, and hands back the pen behind it. Of what a pen holds and of a value, the bits that don't fit are left
// out, and so are nibbles past the end of `out`.
pub fn lay(pen: Pen, w: usize, v: usize, out: &mut [u8]) -> Pen
    ensures { (result ≡ moved pen ((min w 32, v) ∷ [])) × (out.new ≡ inked pen ((min w 32, v) ∷ []) out.old) }
{
    let first = pen.held % 4;
    let wide = w.min(WIDEST);
    let mut at = pen.at;
    let mut held = first + wide;
    let mut bits = pen.bits % (1 << first) + ((v % (1 << wide)) << first);
    // Kept: a nibble goes as long as four bits are held; the pen's place and bits go on with it, and a count of nibbles is no plainer.
    while 4 <= held {
        lent_bytes::put(octet::image((bits % 16) as u8), out, at);
        bits /= 16;
        held -= 4;
        at = crate::further(at, 1);
    }
    Pen { at, held, bits }
}
