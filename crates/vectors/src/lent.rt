// The output that a program try_NAME lends to a call: filled before, so that what the call leaves can be told.
ghost use Rattle.std.specs.Prelude.{◌≡◌, ◌↔◌, IsTrue, min, length, replicate, take};
ghost use Rattle.std.proofs.lemmas.List.Edits.{sets};
ghost use Rattle.vectors.specs.Lent.{filler};
ghost use Rattle.vectors.specs.Internal.{KeptFrom};

// What the lent output is filled with before a call.
const FILLER: u8 = 0xA5;

// Fills the first `room` bytes of out, or all where it has fewer, and answers how many these are: what the call is lent.
pub fn lend(out: &mut [u8], room: usize) -> usize
    ensures many { result ≡ min room (length out.new) }
    ensures there { result ≡ length (take result out.new) }
    ensures filled { out.new ≡ sets out.old 0 (replicate room filler) }
{
    lent_bytes::fill(out, room, FILLER);
    room.min(out.len())
}

// Whether every byte of the lent output past those written is as it was filled; false where more
// bytes are said to be written than were lent.
pub(crate) fn kept(out: &[u8], written: usize) -> bool
    ensures { IsTrue result ↔ KeptFrom out.now written }
{
    written <= out.len() && out[written..].iter().all(|b| *b == FILLER)
}
