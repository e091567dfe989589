// Whether the running block has lived through a packet 0 that opened a page of ours (SCOPE 26.2): by the verdict on a packet, and
// once that packet is read.
ghost use Rattle.std.specs.Prelude.{◌≡◌};
ghost use Rattle.octet.specs.Decoding.{nib};
ghost use Rattle.walk.specs.Reading.{spans_still};
ghost use Rattle.state.specs.Acting.{spans_by};

use pages::Verdict;

// Whether the block that ran, if one did, spans pages once the verdict is heeded: it lives through a packet 0 that opens a page of
// ours, or it did so before.
pub fn spans(v: Verdict, runs: bool, joined: bool) -> bool
    ensures { result ≡ spans_by v runs joined }
{
    !v.drops && (joined || (v.opens && runs))
}

// Whether the block that runs after a packet was read, if one does, spans pages: only where the packet's pointer says that no block
// starts there can it have run before.
pub fn goes_on(joined: bool, pointer: u8, runs: bool) -> bool
    ensures { result ≡ spans_still joined (nib pointer) runs }
{
    joined && octet::quick::decode(pointer) == 13 && runs
}
