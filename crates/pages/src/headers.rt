// What a packet 0, a page's header, is to the open page of ours and to our last index: the two as they are then, and whether it drops
// the running block.
ghost use Rattle.std.specs.Prelude.{◌≡◌, false, not, ◌+◌, ◌%◌, eqb, ltb};
ghost use Rattle.std.specs.List.{list_all};
ghost use Rattle.octet.specs.Decoding.{nib, undecodable};
ghost use Rattle.laws.specs.Pick.{both, either};
ghost use Rattle.pages.specs.declared.headers.Page.TheVariants.{Shut};
ghost use Rattle.pages.specs.Internal.{legible, seen_zero};
ghost use Rattle.pages.specs.Judging.{incomplete, verdict_of};

use packet::{PACKET, Setting};

// The page of ours that is open, if one is: how many packets follow its packet 0, and the number of
// the last one that came.
// Kept: an enum and no Option, since that a page is open or shut is what the rules of reading say of it.
#[derive(Clone, Copy)]
pub enum Page {
    Shut,
    Open { n: u8, last: u8 },
}

// What a packet does: page and index as they are then, whether the running block is dropped, whether
// the packet opens a page of ours, and whether its bytes are read after that.
#[derive(Clone, Copy)]
pub struct Verdict {
    pub page: Page,
    pub index: u8,
    pub drops: bool,
    pub opens: bool,
    pub reads: bool,
}

// A packet 0 of our magazine. One that isn't 42 bytes long counts as one that can't be read.
pub(crate) fn judge_zero(setting: Setting, page: Page, last: u8, packet: &[u8]) -> Verdict
    ensures { result ≡ verdict_of page last (seen_zero setting packet.now) }
{
    if !readable(packet) {
        return shut(last, true);
    }
    let number = octet::quick::decode(packet[2]) + 16 * octet::quick::decode(packet[3]);
    let stream = octet::quick::decode(packet[6]);
    if !is_ours(setting, number, stream) {
        return shut(last, is_incomplete(page));
    }
    let index = octet::quick::decode(packet[4]);
    let n = octet::quick::decode(packet[5]) % 8 + 8 * (octet::quick::decode(packet[7]) % 4);
    if n > 25 {
        return shut(index, true);
    }
    Verdict {
        page: Page::Open { n, last: 0 },
        index,
        drops: is_break(page, last, index),
        opens: true,
        reads: false,
    }
}

// Whether it is 42 bytes long and the six bytes after its address can all be decoded.
#[tactic(auto, using(crate::proofs::Seeing::legible_by_all))]
fn readable(packet: &[u8]) -> bool
    ensures { result ≡ legible packet.now }
{
    packet.len() == PACKET && all_decode(&packet[2..8])
}

// Whether each of some bytes can be decoded.
fn all_decode(bytes: &[u8]) -> bool
    ensures { result ≡ list_all (λ b. ltb (nib b) undecodable) bytes.now }
{
    bytes.iter().all(|byte| octet::quick::decode(*byte) < 16)
}

// No page of ours is open then.
pub(crate) fn shut(index: u8, drops: bool) -> Verdict
    ensures { result ≡ record { page = Shut; index = index; drops = drops; opens = false; reads = false } }
{
    Verdict {
        page: Page::Shut,
        index,
        drops,
        opens: false,
        reads: false,
    }
}

// A packet that changes nothing.
pub(crate) fn passed(page: Page, index: u8) -> Verdict
    ensures { result ≡ record { page = page; index = index; drops = false; opens = false; reads = false } }
{
    Verdict {
        page,
        index,
        drops: false,
        opens: false,
        reads: false,
    }
}

// Whether page number and stream are ours.
fn is_ours(setting: Setting, number: u8, stream: u8) -> bool
    ensures { result ≡ both (eqb number setting.page) (eqb stream setting.stream) }
{
    number == setting.page && stream == setting.stream
}

// Whether a packet 0 of ours with n up to 25 drops the running block: our page isn't complete (SCOPE 8.5), or
// the index doesn't follow on our last (SCOPE 8.8).
fn is_break(page: Page, last: u8, index: u8) -> bool
    ensures { result ≡ either (incomplete page) (not (eqb index ((last + 1) % 16))) }
{
    is_incomplete(page) || index != (last % 16 + 1) % 16
}

// Whether our page is open and not complete.
fn is_incomplete(page: Page) -> bool
    ensures { result ≡ incomplete page }
{
    match page {
        Page::Shut => false,
        Page::Open { n, last } => last < n,
    }
}
