// What a capture holds besides its tables, packet by packet: how many packets came, how many of them are our page's or can't be read, and
// which pages came. Ours is the page in either of two streams; a setting that names one stream twice is of that stream alone (SCOPE 27.8).
// Where none of ours came, `find` and `turn_all` tell whether its bytes fit at another place, or turned. Nothing is kept
// here: what is known so far goes in and comes back.
#![tactic(auto)]

pub mod seen;

ghost use Rattle.std.specs.Prelude.{◌≡◌, map};
ghost use Rattle.octet.specs.Turning.{turned};
ghost use Rattle.survey.specs.Counting.{more, more_if, counted};
ghost use Rattle.survey.specs.Either.{see_either};
ghost use Rattle.survey.specs.Fitting.{fits, first_in};
ghost use Rattle.survey.specs.Internal.{asked, most_of, heeded};

use packet::PACKET;
use packet::two::Streams;
use pages::{Page, Verdict};
pub use seen::note;

// No packet has this index.
const NO_INDEX: u8 = 16;

// How many packets came; of them those of our page, its packets 0 and those that are read for it; those that can't be read. Then whether a
// packet 0 of our page came, and up to which number the packets of the page that is open are read, 0 where none is.
#[derive(Clone, Copy)]
pub struct Counts {
    pub packets: u64,
    pub ours: u64,
    pub unreadable: u64,
    pub came: bool,
    pub most: u8,
}

// One more packet is counted. One that isn't 42 bytes long can't be read.
pub fn count(setting: Streams, counts: Counts, packet: &[u8]) -> Counts
    ensures { result ≡ counted counts (see_either setting packet.now) }
{
    heed(counts, ask(setting, counts.most, packet))
}

// The first place of the bytes where a packet 0 of our page and stream stands, all 42 bytes of it.
pub fn find(setting: Streams, bytes: &[u8]) -> Option<usize>
    ensures { result ≡ first_in setting bytes.now 0 }
{
    for at in 0..bytes.len() {
        if stands(setting, &bytes[at..]) {
            return Some(at);
        }
    }
    None
}

// Every byte is turned.
pub fn turn_all(bytes: &mut [u8])
    ensures { bytes.new ≡ map turned bytes.old }
{
    for byte in bytes.iter_mut() {
        *byte = octet::turn(*byte);
    }
}

// Whether a packet 0 of our page and stream stands at the front.
fn stands(setting: Streams, bytes: &[u8]) -> bool
    ensures { result ≡ fits setting bytes.now }
{
    PACKET <= bytes.len() && ask(setting, 0, &bytes[..PACKET]).index != NO_INDEX
}

// What the reader's rules say of a packet where a page of so many packets is complete and our last index is none. So a verdict tells what
// the packet is: only one of our page and stream has an index; of those that shut the page, one that can't be read drops. The second
// stream is asked where the first's verdict has no index.
fn ask(setting: Streams, most: u8, packet: &[u8]) -> Verdict
    ensures { result ≡ asked most (see_either setting packet.now) }
{
    let page = Page::Open {
        n: most,
        last: most,
    };
    let address = packet::address(packet);
    let one = packet::two::first(setting);
    let verdict = pages::judge(one, page, NO_INDEX, address, packet);
    if verdict.index != NO_INDEX || setting.first == setting.second {
        return verdict;
    }
    let two = packet::two::second(setting);
    pages::judge(two, page, NO_INDEX, address, packet)
}

fn heed(counts: Counts, verdict: Verdict) -> Counts
    ensures { result ≡ heeded counts verdict }
{
    let packets = one_more(counts.packets);
    if verdict.index != NO_INDEX {
        return Counts {
            packets,
            ours: one_more(counts.ours),
            came: true,
            most: most_of(verdict.page),
            ..counts
        };
    }
    match verdict.page {
        Page::Shut => Counts {
            packets,
            unreadable: more_if(verdict.drops, counts.unreadable),
            most: 0,
            ..counts
        },
        Page::Open { .. } => Counts {
            packets,
            ours: more_if(verdict.reads, counts.ours),
            ..counts
        },
    }
}

// Up to which number the packets of a page are read.
fn most_of(page: Page) -> u8
    ensures { result ≡ most_of page }
{
    match page {
        Page::Shut => 0,
        Page::Open { n, .. } => n,
    }
}

fn more_if(holds: bool, count: u64) -> u64
    ensures { result ≡ more_if holds count }
{
    if holds { one_more(count) } else { count }
}

fn one_more(count: u64) -> u64
    ensures { result ≡ more count }
{
    count.saturating_add(1)
}
