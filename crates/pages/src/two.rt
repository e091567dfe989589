// What a packet is to a reader of two streams (SCOPE 27): one record of the open page, and a verdict for each stream.
ghost use Rattle.std.specs.Prelude.{◌≡◌};
ghost use Rattle.pages.specs.Two.{page_for, seen_by_two_as};
ghost use Rattle.pages.specs.Verdicts.{verdicts_of};
ghost use Rattle.pages.specs.Internal.{second_only, shared as internal_shared};

use crate::{Page, Verdict};
use packet::Setting;
use packet::two::Streams;

// A setting has no such stream, and no packet 0 does.
const NONE: u8 = 16;

// One of the two streams, by the order of the setting.
#[derive(Clone, Copy, PartialEq, Eq)]
pub enum Whose {
    First,
    Second,
}

// The open page that the two streams share: none; or whose it is, how many packets follow its packet 0, and the number
// of the last one that came.
// Kept: an enum and no Option, as `Page`.
#[derive(Clone, Copy)]
pub enum SharedPage {
    None,
    One { whose: Whose, n: u8, last: u8 },
}

// What a packet does: the open page as it is then, and the verdict on each stream, to which a page of the other is shut.
#[derive(Drop)]
pub struct Verdicts {
    pub page: SharedPage,
    pub first: Verdict,
    pub second: Verdict,
}

// A packet with this address, where the two streams' last indices are these. One that isn't 42 bytes long counts as one
// that can't be read. Of two equal streams a packet 0 is the first's.
pub fn judge(
    setting: Streams,
    page: SharedPage,
    first: u8,
    second: u8,
    address: usize,
    packet: &[u8],
) -> Verdicts
    ensures { result ≡ verdicts_of page first second (seen_by_two_as setting address packet.now) }
{
    let one = packet::two::first(setting);
    let two = second_only(setting);
    let mine = page_of(page, Whose::First);
    let theirs = page_of(page, Whose::Second);
    let a = crate::judge(one, mine, first, address, packet);
    let b = crate::judge(two, theirs, second, address, packet);
    Verdicts {
        page: shared(a.page, b.page),
        first: a,
        second: b,
    }
}

// The page of one stream: the other's is shut to it.
pub fn page_of(page: SharedPage, whose: Whose) -> Page
    ensures { result ≡ page_for whose page }
{
    match page {
        SharedPage::One {
            whose: owner,
            n,
            last,
        } if owner == whose => Page::Open { n, last },
        _ => Page::Shut,
    }
}

// The second stream's setting, as a packet 0 is asked by it: one that is the first's isn't the second's too.
fn second_only(s: Streams) -> Setting
    ensures { result ≡ second_only s }
{
    let second = packet::two::second(s);
    if s.first == s.second {
        return Setting {
            stream: NONE,
            ..second
        };
    }
    second
}

// The open page, of what is open to each stream.
fn shared(first: Page, second: Page) -> SharedPage
    ensures { result ≡ internal_shared first second }
{
    match (first, second) {
        (Page::Open { n, last }, _) => SharedPage::One {
            whose: Whose::First,
            n,
            last,
        },
        (Page::Shut, Page::Open { n, last }) => SharedPage::One {
            whose: Whose::Second,
            n,
            last,
        },
        (Page::Shut, Page::Shut) => SharedPage::None,
    }
}
