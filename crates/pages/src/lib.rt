// What a packet is to the open page of ours and to our last index, by its bytes alone: the two as they are then, whether it drops the
// running block, and whether its 39 bytes are read. Every rule of the reader that doesn't look into those bytes stands here, or in
// module `headers` where it is packet 0's. A reader of two streams asks module `two`.
#![tactic(auto)]

mod headers;
pub mod two;

ghost use Rattle.std.specs.Prelude.{◌≡◌};
ghost use Rattle.pages.specs.Judging.{wrong_y, verdict_of_y, verdict_of};
ghost use Rattle.pages.specs.Seen.{seen_as};

pub use headers::{Page, Verdict};
use packet::{PACKET, Setting};

// A packet with this address. One that isn't 42 bytes long counts as one that can't be read.
#[tactic(auto, unfolding(crate::specs::Seen::seen_as, crate::specs::Seen::see_y, crate::specs::Internal::seen_zero))]
pub fn judge(setting: Setting, page: Page, index: u8, address: usize, packet: &[u8]) -> Verdict
    ensures { result ≡ verdict_of page index (seen_as setting address packet.now) }
{
    if packet.len() != PACKET || 255 < address {
        return headers::shut(index, true);
    }
    if address % 8 != usize::from(setting.magazine % 8) {
        return headers::passed(page, index);
    }
    match (address / 8) as u8 {
        0 => headers::judge_zero(setting, page, index, packet),
        y @ 1..=25 => judge_y(page, index, y),
        _ => headers::passed(page, index),
    }
}

// Packet y of our magazine, 1 to 25: what `judge` says of one, where the address has been looked at.
pub fn judge_y(page: Page, index: u8, y: u8) -> Verdict
    ensures { result ≡ verdict_of_y page index y }
{
    match page {
        Page::Shut => headers::passed(page, index),
        Page::Open { n, last } => {
            let reads = y <= n;
            Verdict {
                page: Page::Open {
                    n,
                    last: if reads { y } else { last },
                },
                index,
                drops: is_wrong(n, last, y),
                opens: false,
                reads,
            }
        }
    }
}

// Whether packet y of our page isn't the one that is due.
fn is_wrong(n: u8, last: u8, y: u8) -> bool
    ensures { result ≡ wrong_y n last y }
{
    y == 0 || y - 1 != last || y > n
}
