// What is seen of a capture besides its tables: the counts that `-v` asks for (SCOPE 13.10), and, where no packet 0 of our page came,
// what the capture may be (SCOPE 13.9). Once one has come, only `-v` looks on.
#![tactic(auto)]

pub mod lack;

ghost use Rattle.std.specs.Prelude.{◌≡◌, ◌/◌, length};
ghost use Rattle.packet.specs.Packet.{packet_length};
ghost use Rattle.sight.specs.Sights.{no_sight, own_page, start_pages, seen_from, counted_all, noted_all, fit_from, is_looked, seen_on, left_of, noted_in, looked_sight, looked_at, noted_at};

use packet::two::Streams;
use packet::{PACKET, Setting};
use survey::Counts;
use survey::seen::NO_PAGE;

// Our own page in the first stream and in the second, and ten others that are told where neither came.
pub const PAGES: usize = 12;

// So far: the counts, whether bytes came and began as a PES packet does, and from which byte of 42 on packets would fit, if they do, as
// they are and with each byte turned.
#[derive(Clone, Copy)]
pub struct Sight {
    pub counts: Counts,
    pub any: bool,
    pub pes: bool,
    pub plain: Option<usize>,
    pub turned: Option<usize>,
}

// The list of pages with our own in front, so that none of its packets 0 is taken for another's, whatever else of it can't be read.
pub fn pages(setting: Streams) -> [u16; PAGES]
    ensures { result ≡ start_pages setting }
{
    let mut pages = [NO_PAGE; PAGES];
    pages[0] = own(packet::two::first(setting));
    pages[1] = own(packet::two::second(setting));
    pages
}

// Our own page in one stream, as survey::note has it.
fn own(setting: Setting) -> u16
    ensures { result ≡ own_page setting }
{
    setting.stream as u16 + 16 * setting.page as u16 + 4096 * (setting.magazine % 8) as u16
}

// Nothing is seen yet.
pub fn none() -> Sight
    ensures { result ≡ no_sight }
{
    Sight {
        counts: Counts {
            packets: 0,
            ours: 0,
            unreadable: 0,
            came: false,
            most: 0,
        },
        any: false,
        pes: false,
        plain: None,
        turned: None,
    }
}

// Looks at one more piece of n bytes, which is turned where no packet 0 of our page has come.
pub fn look(
    setting: Streams,
    verbose: bool,
    sight: Sight,
    piece: &mut [u8],
    n: usize,
    pages: &mut [u16],
) -> Sight
    ensures value { result ≡ looked_sight setting verbose sight n piece.old }
    ensures piece_after { piece.new ≡ looked_at setting verbose sight n piece.old }
    ensures pages_after { pages.new ≡ noted_at verbose sight n piece.old pages.old }
{
    if is_looked(verbose, sight, n) {
        return look_on(setting, sight, piece, n, pages);
    }
    sight
}

// Whether a piece of n bytes is looked at.
fn is_looked(verbose: bool, sight: Sight, n: usize) -> bool
    ensures { result ≡ is_looked verbose sight n }
{
    n > 0 && (verbose || !sight.counts.came)
}

fn look_on(setting: Streams, sight: Sight, piece: &mut [u8], n: usize, pages: &mut [u16]) -> Sight
    ensures value { result ≡ seen_on setting sight n piece.old }
    ensures piece_after { piece.new ≡ left_of setting sight n piece.old }
    ensures pages_after { pages.new ≡ noted_in n piece.old pages.old }
{
    let mut sight = begin(sight, told::front(piece, n));
    sight.counts = count_all(setting, sight.counts, told::front(piece, n), pages);
    if sight.counts.came {
        return sight;
    }
    sight.plain = fit_from(sight.plain, survey::find(setting, told::front(piece, n)));
    survey::turn_all(piece);
    sight.turned = fit_from(sight.turned, survey::find(setting, told::front(piece, n)));
    sight
}

// The first bytes tell what the capture begins as.
fn begin(sight: Sight, bytes: &[u8]) -> Sight
    ensures { result ≡ seen_from sight bytes.now }
{
    if sight.any {
        return sight;
    }
    Sight {
        any: true,
        pes: pes::has_code(bytes),
        ..sight
    }
}

// Counts the whole packets, and notes the pages of those that are packets 0.
fn count_all(setting: Streams, counts: Counts, bytes: &[u8], pages: &mut [u16]) -> Counts
    ensures value { result ≡ counted_all setting (length bytes.now / packet_length) counts bytes.now }
    ensures pages_after { pages.new ≡ noted_all (length bytes.now / packet_length) pages.old bytes.now }
{
    let mut counts = counts;
    for i in 0..bytes.len() / PACKET {
        let packet = &bytes[PACKET * i..PACKET * i + PACKET];
        counts = survey::count(setting, counts, packet);
        survey::note(pages, packet);
    }
    counts
}

// From which byte of 42 on packets fit, by the first place that was found.
fn fit_from(known: Option<usize>, place: Option<usize>) -> Option<usize>
    ensures { result ≡ fit_from known place }
{
    known.or(place.map(|at| at % PACKET))
}
