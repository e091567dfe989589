// The reader of two streams on one page: packets in, finished blocks of either out, each behind the number of its stream
// (SCOPE 27). Only a mark, a packet 0 of our magazine or one that can't be read, opens or shuts a page: up to the next mark packets
// are for the stream whose page is open, and that stream's own reader takes them.
ghost use Rattle.std.specs.Prelude.{◌≡◌, true, false, List, ℕ, ◌+◌, ◌-◌, ◌*◌, ◌%◌, ◌≤◌, length, take};
ghost use Rattle.std.proofs.lemmas.List.Edits.{sets};
ghost use Rattle.laws.specs.Pick.{either as pick_either};
ghost use Rattle.blocks.specs.Block.{head_length, blocks};
ghost use Rattle.packet.specs.Packet.{packet_length};
ghost use Rattle.packet.specs.Address.{address_of};
ghost use Rattle.packet.specs.Two.{in_range_of_two, first_of};
ghost use Rattle.pages.specs.declared.headers.Page.{Page};
ghost use Rattle.pages.specs.Two.{setting_for};
ghost use Rattle.walk.specs.Reading.{room};
ghost use Rattle.walk.specs.Internal.{Kept};
ghost use Rattle.state.specs.State.{Sixteen};
ghost use Rattle.state.proofs.Beside.{owner_of};
ghost use Rattle.reader.specs.Internal.{reading, marks};
ghost use Rattle.reader.specs.Two.{room_of_two, tuned_to_two, stream_for, feed_heard_of_two, feed_readers_of_two, feed_out_of_two, feed_all_heard_of_two, feed_all_readers_of_two, feed_all_out_of_two};
ghost use Rattle.reader.specs.InternalTwo.{tagged, long_at, Laid, alone_in, ActedOfTwo, started_of_two, ran_of_two_from, RanOfTwoTo, none_yet, which, owned_by, TurnedTo, Ample, WentFor, WentOnOfTwo};

use crate::calls::Reads;
use crate::{Fed, ROOM, Took, TookAll, calls, many};
use blocks::HEAD;
use many::{Going, Gone, Taking};
use packet::two::Streams;
use packet::{PACKET, Setting};
use pages::two::{SharedPage, Whose};
use pages::{Page, Verdict};
use state::STORE;
pub use state::two::{Half, Readers, fresh};

// The bytes of output that a reader of two streams must be lent for one packet (SCOPE 27).
pub const ROOM_OF_TWO: usize = 2176;

// The bytes in which a call holds the records of packets up to a mark, and with how many left of the output it uses them all.
const HOLD: usize = 4224;

const AMPLE: usize = 6400;

// What packets taken one after the other have come to.
#[derive(Drop)]
struct Pair {
    page: SharedPage,
    first: Half,
    second: Half,
    blocks: usize,
    written: usize,
    dropped: bool,
}

// What a mark is to one of the two.
#[derive(Drop)]
struct Turned {
    half: Half,
    dropped: bool,
}

// One packet of 42 bytes. Refused with 16 where the setting or the state is out of range or the packet isn't 42 bytes long,
// then with 1 where the output is under 2,176 bytes: the output and the state are then as they were. Else the blocks that
// the packet finishes stand at the front of the output, each as the number of its stream in one byte and then its record,
// and the state has gone on.
pub fn feed(setting: Streams, readers: Readers, packet: &[u8], out: &mut [u8]) -> Fed<Took, Readers>
    ensures heard_value { result.heard ≡ feed_heard_of_two setting readers packet.now out.old }
    ensures readers_value { result.reader ≡ feed_readers_of_two setting readers packet.now out.old }
    ensures out_after { out.new ≡ feed_out_of_two setting readers packet.now out.old }
{
    let mut reader = readers;
    let heard = calls::feed(setting, &mut reader, packet, out);
    Fed { heard, reader }
}

// A list of packets of 42 bytes, taken one after the other, while at least 2,176 bytes of the output are left. Refused with
// 16 where the setting or the state is out of range or the list isn't whole packets, then with 1 where the output is under
// 2,176 bytes, also for an empty list: the output and the state are then as they were.
pub fn feed_all(
    setting: Streams,
    readers: Readers,
    packets: &[u8],
    out: &mut [u8],
) -> Fed<TookAll, Readers>
    ensures heard_value { result.heard ≡ feed_all_heard_of_two setting readers packets.now out.old }
    ensures readers_value { result.reader ≡ feed_all_readers_of_two setting readers packets.now out.old }
    ensures out_after { out.new ≡ feed_all_out_of_two setting readers packets.now out.old }
{
    let mut reader = readers;
    let heard = calls::feed_all(setting, &mut reader, packets, out);
    Fed { heard, reader }
}

impl Reads for Readers {
    type Setting = Streams;

    ghost reading = { reading tuned_to_two };

    ghost Typed = { λ r. Sixteen r.first.run × Sixteen r.second.run };

    ghost ROOM = { room_of_two };

    const ROOM: usize = ROOM_OF_TWO;

    fn is_ready(&self, setting: Streams) -> bool {
        packet::two::is_in_range(setting)
            && state::two::in_range(
                self.page,
                self.first,
                self.second,
                &self.store1,
                &self.store2,
            )
    }

    fn take(&mut self, setting: Streams, packets: &[u8], out: &mut [u8]) -> TookAll {
        let mut hold = [0u8; HOLD];
        let from = start(self.page, self.first, self.second);
        let t = take_all(
            setting,
            from,
            &mut self.store1,
            &mut self.store2,
            packets,
            &mut hold,
            out,
        );
        let a = t.going;
        self.page = a.page;
        self.first = a.first;
        self.second = a.second;
        TookAll {
            packets: t.packets,
            blocks: a.blocks,
            written: a.written,
            dropped: a.dropped,
        }
    }
}

// Packets of 42 bytes one after the other, while there is room for what one can give: up to a mark they are for the stream whose
// page is open alone, and a mark is for both.
fn take_all(
    setting: Streams,
    from: Pair,
    store1: &mut [u8; STORE],
    store2: &mut [u8; STORE],
    packets: &[u8],
    hold: &mut [u8],
    out: &mut [u8],
) -> Taking<Pair>
    requires setting_value { in_range_of_two setting ≡ true }
    requires kept { Kept from.first.run store1.old }
    requires kept_2 { Kept from.second.run store2.old }
    requires packet_length_len { length packets.now % packet_length ≡ 0 }
    requires hold_len { length hold.old ≡ 2 * room }
    requires none_yet { none_yet from }
    ensures ran_of_two_to { RanOfTwoTo setting (ran_of_two_from setting (length out.old) from store1.old store2.old packets.now) result.going result.packets store1.new store2.new out.old out.new }
    ensures written_in_bounds { result.going.written ≤ length out.old }
{
    let mut a = from;
    let mut at = 0;
    // Kept: a step is no count: it goes past the next mark.
    while at < packets.len() {
        let q = a.written;
        if out.len() - q < ROOM_OF_TWO {
            return Taking {
                going: a,
                packets: at / PACKET,
            };
        }
        let limit = limit_for(out.len() - q);
        let t = go_on(setting, a, store1, store2, packets, at, hold, limit, out);
        a = t.going;
        at = t.at;
        if !t.full {
            if at < packets.len() {
                let next = at + PACKET;
                a = turn(setting, a, t.address, store1, store2, &packets[at..next]);
                at = next;
            }
        }
    }
    Taking {
        going: a,
        packets: at / PACKET,
    }
}

// How many bytes the records of packets up to a mark may fill, where so many are left of the output: while a packet more can be
// taken by them there are 2,176 left for it, whatever those before it gave.
fn limit_for(left: usize) -> usize
    requires { room_of_two ≤ left }
    ensures { (room ≤ result) × (result ≤ 2 * room) × (2 * result + room_of_two ≤ left + 2 * room) }
{
    if left < AMPLE { ROOM } else { HOLD }
}

// Packets from a place on up to the next mark, for the stream whose page is open: the other's reader leaves them alone. Their
// records go behind what is written, each behind the number of the stream.
fn go_on(
    setting: Streams,
    a: Pair,
    store1: &mut [u8; STORE],
    store2: &mut [u8; STORE],
    packets: &[u8],
    at: usize,
    hold: &mut [u8],
    limit: usize,
    out: &mut [u8],
) -> Gone<Pair>
    requires setting_value { in_range_of_two setting ≡ true }
    requires kept { Kept a.first.run store1.old }
    requires kept_2 { Kept a.second.run store2.old }
    requires at_in_bounds { (at ≤ length packets.now) × ((length packets.now - at) % packet_length ≡ 0) }
    requires ample { Ample a limit hold.old out.old }
    ensures { WentOnOfTwo setting packets.now at a store1.old store2.old out.old result store1.new store2.new out.new }
{
    let page = a.page;
    let first = a.first;
    let second = a.second;
    let whose = owner(page);
    let t = go_on_for(
        whose, setting, page, first, second, store1, store2, packets, at, hold, limit,
    );
    let g = t.going;
    let got = g.got;
    let n = got.written;
    let blocks = got.blocks;
    put_tagged(stream_of(whose, setting), &*hold, n, out, a.written);
    let run = got.run;
    let half = Half {
        index: g.index,
        run: run,
        joined: g.joined,
    };
    let now_open = g.page;
    Gone {
        going: Pair {
            page: owned(whose, now_open),
            first: chosen(whose, half, first),
            second: chosen(whose, second, half),
            blocks: a.blocks + blocks,
            written: a.written + (n + blocks),
            dropped: either(a.dropped, got.dropped),
        },
        at: t.at,
        address: t.address,
        full: t.full,
    }
}

// The stream's own reader goes on, into the bytes held.
fn go_on_for(
    whose: Whose,
    setting: Streams,
    page: SharedPage,
    first: Half,
    second: Half,
    store1: &mut [u8; STORE],
    store2: &mut [u8; STORE],
    packets: &[u8],
    at: usize,
    hold: &mut [u8],
    limit: usize,
) -> Gone<Going>
    requires kept { Kept first.run store1.old }
    requires kept_2 { Kept second.run store2.old }
    requires at_in_bounds { (at ≤ length packets.now) × ((length packets.now - at) % packet_length ≡ 0) }
    requires limit_in_bounds { limit ≤ length hold.old }
    ensures { WentFor whose setting packets.now limit at page first second store1.old store2.old hold.old result store1.new store2.new hold.new }
{
    let own = pages::two::page_of(page, whose);
    let half = chosen(whose, first, second);
    let run = half.run;
    let from = many::start(own, half.index, run, half.joined);
    let mine = setting_of(whose, setting);
    match whose {
        Whose::First => many::go_on(mine, from, store1, packets, at, hold, limit, false),
        Whose::Second => many::go_on(mine, from, store2, packets, at, hold, limit, false),
    }
}

// A mark, with its address: judged once, and heeded by each stream.
fn turn(
    setting: Streams,
    a: Pair,
    address: usize,
    store1: &mut [u8; STORE],
    store2: &mut [u8; STORE],
    packet: &[u8],
) -> Pair
    requires kept { Kept a.first.run store1.old }
    requires kept_2 { Kept a.second.run store2.old }
    requires packet_len { length packet.now ≡ packet_length }
    requires address_value { address ≡ address_of packet.now }
    requires address_value_2 { marks (first_of setting) address ≡ true }
    ensures { (out : List ℕ) → ActedOfTwo setting packet.now a result store1.old store2.old store1.new store2.new out out }
{
    let page = a.page;
    let first = a.first;
    let second = a.second;
    let v = pages::two::judge(setting, page, first.index, second.index, address, packet);
    let now_open = v.page;
    let mine = v.first;
    let theirs = v.second;
    let one = turn_for(mine, first, store1);
    let two = turn_for(theirs, second, store2);
    let left = one.half;
    let right = two.half;
    let dropped = either(one.dropped, two.dropped);
    Pair {
        page: now_open,
        first: left,
        second: right,
        blocks: a.blocks,
        written: a.written,
        dropped: either(a.dropped, dropped),
    }
}

// One stream heeds its verdict on a mark, as a reader of that stream alone.
fn turn_for(v: Verdict, half: Half, store: &mut [u8; STORE]) -> Turned
    requires kept { Kept half.run store.old }
    requires reads_value { v.reads ≡ false }
    ensures { (page : Page) (p : ℕ) (l : List ℕ) → TurnedTo v p l (alone_in page half store.old) result store.new }
{
    let page = v.page;
    let run = half.run;
    let from = many::start(page, half.index, run, half.joined);
    let a = many::turn(v, from, store);
    let got = a.got;
    let left = got.run;
    Turned {
        half: Half {
            index: a.index,
            run: left,
            joined: a.joined,
        },
        dropped: got.dropped,
    }
}

// Whose page is open; the first's where none is, which hands out nothing then.
fn owner(page: SharedPage) -> Whose
    ensures { result ≡ owner_of page }
{
    match page {
        SharedPage::None => Whose::First,
        SharedPage::One { whose, .. } => whose,
    }
}

// The open page, where it is this stream's or none.
fn owned(whose: Whose, page: Page) -> SharedPage
    ensures { result ≡ owned_by whose page }
{
    match page {
        Page::Shut => SharedPage::None,
        Page::Open { n, last } => SharedPage::One { whose, n, last },
    }
}

// One stream's half of two.
fn chosen(whose: Whose, first: Half, second: Half) -> Half
    ensures { result ≡ which whose first second }
{
    match whose {
        Whose::First => first,
        Whose::Second => second,
    }
}

// The number of a stream.
fn stream_of(whose: Whose, setting: Streams) -> u8
    ensures { result ≡ stream_for whose setting }
{
    match whose {
        Whose::First => setting.first,
        Whose::Second => setting.second,
    }
}

// The setting of one stream alone.
fn setting_of(whose: Whose, setting: Streams) -> Setting
    ensures { result ≡ setting_for whose setting }
{
    match whose {
        Whose::First => packet::two::first(setting),
        Whose::Second => packet::two::second(setting),
    }
}

// The records that the first n bytes are go to the place `to` of the output, each behind the number of its stream.
fn put_tagged(stream: u8, records: &[u8], n: usize, out: &mut [u8], to: usize)
    requires { Laid stream records.now n to out.old }
    ensures { out.new ≡ sets out.old to (tagged stream (blocks (take n records.now))) }
{
    let mut p = 0;
    let mut q = to;
    // Kept: a step is no count: it goes to the next record, as far as the record says.
    while p < n {
        let long = long_at(records, p);
        out[q] = stream;
        lent_bytes::copy(records, p, long, out, q + 1);
        p += long;
        q = q + 1 + long;
    }
}

// How long the record at a place says that it is.
fn long_at(records: &[u8], p: usize) -> usize
    requires { p + head_length ≤ length records.now }
    ensures { result ≡ long_at records.now p }
{
    let head = u16::from_le_bytes([records[p], records[p + 1]]);
    HEAD + (head / 32) as usize
}

// No packet has come yet.
fn start(page: SharedPage, first: Half, second: Half) -> Pair
    ensures { result ≡ started_of_two page first second }
{
    Pair {
        page,
        first,
        second,
        blocks: 0,
        written: 0,
        dropped: false,
    }
}

// At least one of two tests.
fn either(a: bool, b: bool) -> bool
    ensures { result ≡ pick_either a b }
{
    if a {
        return true;
    }
    b
}
