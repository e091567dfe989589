// The reader of the guide page for a list of packets: packets in, finished blocks out. A packet is lost
// only where a byte can't be decoded, and then what was held is dropped: a missing table is fetched at
// the next repeat.
ghost use Rattle.std.specs.Prelude.{◌≡◌, true, false, List, ℕ, ◌-◌, ◌%◌, ◌≤◌, length, get_or, drop};
ghost use Rattle.packet.specs.Packet.{packet_length};
ghost use Rattle.octet.specs.Decoding.{nib};
ghost use Rattle.walk.specs.Internal.{Kept, PacketRoom};
ghost use Rattle.state.specs.State.{Sixteen};
ghost use Rattle.walk.specs.Reading.{room};
ghost use Rattle.reader.specs.Feeding.{tuned_to};
ghost use Rattle.reader.specs.Many.{feed_all_heard, feed_all_reader, feed_all_out};
ghost use Rattle.reader.specs.Internal.{reading, state_in, Heeded, started, ran_from, RanTo, PassedTo, marks, Startable, WentOn};

use crate::calls::Reads;
use crate::{Fed, ROOM, calls};
use answer::Refusal;
use packet::{PACKET, Setting};
use pages::{Page, Verdict};
use state::{Reader, STORE};
use walk::{Got, Run};

// What a list of packets gave: how many of them were taken, how many blocks they finished, as how many
// bytes of records at the front of the output, and whether a block was dropped.
#[derive(Drop)]
pub struct TookAll {
    pub packets: usize,
    pub blocks: usize,
    pub written: usize,
    pub dropped: bool,
}

// What is heard of a list of packets.
pub type HeardAll = Result<TookAll, Refusal>;

// What packets taken one after the other have come to.
#[derive(Drop)]
pub(crate) struct Going {
    pub page: Page,
    pub index: u8,
    pub joined: bool,
    pub got: Got,
}

// The same, of one stream or of two, and how many packets.
#[derive(Drop)]
pub(crate) struct Taking<G> {
    pub going: G,
    pub packets: usize,
}

// The place of a packet, and its address.
#[derive(Drop)]
struct Met {
    at: usize,
    address: usize,
}

// What packets up to a mark have come to, of one stream or of two: the place where they end, whether that is for want of room, and the mark's address if
// one stands there.
#[derive(Drop)]
pub(crate) struct Gone<G> {
    pub going: G,
    pub at: usize,
    pub address: usize,
    pub full: bool,
}

// A list of packets of 42 bytes, taken one after the other, while at least 2,112 bytes of the output are
// left: the blocks that they finish stand as records at the front of the output, and the reader has gone
// on. Refused with 16 where the setting or the state is out of range or the list isn't whole packets, then
// with 1 where the output is under 2,112 bytes, also for an empty list: the output and the reader are then
// as they were. The state is tested once, and it is copied in and out once a call, not once a packet.
pub fn feed_all(
    setting: Setting,
    reader: Reader,
    packets: &[u8],
    out: &mut [u8],
) -> Fed<TookAll, Reader>
    ensures heard_value { result.heard ≡ feed_all_heard setting reader packets.now out.old }
    ensures reader_value { result.reader ≡ feed_all_reader setting reader packets.now out.old }
    ensures out_after { out.new ≡ feed_all_out setting reader packets.now out.old }
{
    let mut reader = reader;
    let heard = calls::feed_all(setting, &mut reader, packets, out);
    Fed { heard, reader }
}

impl Reads for Reader {
    type Setting = Setting;

    ghost reading = { reading tuned_to };

    ghost Typed = { λ r. Sixteen r.run };

    ghost ROOM = { room };

    const ROOM: usize = crate::ROOM;

    fn is_ready(&self, setting: Setting) -> bool {
        packet::is_in_range(setting)
            && state::in_range(self.page, self.index, self.run, self.joined, &self.store)
    }

    fn take(&mut self, setting: Setting, packets: &[u8], out: &mut [u8]) -> TookAll {
        let from = start(self.page, self.index, self.run, self.joined);
        let t = take_all(setting, from, &mut self.store, packets, out);
        let a = t.going;
        let got = a.got;
        self.page = a.page;
        self.index = a.index;
        self.run = got.run;
        self.joined = a.joined;
        TookAll {
            packets: t.packets,
            blocks: got.blocks,
            written: got.written,
            dropped: got.dropped,
        }
    }
}

// Packets of 42 bytes one after the other, while there is room for what one can give.
fn take_all(
    setting: Setting,
    from: Going,
    store: &mut [u8; STORE],
    packets: &[u8],
    out: &mut [u8],
) -> Taking<Going>
    requires kept { Kept from.got.run store.old }
    requires packet_length_len { length packets.now % packet_length ≡ 0 }
    requires blocks_value { (from.got.blocks ≡ 0) × (from.got.written ≡ 0) × (from.got.dropped ≡ false) }
    ensures ran_to { RanTo (ran_from setting (length out.old) from store.old packets.now) result store.new out.old out.new }
    ensures written_in_bounds { result.going.got.written ≤ length out.old }
{
    let limit = out.len();
    let Gone { going, at, .. } = go_on(setting, from, store, packets, 0, out, limit, true);
    Taking {
        going,
        packets: at / PACKET,
    }
}

// Packets from a place on, while there is room for what one can give in so many bytes of the output: of a reader of one stream
// all of them, of one of two up to the next mark. The store is copied and copied back, so that the compiler knows that it lies
// apart from packets and output.
pub(crate) fn go_on(
    setting: Setting,
    from: Going,
    kept: &mut [u8; STORE],
    packets: &[u8],
    start: usize,
    out: &mut [u8],
    limit: usize,
    alone: bool,
) -> Gone<Going>
    requires kept { Kept from.got.run kept.old }
    requires startable { Startable packets.now start from limit out.old }
    ensures { WentOn setting alone packets.now limit start from kept.old out.old result kept.new out.new }
{
    let mut store = *kept;
    let gone = go_past(setting, from, &mut store, packets, start, out, limit, alone);
    *kept = store;
    gone
}

// The same, in the copy.
fn go_past(
    setting: Setting,
    from: Going,
    store: &mut [u8; STORE],
    packets: &[u8],
    start: usize,
    out: &mut [u8],
    limit: usize,
    alone: bool,
) -> Gone<Going>
    requires kept { Kept from.got.run store.old }
    requires startable { Startable packets.now start from limit out.old }
    ensures { WentOn setting alone packets.now limit start from store.old out.old result store.new out.new }
{
    let mut a = from;
    let mut at = start;
    // Kept: a step is no count: it goes to the next mark.
    while at < packets.len() {
        let t = go_along(setting, a, store, packets, at, out, limit);
        a = t.going;
        at = t.at;
        if t.full {
            return Gone {
                going: a,
                at,
                address: 256,
                full: true,
            };
        }
        if at < packets.len() {
            if !alone {
                return Gone {
                    going: a,
                    at,
                    address: t.address,
                    full: false,
                };
            }
            let next = at + PACKET;
            let page = a.page;
            let v = pages::judge(setting, page, a.index, t.address, &packets[at..next]);
            a = turn(v, a, store);
            at = next;
        }
    }
    Gone {
        going: a,
        at,
        address: 256,
        full: false,
    }
}

// Packets from a place on up to the next mark.
fn go_along(
    setting: Setting,
    from: Going,
    store: &mut [u8; STORE],
    packets: &[u8],
    start: usize,
    out: &mut [u8],
    limit: usize,
) -> Gone<Going>
    requires kept { Kept from.got.run store.old }
    requires startable { Startable packets.now start from limit out.old }
    ensures { WentOn setting false packets.now limit start from store.old out.old result store.new out.new }
{
    let mut a = from;
    let mut at = start;
    // Kept: a step is no count: it goes to the next packet of ours.
    while at < packets.len() {
        let got = a.got;
        let q = got.written;
        if limit - q < ROOM {
            return Gone {
                going: a,
                at,
                address: 256,
                full: true,
            };
        }
        let met = pass_on(setting, packets, at);
        at = met.at;
        let address = met.address;
        if is_mark(setting, address) {
            return Gone {
                going: a,
                at,
                address,
                full: false,
            };
        }
        let next = at + PACKET;
        let y = (address / 8) as u8;
        if y < 26 {
            let page = a.page;
            let v = pages::judge_y(page, a.index, y);
            a = heed(v, a, store, &packets[at..next], out);
        }
        at = next;
    }
    Gone {
        going: a,
        at,
        address: 256,
        full: false,
    }
}

// Whether a packet with this address is a mark: one that can't be read, or a packet 0 of our magazine. Only at a mark can a page
// be opened or shut.
#[tactic(auto, unfolding(crate::specs::Internal::marks))]
fn is_mark(setting: Setting, address: usize) -> bool
    ensures { result ≡ marks setting address }
{
    address > 255 || address == (setting.magazine % 8) as usize
}

// The first packet from `from` on that isn't another magazine's; the end where there is none.
fn pass_on(setting: Setting, packets: &[u8], from: usize) -> Met
    requires from_in_bounds { from ≤ length packets.now }
    requires packet_length_value { (length packets.now - from) % packet_length ≡ 0 }
    ensures { PassedTo setting packets.now from result }
{
    let mut at = from;
    for packet in packets[from..].chunks_exact(PACKET) {
        let address = packet::address(packet);
        if !packet::passes_by(setting, address) {
            return Met { at, address };
        }
        at += PACKET;
    }
    Met { at, address: 256 }
}

// What the verdict says: the running block is dropped or not, and then the packet's bytes are read or not.
fn heed(v: Verdict, a: Going, store: &mut [u8; STORE], packet: &[u8], out: &mut [u8]) -> Going
    requires kept { Kept a.got.run store.old }
    requires packet_len { length packet.now ≡ packet_length }
    requires packet_room { PacketRoom a.got out.old }
    ensures { Heeded v (nib (get_or packet.now 2 0)) (drop 3 packet.now) (state_in a store.old) a result store.new out.old out.new }
{
    let was = a.got;
    let running = was.run;
    let page = v.page;
    let ran = crate::held::is_running(running);
    let joined = state::joined::spans(v, ran, a.joined);
    let got = crate::held::lose(v.drops, was, store);
    if v.reads {
        let next = crate::held::read(got, joined, store, packet, out);
        let left = next.run;
        let runs = crate::held::is_running(left);
        return Going {
            page,
            index: v.index,
            joined: state::joined::goes_on(joined, packet[2], runs),
            got: next,
        };
    }
    Going {
        page,
        index: v.index,
        joined,
        got,
    }
}

// What the verdict on a mark says: the running block is dropped or not, and no bytes are read.
pub(crate) fn turn(v: Verdict, a: Going, store: &mut [u8; STORE]) -> Going
    requires kept { Kept a.got.run store.old }
    requires reads_value { v.reads ≡ false }
    ensures { (p : ℕ) (l out : List ℕ) → Heeded v p l (state_in a store.old) a result store.new out out }
{
    let was = a.got;
    let running = was.run;
    let page = v.page;
    let ran = crate::held::is_running(running);
    let joined = state::joined::spans(v, ran, a.joined);
    let got = crate::held::lose(v.drops, was, store);
    Going {
        page,
        index: v.index,
        joined,
        got,
    }
}

// No packet has come yet.
pub(crate) fn start(page: Page, index: u8, run: Run, joined: bool) -> Going
    ensures { result ≡ started page index run joined }
{
    Going {
        page,
        index,
        joined,
        got: Got {
            run,
            blocks: 0,
            written: 0,
            dropped: false,
        },
    }
}
