// The writer of the guide page: it cuts records into packets (SCOPE 11).
//
// The writer's 39 bytes after a packet's pointer are thirteen cells of three. A block goes in whole
// cells: its start, its 16 bits in four nibbles, its raw bytes, then filler. So every start stands at
// a byte 1+3p, and the pointer is the cell of a packet's first start.
#![tactic(auto)]

mod zero;

ghost use Rattle.std.specs.Prelude.{◌≡◌, [], map, ◌+◌, ◌*◌, ◌/◌, ◌^◌, ◌≤◌, ◌<◌, length};
ghost use Rattle.std.proofs.lemmas.List.Edits.{sets};
ghost use Rattle.answer.specs.Writing.{answered, left};
ghost use Rattle.blocks.specs.Block.{blocks as block_blocks};
ghost use Rattle.packet.specs.Packet.{packet_length};
ghost use Rattle.symbols.specs.Stream.{byte_of, cell, per_packet, stream_of, grab, before_start};
ghost use Rattle.symbols.specs.Internal.{rest_of, Within, Goes};
ghost use Rattle.writer.specs.Cutting.{data_packet, pages, pages_for, joined, cut_bytes, usual_page, cut_rules, takes_of};
ghost use Rattle.writer.specs.Internal.{measure_of, page_length, page_of, pages_bytes};

use answer::{Answer, Reason};
use blocks::Found;
use packet::{PACKET, Setting};
use symbols::{CELL, Pen};

// How many packets a page has unless told otherwise, and at most.
const USUAL_PAGE: u8 = 20;

const MOST: u8 = 25;

// A packet's cells, and the bytes after its pointer.
const CELLS: usize = 13;

const PER_PACKET: usize = CELLS * CELL;

// The symbols of one packet as they were sent: how many stand before the first start, and where the
// writer stands then.
#[derive(Drop)]
struct Row {
    before: usize,
    pen: Pen,
}

// Cuts a list of records into packets, one after the other at the front of `out`: pages of 20
// packets and a packet 0, the first page with the given index; for an empty list none at all.
// Refused are 16 a setting or an index out of range, 13 a list that isn't whole records, 1 an output
// that is shorter than the packets.
pub fn cut(s: Setting, index: u8, records: &[u8], out: &mut [u8]) -> Answer
    ensures answer { result ≡ answered (cut_rules s index usual_page records.now) (cut_bytes s index usual_page records.now) out.old }
    ensures bytes { out.new ≡ left (cut_rules s index usual_page records.now) (cut_bytes s index usual_page records.now) out.old }
{
    cut_pages(s, index, USUAL_PAGE, records, out)
}

// The same in pages of k packets; a k that isn't 1 to 25 is 16 too.
pub fn cut_pages(s: Setting, index: u8, k: u8, records: &[u8], out: &mut [u8]) -> Answer
    ensures answer { result ≡ answered (cut_rules s index k records.now) (cut_bytes s index k records.now) out.old }
    ensures bytes { out.new ≡ left (cut_rules s index k records.now) (cut_bytes s index k records.now) out.old }
{
    if !takes(s, index, k) {
        return Reason::Range.refuse(0);
    }
    match measure(records) {
        None => Reason::Length.refuse(0),
        Some(cells) => write_all(s, index, k, pages_for(cells, k), records, out),
    }
}

// Whether the setting, the index and the page's length are in range.
fn takes(s: Setting, index: u8, k: u8) -> bool
    ensures { result ≡ takes_of s index k }
{
    if !packet::is_in_range(s) {
        return false;
    }
    if index > 15 {
        return false;
    }
    if k < 1 {
        return false;
    }
    k <= MOST
}

// How many cells the blocks of a list of records take, never more than the list has bytes; none where it isn't whole records.
fn measure(records: &[u8]) -> Option<usize>
    ensures { result ≡ measure_of records.now }
{
    let mut at = 0;
    let mut cells = 0;
    // Kept: each turn goes to the next record, which is no count.
    loop {
        match blocks::record_at(records, at) {
            Found::End => return Some(cells),
            Found::Broken => return None,
            Found::Record { raw, next, .. } => {
                cells += symbols::cells_of(next - raw);
                at = next;
            }
        }
    }
}

// How many pages of k packets so many cells need.
fn pages_for(cells: usize, k: u8) -> usize
    requires { (1 ≤ k) × (cells < 2 ^ 63) }
    ensures { result ≡ pages_for k (cells * cell) }
{
    let packets = (cells + CELLS - 1) / CELLS;
    let per_page = k as usize;
    (packets + (per_page - 1)) / per_page
}

// Writes so many pages, where they have room. The room is divided, since the need may be more than
// a usize holds.
fn write_all(s: Setting, index: u8, k: u8, count: usize, records: &[u8], out: &mut [u8]) -> Answer
    requires { (k ≤ 25) × (index < 16) }
    ensures value { result ≡ answered [] (pages_bytes s index k count records.now) out.old }
    ensures out_after { out.new ≡ left [] (pages_bytes s index k count records.now) out.old }
{
    let size = PACKET * (k as usize + 1);
    if out.len() / size < count {
        return Reason::NoRoom.refuse(0);
    }
    write_pages(s, index, k, count, records, out);
    Ok(count * size)
}

// Writes so many pages of k packets at the front, from the first record on.
fn write_pages(s: Setting, index: u8, k: u8, count: usize, records: &[u8], out: &mut [u8])
    requires { (k ≤ 25) × (index < 16) × (count * page_length k ≤ length out.old) }
    ensures { out.new ≡ sets out.old 0 (joined (pages s k count index (stream_of (block_blocks records.now)))) }
{
    let size = PACKET * (k as usize + 1);
    let mut at = Pen { at: 0, sent: 0 };
    let mut next = index;
    let mut to = 0;
    for _page in 0..count {
        at = write_page(s, next, k, records, at, out, to);
        next = (next + 1) % 16;
        to += size;
    }
}

// Writes a page of k packets and its packet 0 at q.
fn write_page(
    s: Setting,
    index: u8,
    k: u8,
    records: &[u8],
    pen: Pen,
    out: &mut [u8],
    q: usize,
) -> Pen
    requires { (k ≤ 25) × (q + page_length k ≤ length out.old) × Within records.now pen }
    ensures out_after { out.new ≡ sets out.old q (joined (page_of s k index (rest_of records.now pen))) }
    ensures goes { Goes records.now pen (k * per_packet) result }
{
    zero::write_zero(s, index, k, out, q);
    let mut at = pen;
    let mut to = q + PACKET;
    for y in 1..=k {
        at = write_packet(s, y, records, at, out, to);
        to += PACKET;
    }
    at
}

// Writes packet y at q: its address, its pointer and its 39 bytes.
fn write_packet(s: Setting, y: u8, records: &[u8], pen: Pen, out: &mut [u8], q: usize) -> Pen
    requires { (q + packet_length ≤ length out.old) × Within records.now pen }
    ensures out_after { out.new ≡ sets out.old q (data_packet s y (rest_of records.now pen)) }
    ensures goes { Goes records.now pen per_packet result }
{
    zero::write_address(s.magazine, y, out, q);
    let sent = write_symbols(records, pen, out, q + 3);
    out[q + 2] = octet::image((sent.before / CELL) as u8);
    sent.pen
}

// Writes the 39 bytes that follow a packet's pointer, at q.
fn write_symbols(records: &[u8], pen: Pen, out: &mut [u8], q: usize) -> Row
    requires { (q + per_packet ≤ length out.old) × Within records.now pen }
    ensures out_after { out.new ≡ sets out.old q (map byte_of (grab per_packet (rest_of records.now pen))) }
    ensures before_value { result.before ≡ before_start (grab per_packet (rest_of records.now pen)) }
    ensures goes { Goes records.now pen per_packet result.pen }
{
    let mut at = pen;
    let mut before = PER_PACKET;
    for i in 0..PER_PACKET {
        let sent = symbols::step(records, at);
        out[q + i] = sent.byte;
        before = symbols::first(before, sent.starts, i);
        at = sent.pen;
    }
    Row { before, pen: at }
}
