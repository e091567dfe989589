// What bench/measure.c times: our calls in the shape in which C can call them on many bytes at once.
// No product links this crate.
#![tactic(auto)]

ghost use Rattle.std.specs.Prelude.{◌≡◌, ◌/◌, ◌<◌, length};
ghost use Rattle.packet.specs.Packet.{packet_length};
ghost use Rattle.answer.specs.Values.{written_of};
ghost use Rattle.answer.specs.Writing.{answered, left};
ghost use Rattle.forms.specs.Form.{form};
ghost use Rattle.blocks.specs.Values.{counted, written_of as frames_written_of};
ghost use Rattle.octet.specs.Decoding.{nib};
ghost use Rattle.octet.specs.Turning.{turned};
ghost use Rattle.pes.specs.Reading.{read_rules, records_of};
ghost use Rattle.blocks.specs.Parts.{mended_in};
ghost use Rattle.table.specs.Reading.{read_rules as table_read_rules, table_read};
ghost use Rattle.bench.specs.Mixing.{mixed};
ghost use Rattle.bench.specs.Feeding.{desk, desks, start, both_start, wrap, added, each_count, each_out, blocks_of};
ghost use Rattle.reader.specs.Many.{feed_all_heard, feed_all_out};
ghost use Rattle.reader.specs.Two.{feed_all_heard_of_two, feed_all_out_of_two};

use answer::Answer;
use blocks::Taken;
use packet::two::Streams;
use packet::{PACKET, Setting};
use reader::{Fed, Heard, HeardAll};

// Decodes each byte. What it gives hangs on every one, so that none can be left out.
#[unsafe(no_mangle)]
pub extern "C" fn bench_decode(s: &[u8]) -> u8
    ensures { result ≡ mixed nib s.now 0 }
{
    let mut mix = 0u8;
    for b in s {
        mix ^= octet::quick::decode(*b);
    }
    mix
}

// Turns each byte, the same way.
#[unsafe(no_mangle)]
pub extern "C" fn bench_turn(s: &[u8]) -> u8
    ensures { result ≡ mixed turned s.now 0 }
{
    let mut mix = 0u8;
    for b in s {
        mix ^= octet::turn(*b);
    }
    mix
}

// Reads one PES packet: how many bytes of records were written, 0 where it is refused.
#[unsafe(no_mangle)]
pub extern "C" fn bench_pes(packet: &[u8], out: &mut [u8]) -> usize
    ensures count { result ≡ written_of (answered (read_rules packet.now) (records_of packet.now) out.old) }
    ensures bytes { out.new ≡ left (read_rules packet.now) (records_of packet.now) out.old }
{
    match pes::read(packet, out) {
        Ok(n) => n,
        Err(_) => 0,
    }
}

// Reads one record of application 1: how many bytes of a table's form were written, 0 where it is refused.
#[unsafe(no_mangle)]
pub extern "C" fn bench_read(rec: &[u8], out: &mut [u8]) -> usize
    ensures count { result
        ≡ frames_written_of
        (counted (mended_in rec.now)
        (answered (table_read_rules 1 rec.now) (form (table_read rec.now)) out.old)) }
    ensures bytes { out.new ≡ left (table_read_rules 1 rec.now) (form (table_read rec.now)) out.old }
{
    match table::read_block(1, rec, out) {
        Ok(Taken { written, .. }) => written,
        Err(_) => 0,
    }
}

// Feeds 42-byte packets to a fresh reader one after the other, each into the front of `out`: how many
// blocks were handed out.
#[unsafe(no_mangle)]
pub extern "C" fn bench_feed(packets: &[u8], out: &mut [u8]) -> usize
    ensures count { result ≡ each_count (length packets.now / packet_length) start packets.now out.old 0 }
    ensures bytes { out.new ≡ each_out (length packets.now / packet_length) start packets.now out.old }
{
    let setting = Setting {
        magazine: 1,
        page: 0xDF,
        stream: 1,
        application: 1,
    };
    let mut count = 0;
    let mut state = reader::fresh();
    for i in 0..packets.len() / PACKET {
        let at = PACKET * i;
        let fed = reader::feed(setting, state, &packets[at..at + PACKET], out);
        count = counted(count, fed.heard);
        state = fed.reader;
    }
    count
}

// Feeds 42-byte packets to a fresh reader in one call: how many blocks were handed out.
#[unsafe(no_mangle)]
pub extern "C" fn bench_feed_all(packets: &[u8], out: &mut [u8]) -> usize
    ensures count { result ≡ blocks_of (feed_all_heard desk start packets.now out.old) }
    ensures bytes { out.new ≡ feed_all_out desk start packets.now out.old }
{
    let setting = Setting {
        magazine: 1,
        page: 0xDF,
        stream: 1,
        application: 1,
    };
    let state = reader::fresh();
    let Fed { heard, .. } = reader::feed_all(setting, state, packets, out);
    handed_out(heard)
}

// Feeds 42-byte packets of two streams to a fresh reader of both in one call: how many blocks of either were handed out.
#[unsafe(no_mangle)]
pub extern "C" fn bench_feed_both(packets: &[u8], out: &mut [u8]) -> usize
    ensures count { result ≡ blocks_of (feed_all_heard_of_two desks both_start packets.now out.old) }
    ensures bytes { out.new ≡ feed_all_out_of_two desks both_start packets.now out.old }
{
    let setting = Streams {
        magazine: 1,
        page: 0xDF,
        first: 1,
        second: 2,
        application: 1,
    };
    let state = reader::two::fresh();
    let Fed { heard, .. } = reader::two::feed_all(setting, state, packets, out);
    handed_out(heard)
}

// How many blocks a list of packets gave.
fn handed_out(heard: HeardAll) -> usize
    ensures { result ≡ blocks_of heard }
{
    match heard {
        Ok(t) => t.blocks,
        Err(_) => 0,
    }
}

// The count with a packet's blocks.
fn counted(count: usize, heard: Heard) -> usize
    requires { count < wrap }
    ensures value { result ≡ added count heard }
    ensures upper_bound { result < wrap }
{
    match heard {
        Ok(t) => (count + t.blocks % 65536) % 4294967296,
        Err(_) => count,
    }
}
