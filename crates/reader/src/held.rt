// The running block in its store: how a packet's bytes go on with it, finish it or drop it, and where finished blocks go.
ghost use Rattle.std.specs.Prelude.{◌≡◌, List, [], ℕ, ◌+◌, ◌*◌, ◌≤◌, length, take, drop};
ghost use Rattle.std.proofs.lemmas.List.Edits.{sets};
ghost use Rattle.laws.specs.Pick.{pick, both as pick_both, either as pick_either};
ghost use Rattle.blocks.specs.Block.{head_length, record_of};
ghost use Rattle.packet.specs.Packet.{packet_length};
ghost use Rattle.walk.specs.declared.Run.TheVariants.{Body};
ghost use Rattle.walk.specs.Mode.{block_with, body};
ghost use Rattle.walk.specs.Store.{zeroed, mode_of};
ghost use Rattle.walk.specs.Reading.{drop_if, spanning};
ghost use Rattle.walk.specs.Internal.{Holds, Kept, TookIn, Room, Finished, Flowed, PacketRoom, Lost, runs};
ghost use Rattle.reader.specs.Internal.{ReadFrom, GoneTo, GoneOn};

use blocks::HEAD;
use state::STORE;
use walk::{Ahead, Got, Run, Taken};

// The 39 bytes of a packet of our page, by its pointer: the running block, which spans pages or not, goes on or is dropped, and the
// records of the blocks that they finish stand in the output behind what is written.
pub(crate) fn read(
    got: Got,
    joined: bool,
    store: &mut [u8; STORE],
    packet: &[u8],
    out: &mut [u8],
) -> Got
    requires kept { Kept got.run store.old }
    requires packet_len { length packet.now ≡ packet_length }
    requires packet_room { PacketRoom got out.old }
    ensures { ReadFrom joined store.old packet.now got result store.new out.old out.new }
{
    let before = walk::pointed(packet[2]);
    if before > 39 {
        return lose(true, got, store);
    }
    let at = 3 + before;
    let was = got.run;
    let taken = take_in(was, store, &packet[3..at]);
    if before < 39 {
        let carried = continue_to(got, joined, taken, store, &packet[3..at], out);
        return flow(carried, store, &packet[at..], out);
    }
    continue_on(got, joined, taken, store, out)
}

// The running block is dropped where the test holds, and that is noted.
pub(crate) fn lose(t: bool, got: Got, store: &mut [u8; STORE]) -> Got
    requires { Kept got.run store.old }
    ensures { (out : List ℕ) → Lost t (mode_of got.run store.old) got result store.new out }
{
    let run = got.run;
    let dropped = got.dropped || (t && is_running(run));
    Got {
        run: drop_if(t, run, store),
        dropped,
        ..got
    }
}

// The bytes before the pointed one, of which a running block has taken its own: it is finished by then
// with only filler behind it, or it is dropped.
fn continue_to(
    got: Got,
    joined: bool,
    taken: Taken,
    store: &mut [u8; STORE],
    s: &[u8],
    out: &mut [u8],
) -> Got
    requires kept { Kept taken.run store.old }
    requires room { Room got out.old }
    ensures { GoneTo joined s.now got taken store.old result store.new out.old out.new }
{
    let run = taken.run;
    let lost = walk::falls(run, s, taken.next);
    let dropped = got.dropped || (is_running(got.run) && lost);
    let run = drop_if(lost, run, store);
    finish(
        Got {
            run,
            dropped,
            ..got
        },
        joined,
        store,
        out,
    )
}

// No start is pointed at: a running block has taken what it wants, and what follows it isn't read.
fn continue_on(got: Got, joined: bool, taken: Taken, store: &mut [u8; STORE], out: &mut [u8]) -> Got
    requires kept { Kept taken.run store.old }
    requires room { Room got out.old }
    ensures { GoneOn joined got taken store.old result store.new out.old out.new }
{
    let run = taken.run;
    let dropped = got.dropped || (is_running(got.run) && !is_running(run));
    finish(
        Got {
            run,
            dropped,
            ..got
        },
        joined,
        store,
        out,
    )
}

// From the pointed byte on, where nothing runs: filler is skipped to a start, the block is handed out
// where all of it is there, and so on to the end. What is left of a block is held.
fn flow(got: Got, store: &mut [u8; STORE], s: &[u8], out: &mut [u8]) -> Got
    requires store_value { store.old ≡ zeroed [] }
    requires s_in_bounds { (got.written + length s.now ≤ length out.old) × (head_length * got.blocks ≤ got.written) }
    ensures { Flowed s.now got result store.new out.old out.new }
{
    let dropped = got.dropped;
    let mut blocks = got.blocks;
    let mut q = got.written;
    let mut at = 0;
    // Kept: a step is no count: it goes to the next block that starts in the bytes.
    loop {
        match walk::find(s, at) {
            Ahead::Nothing => return so_far(Run::Idle, blocks, q, dropped),
            Ahead::Broken => return so_far(Run::Idle, blocks, q, true),
            Ahead::Cut { got, bits, part } => {
                let left = Run::Head {
                    got,
                    bits,
                    part: part as u8,
                };
                return so_far(left, blocks, q, dropped);
            }
            Ahead::Whole { head, part, next } => {
                let mended = part as u8;
                let size = (head / 32) as usize;
                let there = s.len() - next;
                if there < size {
                    lent_bytes::copy(s, next, there, store, 0);
                    let left = Run::Body {
                        head,
                        part: mended,
                        held: there,
                    };
                    return so_far(left, blocks, q, dropped);
                }
                emit(head, mended, 0, s, next, size, out, q);
                blocks += 1;
                q = q + HEAD + size;
                at = next + size;
            }
        }
    }
}

// What reading has come to, of its parts.
fn so_far(run: Run, blocks: usize, written: usize, dropped: bool) -> Got
    ensures { result ≡ record { run = run; blocks = blocks; written = written; dropped = dropped } }
{
    Got {
        run,
        blocks,
        written,
        dropped,
    }
}

// The running block takes its bytes from the front of s.
fn take_in(run: Run, store: &mut [u8; STORE], s: &[u8]) -> Taken
    requires { Kept run store.old }
    ensures { TookIn (mode_of run store.old) s.now s.now result store.new }
{
    match run {
        Run::Idle => Taken {
            run: Run::Idle,
            next: 0,
        },
        Run::Head { got, bits, part } => match walk::head_on(s, 0, got, bits, part) {
            Ahead::Nothing | Ahead::Broken => Taken {
                run: Run::Idle,
                next: 0,
            },
            Ahead::Cut { got, bits, part: p } => Taken {
                run: Run::Head {
                    got,
                    bits,
                    part: p as u8,
                },
                next: s.len(),
            },
            Ahead::Whole {
                head,
                part: p,
                next,
            } => body_in(head, p as u8, 0, store, s, next),
        },
        Run::Body { head, part, held } => body_in(head, part, held, store, s, 0),
    }
}

// A block takes the bytes that it still wants, from `from` on, or all that are there.
fn body_in(
    head: u16,
    part: u8,
    held: usize,
    store: &mut [u8; STORE],
    s: &[u8],
    from: usize,
) -> Taken
    requires kept { Kept (Body head part held) store.old }
    requires from_in_bounds { from ≤ length s.now }
    ensures { TookIn (body head part (take held store.old)) (drop from s.now) s.now result store.new }
{
    let need = (head / 32) as usize - held;
    let there = s.len() - from;
    lent_bytes::copy(s, from, need, store, held);
    let took = need.min(there);
    Taken {
        run: Run::Body {
            head,
            part,
            held: held + took,
        },
        next: from + took,
    }
}

// A block that is held whole goes out, as one that spans pages or not.
fn finish(got: Got, joined: bool, store: &mut [u8; STORE], out: &mut [u8]) -> Got
    requires kept { Kept got.run store.old }
    requires room { Room got out.old }
    ensures { Finished joined (mode_of got.run store.old) got result store.new out.old out.new }
{
    let Run::Body { head, part, held } = got.run else {
        return got;
    };
    if held < (head / 32) as usize {
        return got;
    }
    let q = got.written;
    hand_out(head, part, joined, held, store, out, q);
    Got {
        run: Run::Idle,
        blocks: got.blocks + 1,
        written: q + HEAD + held,
        dropped: got.dropped,
    }
}

// A block that is held whole goes out, and the store is clear again.
fn hand_out(
    head: u16,
    part: u8,
    joined: bool,
    held: usize,
    store: &mut [u8; STORE],
    out: &mut [u8],
    q: usize,
)
    requires kept { Kept (Body head part held) store.old }
    requires held_in_bounds { q + head_length + held ≤ length out.old }
    ensures store_after { store.new ≡ zeroed [] }
    ensures out_after { out.new ≡ sets out.old q (record_of (spanning joined (block_with head part (take held store.old)))) }
{
    emit(head, part, u8::from(joined), &*store, 0, held, out, q);
    lent_bytes::clear(store, held);
}

// The running block, dropped where the test holds.
fn drop_if(t: bool, run: Run, store: &mut [u8; STORE]) -> Run
    requires { Kept run store.old }
    ensures { Holds (drop_if t (mode_of run store.old)) result store.new }
{
    if t {
        let_go(run, store);
        return Run::Idle;
    }
    run
}

// The store without what the running block held.
fn let_go(run: Run, store: &mut [u8; STORE])
    requires { Kept run store.old }
    ensures { store.new ≡ zeroed [] }
{
    if let Run::Body { held, .. } = run {
        lent_bytes::clear(store, held);
    }
}

// Whether a block runs.
pub(crate) fn is_running(run: Run) -> bool
    ensures { result ≡ runs run }
{
    !matches!(run, Run::Idle)
}

// The record of a block whose raw bytes are so many of `raw` from `from` on, to the place q of the
// output: its 16 bits, its part, its second byte, the raw bytes.
fn emit(
    head: u16,
    part: u8,
    second: u8,
    raw: &[u8],
    from: usize,
    size: usize,
    out: &mut [u8],
    q: usize,
)
    requires { (from + size ≤ length raw.now) × (q + head_length + size ≤ length out.old) }
    ensures { out.new ≡ sets out.old q (record_of (record { head = head; part = part; second = second; raw = take size (drop from raw.now) })) }
{
    out[q] = (head % 256) as u8;
    out[q + 1] = (head / 256) as u8;
    out[q + 2] = part;
    out[q + 3] = second;
    lent_bytes::copy(raw, from, size, out, q + HEAD);
}
