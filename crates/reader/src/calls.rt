// The calls of a reader, of one stream or of two: their tests in order, and then what it makes of the packets.
ghost use Rattle.std.specs.Prelude.{◌≡◌, true, ℕ, ◌%◌, ◌≤◌, length};
ghost use Rattle.std.specs.declared.result.Result.TheVariants.{Err};
ghost use Rattle.laws.specs.Pick.{both};
ghost use Rattle.answer.specs.Reasons.{number};
ghost use Rattle.answer.specs.Values.{refusal};
ghost use Rattle.packet.specs.Packet.{packet_length};
ghost use Rattle.reader.specs.Internal.{Reading, told as internal_told, laid, all_heard, all_reader, all_out, one_heard, one_reader, one_out};

use crate::{Heard, HeardAll, Took, TookAll};
use answer::Reason;
use packet::PACKET;

// What the two readers have in common: a setting and a state are in range or not, and whole packets are taken while there is room.
pub(crate) trait Reads {
    type Setting: Copy;

    ghost reading: { Reading Self.Setting Self };

    // What is known besides of a state that is in range.
    ghost Typed: { Self → Type 0 };

    ghost ROOM: { ℕ };

    // The bytes of output that must be lent for one packet.
    const ROOM: usize;

    fn is_ready(&self, setting: Self::Setting) -> bool
        ensures value { result ≡ both (reading.fits setting) (reading.in_range setting self.now) }
        ensures typed { result ≡ true → Typed self.now };

    // Packets one after the other: what is heard of them, and the reader has gone on.
    fn take(&mut self, setting: Self::Setting, packets: &[u8], out: &mut [u8]) -> TookAll
        requires ready { both (reading.fits setting) (reading.in_range setting self.old) ≡ true }
        requires typed { Typed self.old }
        requires whole { length packets.now % packet_length ≡ 0 }
        requires room { ROOM ≤ length out.old }
        ensures took { result ≡ reading.took setting self.old packets.now (length out.old) }
        ensures left { self.new ≡ reading.left setting self.old packets.now (length out.old) }
        ensures out_after { out.new ≡ laid (reading.bytes setting self.old packets.now (length out.old)) out.old };
}

// One packet: a list of one.
pub(crate) fn feed<R: Reads>(
    setting: R::Setting,
    reader: &mut R,
    packet: &[u8],
    out: &mut [u8],
) -> Heard
    ensures heard { result ≡ one_heard R.reading R.ROOM setting reader.old packet.now out.old }
    ensures reader { reader.new ≡ one_reader R.reading R.ROOM setting reader.old packet.now out.old }
    ensures out_after { out.new ≡ one_out R.reading R.ROOM setting reader.old packet.now out.old }
{
    if packet.len() != PACKET {
        return Reason::Range.refuse(0);
    }
    told(feed_all(setting, reader, packet, out))
}

// A list of packets. The state is tested once a call, not once a packet.
pub(crate) fn feed_all<R: Reads>(
    setting: R::Setting,
    reader: &mut R,
    packets: &[u8],
    out: &mut [u8],
) -> HeardAll
    ensures heard { result ≡ all_heard R.reading R.ROOM setting reader.old packets.now out.old }
    ensures reader { reader.new ≡ all_reader R.reading R.ROOM setting reader.old packets.now out.old }
    ensures out_after { out.new ≡ all_out R.reading R.ROOM setting reader.old packets.now out.old }
{
    if packets.len() % PACKET != 0 {
        return Reason::Range.refuse(0);
    }
    if !reader.is_ready(setting) {
        return Reason::Range.refuse(0);
    }
    if out.len() < R::ROOM {
        return Reason::NoRoom.refuse(0);
    }
    Ok(reader.take(setting, packets, out))
}

// What one packet gave, from what a list of one gave.
fn told(heard: HeardAll) -> Heard
    ensures { result ≡ internal_told heard }
{
    heard.map(|t| Took {
        blocks: t.blocks,
        written: t.written,
        dropped: t.dropped,
    })
}
