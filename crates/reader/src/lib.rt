// The reader of the guide page, called packet by packet; `feed_all` takes a list of packets in one call
// (SCOPE 8 to 10). Two streams at once are module `two` (SCOPE 27).
#![tactic(auto)]

mod calls;
mod held;
pub mod many;
pub mod two;

ghost use Rattle.std.specs.Prelude.{◌≡◌};
ghost use Rattle.reader.specs.Feeding.{feed_heard, feed_reader, feed_out};

use answer::Refusal;
pub use many::{HeardAll, TookAll, feed_all};
use packet::Setting;
pub use state::{Reader, fresh};

// The bytes of output that a reader must be lent for one packet (SCOPE 3.5).
pub const ROOM: usize = 2112;

// What one packet gave: so many blocks, as so many bytes of records at the front of the output, and
// whether a block was dropped.
#[derive(Drop)]
pub struct Took {
    pub blocks: usize,
    pub written: usize,
    pub dropped: bool,
}

// What is heard of one packet.
pub type Heard = Result<Took, Refusal>;

// What a call gave or why it refused, and beside it the reader, of one stream or of two, as it is then.
#[derive(Drop)]
pub struct Fed<T, R> {
    pub heard: Result<T, Refusal>,
    pub reader: R,
}

// One packet of 42 bytes. Refused with 16 where the setting or the state is out of range or the packet
// isn't 42 bytes long, then with 1 where the output is under 2,112 bytes: the output and the reader are
// then as they were. Else the blocks that the packet finishes stand as records at the front of the
// output, and the reader has gone on.
pub fn feed(setting: Setting, reader: Reader, packet: &[u8], out: &mut [u8]) -> Fed<Took, Reader>
    ensures heard_value { result.heard ≡ feed_heard setting reader packet.now out.old }
    ensures reader_value { result.reader ≡ feed_reader setting reader packet.now out.old }
    ensures out_after { out.new ≡ feed_out setting reader packet.now out.old }
{
    let mut reader = reader;
    let heard = calls::feed(setting, &mut reader, packet, out);
    Fed { heard, reader }
}
