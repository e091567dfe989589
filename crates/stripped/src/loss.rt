// The packet that stands for a loss: none of its bytes can be decoded, so that a reader drops what it holds.
ghost use Rattle.std.specs.Prelude.{◌≡◌};
ghost use Rattle.stripped.specs.Loss.{blanked};

// A packet's bytes.
pub const PACKET: usize = 42;

// Writes one packet that can't be decoded to the front; nothing where it has no room.
pub fn blank(packets: &mut [u8])
    ensures { packets.new ≡ blanked packets.old }
{
    if PACKET <= packets.len() {
        packets[..PACKET].fill(0x16);
    }
}
