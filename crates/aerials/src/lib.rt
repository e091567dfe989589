// Two receivers hear the same packet: the part of the one that was heard better (SCOPE 18).
//
// The caller must know that the two are one packet of the sender's, sent once. To compare their addresses is not enough: a packet of
// the next page has the same address, and where one aerial is a page late the head of one table and the tail of another would join, and
// nothing shows it.
#![tactic(auto)]

ghost use Rattle.std.specs.Prelude.{◌≡◌, ◌∷◌, [], length};
ghost use Rattle.packet.specs.Packet.{packet_length};
ghost use Rattle.aerials.specs.Better.{judged_bytes, broken_in, better_of, better_at};

use packet::PACKET;

// How many bytes at its front are looked at.
const JUDGED: usize = 10;

// The 40 bytes after the address of the first packet, or of the second where fewer of its first ten bytes can't be decoded: a part of
// the lent bytes, and no copy. Where one of the two isn't 42 bytes long, which is number 16, an empty part of the first.
pub fn better<'a>(first: &'a [u8], second: &'a [u8]) -> &'a [u8]
    ensures result_value { result.now ≡ better_of first.now second.now }
    ensures ref_ptr_value { result.ref_ptr ≡ better_at first.now second.now first.entry.ref_ptr second.entry.ref_ptr }
{
    let long = second.len();
    if first.len() != PACKET {
        return &first[0..0];
    }
    if long != PACKET {
        return &first[..0];
    }
    if broken(second) < broken(first) {
        return &second[2..];
    }
    &first[2..]
}

// How many of a packet's first ten bytes can't be decoded.
fn broken(packet: &[u8]) -> usize
    requires { length packet.now ≡ packet_length }
    ensures { result ≡ broken_in judged_bytes packet.now }
{
    let mut n = 0;
    for i in 0..JUDGED {
        n += lost(packet[i]);
    }
    n
}

// 1 for a byte that can't be decoded.
fn lost(b: u8) -> usize
    ensures { result ≡ broken_in 1 (b ∷ []) }
{
    if octet::quick::decode(b) == 16 { 1 } else { 0 }
}
