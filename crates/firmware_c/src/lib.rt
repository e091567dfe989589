// The firmware's calls as a static library for C: what firmware/guide.h declares, under those symbols, and nothing
// else (SCOPE 6.11). Each is the call of `firmware` by that name, with its contract.
#![tactic(auto)]

ghost use Rattle.std.specs.Prelude.{◌≡◌};
ghost use Rattle.octet.specs.Decoding.{nib};
ghost use Rattle.octet.specs.Turning.{turned};
ghost use Rattle.units.specs.Units.{unit_at};
ghost use Rattle.firmware.specs.Values.{packed};

// The nibble that a protected byte decodes to, 0 to 15, or 16 where it can't be decoded.
#[unsafe(no_mangle)]
pub extern "C" fn guide_decode(b: u8) -> u8
    ensures { result ≡ nib b }
{
    firmware::guide_decode(b)
}

// The byte with its bits turned: bit i goes to bit 7 - i.
#[unsafe(no_mangle)]
pub extern "C" fn guide_turn(b: u8) -> u8
    ensures { result ≡ turned b }
{
    firmware::guide_turn(b)
}

// One step of the unit walk: what begins at a place of a PES packet, as one number.
#[unsafe(no_mangle)]
pub extern "C" fn guide_unit_at(pes: &[u8], at: usize) -> u64
    ensures { result ≡ packed (unit_at pes.now at) }
{
    firmware::guide_unit_at(pes, at)
}
