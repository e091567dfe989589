// EBU data in a PES packet, as reading (crate `pes`) and writing (crate `pes_writer`) both need it: which
// data_identifier it has, and a text unit's 42 bytes turned. EN 300 472, clauses 4.3 and 4.4.
ghost use Rattle.std.specs.Prelude.{◌≡◌, ◌+◌, leb};
ghost use Rattle.pes.specs.Texts.{ebu_data, with_text};

// The bytes of a text unit after its framing byte.
const TEXT: usize = 42;

// Whether a data_identifier is from 0x10 to 0x1F.
pub fn is_ebu(d: u8) -> bool
    ensures { result ≡ ebu_data d }
{
    matches!(d, 0x10..=0x1F)
}

// Writes 42 bytes of `src`, from `from` on, each turned, into `out` from `to` on. Where either has no 42
// bytes there, nothing is written.
pub fn turn_run(src: &[u8], from: usize, out: &mut [u8], to: usize)
    ensures { out.new ≡ with_text src.now from out.old to }
{
    if has_text(src.len(), from) && has_text(out.len(), to) {
        for i in 0..TEXT {
            out[to + i] = octet::turn(src[from + i]);
        }
    }
}

// Whether 42 of so many bytes stand from a place on.
fn has_text(len: usize, from: usize) -> bool
    ensures { result ≡ leb (from + 42) len }
{
    TEXT <= len && from <= len - TEXT
}
