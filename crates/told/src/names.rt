// A file's name as it is told: it can't imitate a line of a list, nor of what a program says.
ghost use Rattle.std.specs.Prelude.{◌≡◌, map};
ghost use Rattle.told.specs.Names.{printed};

// The name with a `?` for each byte that isn't printed (SCOPE 13.8).
pub fn plain(name: &mut [u8])
    ensures { name.new ≡ map printed name.old }
{
    for b in name.iter_mut() {
        *b = glyph(*b);
    }
}

fn glyph(b: u8) -> u8
    ensures { result ≡ printed b }
{
    if b.is_ascii_control() { b'?' } else { b }
}
