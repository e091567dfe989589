// What `--help` prints as the first word. Each line of it stands on a line here: `loader` prints it from here.
use told::Console;

pub const PROGRAM: [u8; 5] = *b"unpes";

// A bad word is answered with it too.
pub const USAGE: [u8; 29] = *b"usage: unpes [--] [FILE ...]\n";

pub fn put(rt: &impl Console) -> bool {
    let on = line(rt, true, &USAGE);
    let on = line(
        rt,
        on,
        b"the 42-byte packets that PES packets carry go to standard output; they come from each FILE, or from standard input\n",
    );
    let on = line(rt, on, b"  --         names of files follow\n");
    let on = line(rt, on, b"  --help     print this; only as the first word\n");
    let on = line(
        rt,
        on,
        b"  --version  print the version; only as the first word\n",
    );
    line(rt, on, b"example: unpes night.pes >night.t42\n")
}

// A line more, where standard output took those before it.
fn line(rt: &impl Console, on: bool, text: &[u8]) -> bool {
    if !on {
        return false;
    }
    told::put(rt, &PROGRAM, text)
}
