// What `--help` prints. Each line of it stands on a line here, as a byte string that ends in \n: `loader` prints it from here.
use told::Console;

// How the program is called; a bad word is answered with it too.
pub const USAGE: [u8; 85] =
    *b"usage: desk [-v] [-m 1..8] [-p 00..FF] [-s 0..15[,0..15]] [-a 0..31] [--] [FILE ...]\n";

pub fn put(rt: &impl Console) -> bool {
    line(rt, &USAGE)
        && line(rt, b"  -v         also print a line of counts\n")
        && line(rt, b"  -m 1..8    the magazine, usually 1\n")
        && line(rt, b"  -p 00..FF  the page, usually DF\n")
        && line(
            rt,
            b"  -s 0..15   the stream, usually 1; -s 1,2 reads two streams at once\n",
        )
        && line(rt, b"  -a 0..31   the application, usually 1\n")
        && line(rt, b"  --         only names of files follow\n")
        && line(rt, b"  --help     as the first word: print this\n")
        && line(rt, b"  --version  as the first word: print the version\n")
        && line(rt, b"example: desk -v -m 1 -p DF night.t42\n")
}

// Writes a line, and answers whether standard output took it.
fn line(rt: &impl Console, text: &[u8]) -> bool {
    told::put(rt, b"desk", text)
}
