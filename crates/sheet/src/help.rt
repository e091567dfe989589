// What `--help` prints as the first word. Each line of it stands on a line here: `loader` prints it from here.
use told::Console;

pub const PROGRAM: [u8; 5] = *b"sheet";

pub fn put(rt: &impl Console) -> bool {
    let on = line(
        rt,
        true,
        b"usage: sheet add [-m 1..8] [-p 00..FF] [-s 0..15[,0..15]] [-a 0..31] [--] SHEET STAMP CAPTURE [STAMP CAPTURE ...]\n",
    );
    let on = line(rt, on, b"       sheet join [--] SHEET OTHER ...\n");
    let on = line(rt, on, b"       sheet drop [--] SHEET KIND NETWORK BLOCK\n");
    let on = line(rt, on, b"       sheet check [--] SHEET ...\n");
    let on = line(rt, on, b"       sheet compare [--] FIRST SECOND\n");
    let on = line(rt, on, b"       sheet up [--] SHEET\n");
    let on = line(rt, on, b"       sheet down [--] SHEET\n");
    let on = line(
        rt,
        on,
        b"  add        add the tables of captures to the sheet; a stamp is the second at which the capture behind it started\n",
    );
    let on = line(rt, on, b"  join       join other sheets to the sheet\n");
    let on = line(
        rt,
        on,
        b"  drop       take one entry out of the sheet: its kind is LI or TI\n",
    );
    let on = line(
        rt,
        on,
        b"  check      print a line for each sheet, and change none\n",
    );
    let on = line(
        rt,
        on,
        b"  compare    print what went, came and changed from the first sheet to the second\n",
    );
    let on = line(
        rt,
        on,
        b"  up         move a sheet of the old form, without mended= lines, to the new one\n",
    );
    let on = line(
        rt,
        on,
        b"  down       move a sheet to the old form, where every number of mended bytes is 0\n",
    );
    let on = line(rt, on, b"  -m 1..8    the magazine, usually 1\n");
    let on = line(rt, on, b"  -p 00..FF  the page, usually DF\n");
    let on = line(
        rt,
        on,
        b"  -s 0..15   the stream, usually 1; -s 1,2 reads two streams at once\n",
    );
    let on = line(rt, on, b"  -a 0..31   the application, usually 1\n");
    let on = line(rt, on, b"  --         the sheet, stamps and files follow\n");
    let on = line(rt, on, b"  --help     print this; only as the first word\n");
    let on = line(
        rt,
        on,
        b"  --version  print the version; only as the first word\n",
    );
    line(
        rt,
        on,
        b"example: sheet add day.sheet 1794780000 evening.t42 1794812400 morning.t42\n",
    )
}

// A line more, where standard output took those before it.
fn line(rt: &impl Console, on: bool, text: &[u8]) -> bool {
    if !on {
        return false;
    }
    told::put(rt, &PROGRAM, text)
}
