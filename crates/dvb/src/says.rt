// What `dvb` writes and says. The first write that standard output doesn't take is told, and the caller stops.
use told::Console;

// More than the longest line of a table: that of 51 subtitles, of network 255 and block 32768, has 543 bytes.
const LINE: usize = 640;

// The line of a table: its network, its block number and its descriptor, in one write.
pub fn put_table(rt: &impl Console, network: u64, block: u64, descriptor: &[u8]) -> bool {
    let mut line = [0u8; LINE];
    let at = put_number(b"network=", network, &mut line, 0);
    let at = put_number(b" block=", block, &mut line, at);
    let at = text_lines::put(b" dvb=", &mut line, at);
    let at = put_hex(descriptor, &mut line, at);
    let at = text_lines::put(b"\n", &mut line, at);
    told::put(rt, b"dvb", told::front(&line, at))
}

// Puts a number behind its name at a place of the line, and answers the place behind it.
fn put_number(name: &[u8], number: u64, line: &mut [u8], at: usize) -> usize {
    let mut digits = [0u8; 20];
    let n = io::decimal(number, &mut digits);
    let at = text_lines::put(name, line, at);
    text_lines::put(&digits[..n], line, at)
}

// Puts bytes at a place of the line, two hex digits each, and answers the place behind them.
fn put_hex(bytes: &[u8], line: &mut [u8], mut at: usize) -> usize {
    for byte in bytes {
        at = put_byte(*byte, line, at);
    }
    at
}

fn put_byte(byte: u8, line: &mut [u8], at: usize) -> usize {
    let mut digits = [0u8; 16];
    let n = io::hex(byte as u64, 2, &mut digits);
    text_lines::put(&digits[..n], line, at)
}

// The last line: how many TI tables were accepted, and how many of them were left out.
pub fn put_last(rt: &impl Console, tables: u64, over: u64) -> bool {
    told::put_count(rt, b"dvb", b"tables=", tables)
        && told::put_count(rt, b"dvb", b" over=", over)
        && told::put(rt, b"dvb", b"\n")
}

// Tells of a table that a descriptor can't hold.
pub fn say_over(rt: &impl Console, name: &[u8], network: u64, block: u64) {
    told::begin(rt, b"dvb");
    told::say(rt, name);
    told::say_count(rt, b": network ", network);
    told::say_count(rt, b", block ", block);
    told::say(rt, b": more than 51 subtitles\n");
}
