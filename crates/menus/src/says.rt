// What `menus` writes and says. The first write that standard output doesn't take is told, and the caller stops. A line on standard error
// that tells of a failure begins `menus: `, and one that tells of none `note: `.
use told::Console;

// A listing, under a line with the file's name where that is asked for.
pub fn put_listing(rt: &impl Console, name: &[u8], is_titled: bool, listing: &[u8]) -> bool {
    (!is_titled || told::put_title(rt, b"menus", name)) && told::put(rt, b"menus", listing)
}

// Tells of a listing that isn't printed, and of how many levels would be; none are named where none would.
pub fn refuse(rt: &impl Console, name: &[u8], block: u16, levels: Option<u8>) {
    told::begin(rt, b"menus");
    told::say(rt, name);
    told::say_count(rt, b": the listing of menu ", block as u64);
    told::say(rt, b" is longer than 1 MB and isn't printed");
    if let Some(levels) = levels {
        told::say_count(rt, b"; -l ", levels as u64);
        told::say(rt, b" fits");
    }
    told::say(rt, b"\n");
}

// Notes that the asked number didn't come, and the first that did; a count past those says that there are more.
pub fn note(rt: &impl Console, name: &[u8], block: u16, count: usize, first: &[u16]) {
    told::say(rt, b"note: ");
    told::say(rt, name);
    told::say_count(rt, b": menu ", block as u64);
    told::say(rt, b" is missing; ");
    if count == 0 {
        told::say(rt, b"none came\n");
        return;
    }
    told::say(rt, b"came:");
    for number in first.iter().take(count) {
        told::say_count(rt, b" ", u64::from(*number));
    }
    if first.len() < count {
        told::say(rt, b" ..");
    }
    told::say(rt, b"\n");
}

// How many numbers were left out of the menus kept, where some were.
pub fn say_left(rt: &impl Console, name: &[u8], is_titled: bool, left: u64) {
    if left == 0 {
        return;
    }
    if is_titled {
        told::say(rt, b"file=");
        told::say(rt, name);
        told::say(rt, b"\n");
    }
    told::say_count(rt, b"left=", left);
    told::say(rt, b"\n");
}
