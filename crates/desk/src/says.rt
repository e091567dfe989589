// What the desk writes: the lines around a list. The first write that standard output doesn't take is told, and the caller stops.
use captures::Course;
use sight::lack;
use told::Console;

// The last line of a list (SCOPE 13.5).
pub fn put_last(rt: &impl Console, accepted: u64, refused: u64, short: u64) -> bool {
    told::put_count(rt, b"desk", b"blocks=", accepted)
        && told::put_count(rt, b"desk", b" refused=", refused)
        && told::put_count(rt, b"desk", b" short=", short)
        && told::put(rt, b"desk", b"\n")
}

// The line of counts (SCOPE 13.10).
pub fn put_counts(
    rt: &impl Console,
    packets: u64,
    ours: u64,
    unreadable: u64,
    dropped: u64,
) -> bool {
    told::put_count(rt, b"desk", b"packets=", packets)
        && told::put_count(rt, b"desk", b" ours=", ours)
        && told::put_count(rt, b"desk", b" unreadable=", unreadable)
        && told::put_count(rt, b"desk", b" dropped=", dropped)
        && told::put(rt, b"desk", b"\n")
}

// Where bytes came and no packet 0 of our page, a line says so, and what they may be. It begins `desk: `: a night that is empty by mistake
// is a failure (SCOPE 13.9).
pub fn lacking(rt: &impl Console, name: &[u8], course: Course, pages: &[u16], is_short: bool) {
    if !lack::is_lacking(course.sight) {
        return;
    }
    told::begin(rt, b"desk");
    told::say(rt, name);
    lack::say(rt, course.setting, course.sight, pages, is_short);
    told::say(rt, b"\n");
}
