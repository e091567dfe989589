// What `lawful` writes and says. The first write that standard output doesn't take is told, and the caller stops. A line on standard error
// that tells of a failure begins `lawful: `.
use crate::kept::KINDS;
use told::Console;

// A verdict and how many blocks count of each kind, under a line with the file's name where that is asked for.
pub fn put_verdict(
    rt: &impl Console,
    name: &[u8],
    is_titled: bool,
    verdict: &[u8],
    numbers: &[u64; KINDS],
) -> bool {
    (!is_titled || told::put_title(rt, b"lawful", name))
        && told::put(rt, b"lawful", verdict)
        && put_numbers(rt, numbers)
}

fn put_numbers(rt: &impl Console, numbers: &[u64; KINDS]) -> bool {
    told::put_count(rt, b"lawful", b"AI=", numbers[0])
        && told::put_count(rt, b"lawful", b" MI=", numbers[1])
        && told::put_count(rt, b"lawful", b" UI=", numbers[2])
        && told::put_count(rt, b"lawful", b" LI=", numbers[3])
        && told::put_count(rt, b"lawful", b" TI=", numbers[4])
        && told::put(rt, b"lawful", b"\n")
}

// The place of a rule's name in the text of a no, and where it ends.
const RULE: usize = 25;

const RULE_END: usize = 27;

// Tells of a no, which is a failure. A text with no rule in it is a yes.
pub fn tell_no(rt: &impl Console, name: &[u8], verdict: &[u8]) {
    if verdict.len() < RULE_END {
        return;
    }
    told::begin(rt, b"lawful");
    told::say(rt, name);
    told::say(rt, b": not lawful, by rule ");
    told::say(rt, &verdict[RULE..RULE_END]);
    told::say(rt, b"\n");
}

// Tells that there is no verdict. Only 24 comes: the application is one of ours and the records are whole.
pub fn tell_none(rt: &impl Console, name: &[u8], no: u8) {
    told::begin(rt, b"lawful");
    told::say(rt, name);
    if no == 24 {
        told::say(
            rt,
            b": no Application Information came that counts, so there is no verdict; ./loader desk tells what the capture holds\n",
        );
        return;
    }
    told::say_count(rt, b": there is no verdict, by number ", no as u64);
    told::say(rt, b"\n");
}

// Tells that more blocks came than are kept.
pub fn tell_full(rt: &impl Console, name: &[u8]) {
    told::begin(rt, b"lawful");
    told::say(rt, name);
    told::say(
        rt,
        b": more blocks came than fit into 2 MB, so there is no verdict\n",
    );
}
