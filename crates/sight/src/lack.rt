// What is said of a capture of which no packet 0 of our page came: that, and what it may be (SCOPE 13.9).
ghost use Rattle.std.specs.Prelude.{◌≡◌};
ghost use Rattle.sight.specs.Sights.{is_lacking};

use crate::Sight;
use packet::two::Streams;
use survey::seen::NO_PAGE;
use told::Console;

// Whether bytes came and no packet 0 of our page.
pub fn is_lacking(sight: Sight) -> bool
    ensures { result ≡ is_lacking sight }
{
    sight.any && !sight.counts.came
}

// Goes on behind a name in a line on standard error: what didn't come, and what the bytes may be.
pub fn say(rt: &impl Console, setting: Streams, sight: Sight, pages: &[u16], is_short: bool) {
    told::say_count(rt, b": no packet 0 of magazine ", setting.magazine as u64);
    told::say(rt, b", page ");
    told::say_hex(rt, setting.page as u64, 2);
    told::say_count(rt, b", stream ", setting.first as u64);
    if setting.first != setting.second {
        told::say_count(rt, b" or ", setting.second as u64);
    }
    told::say(rt, b" came");
    guess(rt, sight, pages, is_short);
}

// What the bytes may be: the surest first.
fn guess(rt: &impl Console, sight: Sight, pages: &[u16], is_short: bool) {
    if sight.pes {
        told::say(
            rt,
            b"; it begins with 00 00 01 BD and may be a PES file: unpes reads those",
        );
        return;
    }
    if let Some(place) = sight.plain {
        told::say(rt, b"; its packets may be out of step: they fit");
        say_place(rt, place);
        return;
    }
    if let Some(place) = sight.turned {
        told::say(rt, b"; its bits may be turned about: turned bytes fit");
        say_place(rt, place);
        return;
    }
    guess_pages(rt, pages);
    if is_short {
        told::say(
            rt,
            b"; its packets may be out of step: its length isn't a multiple of 42",
        );
    }
}

// From which byte on packets fit, unless it is the first.
fn say_place(rt: &impl Console, place: usize) {
    if place > 0 {
        told::say_count(rt, b" from byte ", place as u64);
        told::say(rt, b" on");
    }
}

// Our own page stands twice in front of the others: once for each stream.
const OTHERS: usize = 2;

// The pages that came, behind our own.
fn guess_pages(rt: &impl Console, pages: &[u16]) {
    if pages.len() <= OTHERS || pages[OTHERS] == NO_PAGE {
        told::say(rt, b"; nor did one of another page");
        return;
    }
    told::say(rt, b"; it may be another magazine, page or stream: seen");
    for code in &pages[OTHERS..] {
        if *code != NO_PAGE {
            say_page(rt, *code);
        }
    }
}

// A page that came, as survey::note has it: magazine, page and stream, as in 1df/2.
fn say_page(rt: &impl Console, code: u16) {
    told::say_count(rt, b" ", magazine(code / 4096) as u64);
    told::say_hex(rt, (code / 16 % 256) as u64, 2);
    told::say_count(rt, b"/", (code % 16) as u64);
}

// Magazine 8 is sent as 0.
fn magazine(number: u16) -> u16 {
    if number == 0 { 8 } else { number }
}
