// Menus as text: one menu of a list of records or of a shelf, and those that its links lead to (SCOPE 23.8, 23.9).
#![tactic(auto)]

mod finding;
mod lines;

ghost use Rattle.std.specs.Prelude.{◌≡◌, [], suc, ◌+◌, ◌-◌, ◌<◌, ◌≤◌, drop};
ghost use Rattle.answer.specs.Writing.{answered, left};
ghost use Rattle.menu_listing.specs.Listing.{are_levels, listing, full_listing, levels_rules, list_rules, lines_of};
ghost use Rattle.menu_listing.specs.Kept.{kept_listing, kept_rules};
ghost use Rattle.menu_listing.specs.Internal.{Penned, menus_from, event_lines_at, room_most, beyond, place_most};

use answer::{Answer, Reason};

// The greatest number of levels.
const LEVELS: u8 = 8;

// The longest form of a menu: no longer than its block.
pub(crate) const FORM: usize = 2047;

// The type of a link to another menu.
const TO_MENU: usize = 1;

// Where the menus are: in a list of records, of which an application's are read, or on a shelf.
#[derive(Clone, Copy)]
pub(crate) enum Source {
    Records(u8),
    Shelf,
}

// The menu with this number and those that its links lead to, down to so many levels, as text, to the front of `out`. The text is measured
// before any of it is written, by a walk that ends as soon as it is past the room: a list of 176 bytes can stand for 93 GB. So the time is at
// most that of the room times the list: each menu that the walk comes to prints a line, and is looked up in the list once; a record with
// another number isn't read.
pub fn list_levels(
    application: u8,
    number: u16,
    levels: u8,
    records: &[u8],
    out: &mut [u8],
) -> Answer
    ensures answer { result
        ≡ answered (levels_rules application levels records.now) (listing application number levels records.now)
        out.old }
    ensures output { out.new
        ≡ left (levels_rules application levels records.now) (listing application number levels records.now)
        out.old }
{
    if 32 <= application {
        return Reason::Range.refuse(0);
    }
    if !are_levels(levels) {
        return Reason::Range.refuse(0);
    }
    if !finding::is_whole(records) {
        return Reason::Length.refuse(0);
    }
    print(
        Source::Records(application),
        number as usize,
        levels as usize,
        records,
        records,
        out,
    )
}

// The same down to eight levels.
pub fn list_menu(application: u8, number: u16, records: &[u8], out: &mut [u8]) -> Answer
    ensures answer { result ≡ answered (list_rules application records.now) (full_listing application number records.now) out.old }
    ensures output { out.new
        ≡ left (list_rules application records.now) (full_listing application number records.now) out.old }
{
    list_levels(application, number, LEVELS, records, out)
}

// The same of the menus of a shelf; no record is read. The time is that of the room alone: each look goes along one row of the shelf, of at
// most 256 menus where each number is kept once.
pub fn list_kept(number: u16, levels: u8, heads: &[u8], shelf: &[u8], out: &mut [u8]) -> Answer
    ensures answer { result
        ≡ answered (kept_rules levels) (kept_listing number levels heads.now shelf.now) out.old }
    ensures output { out.new
        ≡ left (kept_rules levels) (kept_listing number levels heads.now shelf.now) out.old }
{
    if !are_levels(levels) {
        return Reason::Range.refuse(0);
    }
    print(
        Source::Shelf,
        number as usize,
        levels as usize,
        shelf,
        heads,
        out,
    )
}

// Whether so many levels can be asked for.
fn are_levels(levels: u8) -> bool
    ensures { result ≡ are_levels levels }
{
    (1..=LEVELS).contains(&levels)
}

// The listing, where only the room is left to judge: the walk that measures, and the walk that writes. A list of records has no heads: what
// is handed in for them isn't looked at.
fn print(
    source: Source,
    number: usize,
    levels: usize,
    list: &[u8],
    heads: &[u8],
    out: &mut [u8],
) -> Answer
    requires { (number < 65536) × (1 ≤ levels) }
    ensures answer { result ≡ answered [] (lines_of (menus_from source list.now heads.now) levels levels number) out.old }
    ensures output { out.new ≡ left [] (lines_of (menus_from source list.now heads.now) levels levels number) out.old }
{
    let below = levels - 1;
    let room = out.len();
    let mut scrap = [0u8; 1];
    let need = walk_menu(
        source, number, levels, below, list, heads, room, &mut scrap, 0,
    );
    if room < need {
        return Reason::NoRoom.refuse(0);
    }
    let written = walk_menu(source, number, levels, below, list, heads, room, out, 0);
    Ok(written)
}

// The menu walk: the lines of a menu, with so many levels left below it, and of what its events lead to. Past the room it puts nothing more.
#[cycle(walk_event_walk_menu)]
fn walk_menu(
    source: Source,
    number: usize,
    levels: usize,
    below: usize,
    list: &[u8],
    heads: &[u8],
    room: usize,
    out: &mut [u8],
    q: usize,
) -> usize
    requires { (number < 65536) × (below ≤ levels) × (room < room_most) × (q ≤ room + beyond) }
    ensures { Penned room out.old q (lines_of (menus_from source list.now heads.now) levels (suc below) number) out.new result
        × (result ≤ room + beyond) }
{
    if room < q {
        return q;
    }
    let mut form = [0u8; FORM];
    if !finding::find_form(source, number, list, heads, &mut form) {
        return lines::put_line(b"missing=", number, out, q);
    }
    let level = levels - below;
    let events = lent_bytes::byte_at(&form, 8);
    let mut i = lines::events_place(&form);
    let mut p = lines::put_head(&form, level, number, out, q);
    for _ in 0..events {
        if room < p {
            return p;
        }
        p = walk_event(source, &form, i, levels, below, list, heads, room, out, p);
        i = lines::next_event(&form, i);
    }
    p
}

// The event walk: the lines of the event at the place i of a form, and those of the menu that it leads to.
#[cycle(walk_event_walk_menu)]
fn walk_event(
    source: Source,
    form: &[u8],
    i: usize,
    levels: usize,
    below: usize,
    list: &[u8],
    heads: &[u8],
    room: usize,
    out: &mut [u8],
    q: usize,
) -> usize
    requires { (below ≤ levels) × (i ≤ place_most) × (room < room_most) × (q ≤ room) }
    ensures { Penned room out.old q
        (event_lines_at (lines_of (menus_from source list.now heads.now) levels below) (levels - below) (drop i form.now))
        out.new result
        × (result ≤ room + beyond) }
{
    let p = lines::put_event(form, i, levels - below, out, q);
    if lent_bytes::byte_at(form, i + 2) != TO_MENU {
        return p;
    }
    let link = lines::link_at(form, i);
    if below == 0 {
        return lines::put_line(b"deeper=", link, out, p);
    }
    walk_menu(source, link, levels, below - 1, list, heads, room, out, p)
}
