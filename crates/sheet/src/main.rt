// The day sheet, a file with an entry for each table: captures' tables are added to it, other sheets are joined to it, it is looked
// at (SCOPE 20.11), two are held side by side (SCOPE 28.7), or one is moved between its forms (SCOPE 30.8). What it says is settled by the rooms `day_sheet`, `sheet_joins`, `sheet_moves`, `changes` and `words`; here are the tasks.
//
// The file is replaced whole or not at all (`sheet_file`). Whatever fails before that leaves the file as it was. Where another has taken its place meanwhile, the work is done
// anew on that: captures aren't read again, since their tables are kept.
//
// A line on standard error that tells of a failure begins `sheet: `. Words that the program is called with are heard twice: first all
// are judged, then the files are opened.
#![tactic(auto)]

mod capture;
mod comparing;
mod files;
mod help;
mod kept;
mod lines;
mod moving;
mod says;
mod standing;
mod work;

use capture::Source;
use files::SHEET;
use kept::KEPT;
use packet::two::Streams;
use sheet_file::paths::Way;
use sheet_file::placing::Placed;
use sheet_file::{Stand, paths, placing};
use std::env::Env;
use std::random::RandomSource;
use std::rt::Files;
use told::Console;
use words::Said;
use words::numbers::{MOST, NO_NUMBER};
use work::Work;

// The options, five numbers each: letter, form, least, greatest and usual value (words::options).
const OPTIONS: [u32; 20] = [
    109, // m, the magazine
    1, 1, 8, 1, 112, // p, the page: two hex digits
    2, 0, 255, 0xDF, 115, // s, the stream, or two
    3, 0, 15, 1, 97, // a, the application
    1, 0, 31, 1,
];

// The rows (SCOPE 20.12, 20.13). A name is `f` the sheet, `s` a stamp, `c` a capture, `o` another sheet, or `k`, `n` and `b` an entry's kind, network and block.
const TASKS: [u8; 71] =
    *b"add mpsa f+sc\njoin  f+o\ndrop  fknb\ncheck  +f\ncompare  fo\nup  f\ndown  f\n";

// The tasks that change a sheet.
#[derive(Clone, Copy, PartialEq, Eq)]
enum Task {
    Add,
    Join,
    Drop,
    Up,
    Down,
}

// Whether the call that does a task judges the sheet; what is printed is then the line of `check`.
fn is_judging(task: Task) -> bool {
    matches!(task, Task::Drop | Task::Up | Task::Down)
}

// How often the work is done at most: once, and sixteen times anew where the sheet has changed meanwhile.
const TURNS: usize = 17;

// What is to be done: the task, and the setting in which captures are read.
#[derive(Clone, Copy)]
struct Job {
    task: Task,
    setting: Streams,
}

// Where the second hearing stands: the words so far, the last stamp, kind and network, and what was done.
#[derive(Drop)]
struct Visited {
    said: Said,
    stamp: u32,
    kind: u8,
    network: u8,
    work: Work,
}

fn main(rt: HostRuntime) {
    if command_line::is_first(&rt, b"--help") {
        help::put(&rt);
        return;
    }
    if command_line::is_first(&rt, b"--version") {
        told::put_version(&rt, &help::PROGRAM);
        return;
    }
    let said = command_line::hear_all(&rt, &OPTIONS, &TASKS);
    if !words::is_good(&TASKS, said) {
        if !tell_stamp(&rt) {
            says::usage(&rt);
        }
        return;
    }
    if words::is_task(&TASKS, said, b"check") {
        check_all(&rt);
        return;
    }
    if words::is_task(&TASKS, said, b"compare") {
        compare(&rt);
        return;
    }
    change(
        &rt,
        Job {
            task: task_of(said),
            setting: command_line::setting(&OPTIONS, said),
        },
    );
}

fn task_of(said: Said) -> Task {
    if words::is_task(&TASKS, said, b"add") {
        Task::Add
    } else if words::is_task(&TASKS, said, b"join") {
        Task::Join
    } else if words::is_task(&TASKS, said, b"up") {
        Task::Up
    } else if words::is_task(&TASKS, said, b"down") {
        Task::Down
    } else {
        Task::Drop
    }
}

// Tells of the first word that has to be a stamp and isn't. Answers whether there is one.
fn tell_stamp(rt: &(impl Env + Console)) -> bool {
    let mut word = io::buffer();
    let mut said = words::start(&TASKS);
    for i in 1..told::argument_count(rt) {
        let heard = command_line::hear(rt, &OPTIONS, &TASKS, said, i, &mut word);
        if is_bad_stamp(rt, heard.place, heard.long, &mut word) {
            return true;
        }
        said = heard.said;
    }
    false
}

fn is_bad_stamp(rt: &impl Console, place: u8, n: usize, word: &mut [u8; 4096]) -> bool {
    if place != b's' || words::number_of(told::front(word, n)) <= MOST {
        return false;
    }
    told::plain(word);
    says::bad_stamp(rt, told::front(word, n));
    true
}

// Adds captures to a sheet, or joins sheets to it, all of them or none; drops an entry of it; or moves it. A link leads to the sheet's own place.
fn change(rt: &(impl Env + Files + Alloc + RandomSource + Console), job: Job) {
    let named = word_of(rt, b'f');
    let mut shown = io::buffer();
    let m = told::argument(rt, named, &mut shown);
    told::plain(&mut shown);
    let shown = told::front(&shown, m);
    let mut path = io::buffer();
    let n = told::argument(rt, named, &mut path);
    let Some(way) = way_of(rt, &mut path, n, shown) else {
        return;
    };
    let path = told::front(&path, way.length);
    if !paths::has_room(path) {
        says::tell(
            rt,
            shown,
            b"its name is too long for a temporary file beside it, and it stays as it was",
        );
        return;
    }
    change_at(rt, job, way.linked, path, shown);
}

// Which word is the first name at a place.
fn word_of(rt: &impl Env, place: u8) -> usize {
    let mut word = io::buffer();
    let count = told::argument_count(rt);
    let mut said = words::start(&TASKS);
    for i in 1..count {
        let heard = command_line::hear(rt, &OPTIONS, &TASKS, said, i, &mut word);
        if heard.place == place {
            return i;
        }
        said = heard.said;
    }
    count.max(1)
}

// Where a name leads to; where it leads nowhere, that is told.
fn way_of(
    rt: &(impl Files + Alloc + Console),
    path: &mut [u8],
    n: usize,
    shown: &[u8],
) -> Option<Way> {
    match paths::follow(rt, path, n) {
        Ok(Some(way)) => Some(way),
        Ok(None) => {
            says::tell(
                rt,
                shown,
                b"it leads through more than 40 links, and stays as it was",
            );
            None
        }
        Err(why) => {
            says::fail(
                rt,
                shown,
                b"it leads through a link that can't be followed, and stays as it was",
                why,
            );
            None
        }
    }
}

// Reads the sheet at its path and judges it. Where tables are added, one that is missing is empty, but for one that a link names.
fn change_at(
    rt: &(impl Env + Files + RandomSource + Console),
    job: Job,
    is_linked: bool,
    path: &[u8],
    shown: &[u8],
) {
    let mut base = [0u8; SHEET];
    let mut spare = [0u8; SHEET];
    let Some(stand) = sheet_file::read(rt, path, shown, &mut base) else {
        return;
    };
    if let Err(why) = stand.mode {
        if is_linked {
            says::fail(
                rt,
                shown,
                b"it is a link that names no file, and stays as it was",
                why,
            );
            return;
        }
        if job.task != Task::Add {
            says::fail(rt, shown, b"it can't be opened, and stays as it was", why);
            return;
        }
    }
    if !is_fit(rt, job, shown, told::front(&base, stand.length), &mut spare) {
        return;
    }
    change_all(rt, job, stand, path, shown, &mut base, &mut spare);
}

// Whether a sheet is one to begin with. Where an entry is dropped, the call that drops it judges that, since one entry too many may be the one; and so does the call
// that moves a sheet, which may have the old form.
fn is_fit(rt: &impl Console, job: Job, shown: &[u8], sheet: &[u8], spare: &mut [u8]) -> bool {
    is_judging(job.task) || files::is_judged(rt, shown, sheet, spare)
}

// The work, and the work anew as long as the sheet has changed meanwhile.
fn change_all(
    rt: &(impl Env + Files + RandomSource + Console),
    job: Job,
    mut stand: Stand,
    path: &[u8],
    shown: &[u8],
    base: &mut [u8; SHEET],
    spare: &mut [u8; SHEET],
) {
    let mut sheet = [0u8; SHEET];
    let mut again = [0u8; SHEET];
    let mut kept = [0u8; KEPT];
    let mut work = visit_all(rt, job, stand, shown, base, &mut sheet, spare, &mut kept);
    for _ in 0..TURNS {
        if is_idle(rt, job, work) {
            return;
        }
        match put(rt, stand, work, path, shown, base, &sheet, &mut again) {
            Placed::Renamed => {
                finish(rt, job, work, shown);
                return;
            }
            Placed::Failed => return,
            Placed::Changed(now) => stand = now,
        }
        work = redo(
            rt, job, stand, work, shown, &again, base, &mut sheet, spare, &mut kept,
        );
    }
    give_up(rt, work, shown);
}

fn give_up(rt: &impl Console, work: Work, shown: &[u8]) {
    if work.sound {
        says::tell(
            rt,
            shown,
            b"it changed sixteen times meanwhile, and stays as it is",
        );
    }
}

// Whether nothing is to be put in the sheet's place: something failed, or no table came. Then the line is all.
fn is_idle(rt: &impl Console, job: Job, work: Work) -> bool {
    if !work.sound {
        return true;
    }
    if job.task != Task::Add || work.tables > 0 {
        return false;
    }
    says::put_work(rt, work, false);
    true
}

fn put(
    rt: &(impl Files + RandomSource + Console),
    stand: Stand,
    work: Work,
    path: &[u8],
    shown: &[u8],
    base: &[u8; SHEET],
    sheet: &[u8; SHEET],
    again: &mut [u8; SHEET],
) -> Placed {
    let sheet = told::front(sheet, work.length);
    placing::put(rt, stand, path, shown, base, sheet, again)
}

// Prints the line where the new sheet stands.
fn finish(rt: &impl Console, job: Job, work: Work, shown: &[u8]) {
    if is_judging(job.task) {
        says::put_left(rt, shown, work);
    } else {
        says::put_work(rt, work, true);
    }
}

// Does the work anew on what stands in the sheet's place now.
fn redo(
    rt: &(impl Env + Files + Console),
    job: Job,
    stand: Stand,
    work: Work,
    shown: &[u8],
    again: &[u8; SHEET],
    base: &mut [u8; SHEET],
    sheet: &mut [u8; SHEET],
    spare: &mut [u8; SHEET],
    kept: &mut [u8; KEPT],
) -> Work {
    lent_bytes::copy(again, 0, SHEET, base, 0);
    if !is_fit(rt, job, shown, told::front(again, stand.length), spare) {
        return work::broken(work);
    }
    if job.task != Task::Add {
        return visit_all(rt, job, stand, shown, base, sheet, spare, kept);
    }
    if !work.whole {
        says::tell(
            rt,
            shown,
            b"it changed meanwhile, and what came is too much to be added anew; it stays as it is",
        );
        return work::broken(work);
    }
    lent_bytes::copy(again, 0, SHEET, sheet, 0);
    let entries = texts::entries(told::front(again, stand.length)) as u64;
    capture::add_again(
        rt,
        work::anew(work, stand.length, entries),
        sheet,
        spare,
        kept,
    )
}

// Hears the words again, and does what each is for, beginning with the sheet that stands.
fn visit_all(
    rt: &(impl Env + Files + Console),
    job: Job,
    stand: Stand,
    shown: &[u8],
    base: &[u8; SHEET],
    sheet: &mut [u8; SHEET],
    spare: &mut [u8; SHEET],
    kept: &mut [u8; KEPT],
) -> Work {
    lent_bytes::copy(base, 0, SHEET, sheet, 0);
    let mut visited = Visited {
        said: words::start(&TASKS),
        stamp: 0,
        kind: 0,
        network: 0,
        work: start(stand, base),
    };
    for i in 1..told::argument_count(rt) {
        visited = visit(rt, visited, i, job, shown, sheet, spare, kept);
    }
    visited.work
}

fn start(stand: Stand, base: &[u8; SHEET]) -> Work {
    let base = told::front(base, stand.length);
    work::start(stand.length, texts::entries(base) as u64)
}

// Hears a word again, and does what it is for, unless something failed before.
fn visit(
    rt: &(impl Env + Files + Console),
    visited: Visited,
    i: usize,
    job: Job,
    shown: &[u8],
    sheet: &mut [u8; SHEET],
    spare: &mut [u8; SHEET],
    kept: &mut [u8; KEPT],
) -> Visited {
    let mut word = io::buffer();
    let heard = command_line::hear(rt, &OPTIONS, &TASKS, visited.said, i, &mut word);
    let n = heard.long;
    let place = heard.place;
    let said = heard.said;
    let mut visited = note(visited, said, place, &word, n);
    let work = visited.work;
    match place {
        b'b' => {
            let block = block_of(&word, n);
            let network = visited.network;
            visited.work = files::drop(rt, shown, network, visited.kind, block, work, sheet, spare);
            visited
        }
        b'c' => {
            let source = Source {
                stamp: visited.stamp,
                word: i,
            };
            visited.work = capture::open(
                rt,
                &mut word,
                n,
                source,
                job.setting,
                work,
                sheet,
                spare,
                kept,
            );
            visited
        }
        b'o' => {
            visited.work = files::open_other(rt, &mut word, n, work, sheet, spare);
            visited
        }
        b'f' => {
            visited.work = move_sheet(rt, job.task, shown, work, sheet, spare);
            visited
        }
        _ => visited,
    }
}

// The sheet itself is heard: it is moved, where that is the task.
fn move_sheet(
    rt: &impl Console,
    task: Task,
    shown: &[u8],
    work: Work,
    sheet: &mut [u8; SHEET],
    spare: &mut [u8; SHEET],
) -> Work {
    match task {
        Task::Up => moving::up(rt, shown, work, sheet, spare),
        Task::Down => moving::down(rt, shown, work, sheet, spare),
        _ => work,
    }
}

// Notes what a word says; the words were judged before.
fn note(mut visited: Visited, said: Said, place: u8, word: &[u8; 4096], n: usize) -> Visited {
    let word = told::front(word, n);
    visited.said = said;
    match place {
        b's' => {
            visited.stamp = (words::number_of(word) % NO_NUMBER) as u32;
            visited
        }
        b'k' => {
            visited.kind = words::kind_of(word);
            visited
        }
        b'n' => {
            visited.network = (words::number_of(word) % 256) as u8;
            visited
        }
        _ => visited,
    }
}

fn block_of(word: &[u8; 4096], n: usize) -> u16 {
    (words::number_of(told::front(word, n)) % 65536) as u16
}

// Looks at each sheet that is named, and goes on after one that is refused.
fn check_all(rt: &(impl Env + Files + Console)) {
    let mut word = io::buffer();
    let mut said = words::start(&TASKS);
    let mut is_sound = true;
    for i in 1..told::argument_count(rt) {
        let heard = command_line::hear(rt, &OPTIONS, &TASKS, said, i, &mut word);
        said = heard.said;
        is_sound = is_sound && check(rt, heard.place, heard.long, &mut word);
    }
}

// Answers whether standard output still takes what is written.
fn check(rt: &(impl Files + Console), place: u8, n: usize, word: &mut [u8; 4096]) -> bool {
    place != b'f' || files::check(rt, word, n)
}

// Holds two sheets side by side.
fn compare(rt: &(impl Env + Files + Console)) {
    let mut name = io::buffer();
    let n = told::argument(rt, word_of(rt, b'f'), &mut name);
    let mut other = io::buffer();
    let m = told::argument(rt, word_of(rt, b'o'), &mut other);
    comparing::compare(rt, &mut name, n, &mut other, m);
}
