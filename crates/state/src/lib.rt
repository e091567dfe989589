// The reader's state: what it keeps between packets, and when that is in range (SCOPE 10). Whether the running block
// spans pages is module `joined`, the state of two streams module `two`.
#![tactic(auto)]

pub mod joined;
pub mod two;

ghost use Rattle.std.specs.Prelude.{◌≡◌, true, drop};
ghost use Rattle.laws.specs.Pick.{both};
ghost use Rattle.walk.specs.declared.Run.TheVariants.{Head};
ghost use Rattle.state.specs.State.{zeros, page_in_range, run_in_range, joined_in_range, held_by, reader_in_range, reader_of, fresh_state, Sixteen};

use pages::Page;
use walk::Run;

// A block's start and the four bytes of its header: so many bytes can count in its part.
const LEAD: u8 = 5;

// As many bytes as a block can have.
pub const STORE: usize = 2047;

// What a reader keeps between packets: the page of ours that is open, our last index, the running block, and whether
// that has lived through a packet 0 that opened a page of ours. Every byte of the store past those held is zero.
#[derive(Clone, Copy)]
pub struct Reader {
    pub page: Page,
    pub index: u8,
    pub run: Run,
    pub joined: bool,
    pub store: [u8; STORE],
}

// A fresh reader: no page of ours is open, and nothing runs.
pub fn fresh() -> Reader
    ensures { result ≡ reader_of fresh_state }
{
    Reader {
        page: Page::Shut,
        index: 15,
        run: Run::Idle,
        joined: false,
        store: [0u8; STORE],
    }
}

// Whether a state is in range, its store so long as it is lent.
#[tactic(auto, unfolding(crate::specs::State::reader_in_range))]
pub fn in_range(page: Page, index: u8, run: Run, joined: bool, store: &[u8]) -> bool
    ensures value { result ≡ reader_in_range (record { page = page; index = index; run = run; joined = joined; store = store.now }) }
    ensures sixteen { result ≡ true → Sixteen run }
{
    is_page(page) && index <= 15 && is_run(run, joined, store)
}

// Whether the running block is in range, and the store clear past its bytes.
fn is_run(run: Run, joined: bool, store: &[u8]) -> bool
    ensures value { result ≡ both (run_in_range run) (both (joined_in_range joined run) (zeros (drop (held_by run) store.now))) }
    ensures sixteen { result ≡ true → Sixteen run }
{
    match run {
        Run::Idle => !joined && is_clear(store, 0),
        Run::Head { got, bits, part } => is_head(got, bits, part) && is_clear(store, 0),
        Run::Body { head, part, held } => {
            part <= LEAD && held <= (head / 32) as usize && is_clear(store, held)
        }
    }
}

// Whether an open page is in range.
fn is_page(page: Page) -> bool
    ensures { result ≡ page_in_range page }
{
    match page {
        Page::Shut => true,
        Page::Open { n, last } => n <= 25 && last <= n,
    }
}

// Whether the bits of a header are those of the nibbles got and no others, and the part counts no more
// bytes than those and the start.
fn is_head(got: u8, bits: u16, part: u8) -> bool
    ensures { result ≡ run_in_range (Head got bits part) }
{
    got <= 3
        && part <= got + 1
        && match got {
            3 => bits % 16 == 0,
            2 => bits % 256 == 0,
            1 => bits % 4096 == 0,
            _ => bits == 0,
        }
}

// Whether every byte of the store from `from` on is zero: all of them or-ed are, so that no byte ends the loop.
fn is_clear(store: &[u8], from: usize) -> bool
    ensures { result ≡ zeros (drop from store.now) }
{
    let mut mix: u8 = 0;
    for i in from..store.len() {
        mix |= store[i];
    }
    mix == 0
}
