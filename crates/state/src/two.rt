// The state of a reader of two streams: what it keeps between packets, and when that is in range (SCOPE 27.2).
ghost use Rattle.std.specs.Prelude.{◌≡◌, true};
ghost use Rattle.pages.specs.Two.{page_for};
ghost use Rattle.state.specs.State.{reader_in_range, Sixteen};
ghost use Rattle.state.specs.Two.{fresh_of_two, readers_of, readers_in_range};

use crate::STORE;
use pages::two::{SharedPage, Whose};
use walk::Run;

// What is one stream's own: its last index, its running block, and whether that has lived through a packet 0 that opened
// a page of its stream.
#[derive(Clone, Copy)]
pub struct Half {
    pub index: u8,
    pub run: Run,
    pub joined: bool,
}

// What a reader of two streams keeps between packets: the open page, which the two share, and for each stream what is its
// own and a store for the bytes of its running block. First and second are by the setting's order.
#[derive(Clone, Copy)]
pub struct Readers {
    pub page: SharedPage,
    pub first: Half,
    pub second: Half,
    pub store1: [u8; STORE],
    pub store2: [u8; STORE],
}

// A fresh reader of two streams: no page of theirs is open, and nothing runs.
pub fn fresh() -> Readers
    ensures { result ≡ readers_of fresh_of_two }
{
    let none = Half {
        index: 15,
        run: Run::Idle,
        joined: false,
    };
    Readers {
        page: SharedPage::None,
        first: none,
        second: none,
        store1: [0u8; STORE],
        store2: [0u8; STORE],
    }
}

// Whether a state of two is in range, its stores so long as they are lent: for each stream it is what a reader of that
// stream alone may keep.
#[tactic(auto, unfolding(crate::specs::Two::readers_in_range))]
pub fn in_range(page: SharedPage, first: Half, second: Half, store1: &[u8], store2: &[u8]) -> bool
    ensures value { result ≡ readers_in_range (record { page = page; first = first; second = second; store1 = store1.now; store2 = store2.now }) }
    ensures sixteen { result ≡ true → Sixteen first.run × Sixteen second.run }
{
    is_fit(page, Whose::First, first, store1) && is_fit(page, Whose::Second, second, store2)
}

// Whether one stream's part is what a reader of that stream alone may keep.
fn is_fit(page: SharedPage, whose: Whose, half: Half, store: &[u8]) -> bool
    ensures value { result ≡ reader_in_range (record { page = page_for whose page; index = half.index; run = half.run; joined = half.joined; store = store.now }) }
    ensures sixteen { result ≡ true → Sixteen half.run }
{
    let own = pages::two::page_of(page, whose);
    let run = half.run;
    crate::in_range(own, half.index, run, half.joined, store)
}
