// Fields of some bits each, out of protected bytes (SCOPE 12.1, 12.11) and, by the pen, into them. The definitions are in specs/,
// and the laws that other crates cite in proofs/Laid.antt and proofs/Inking.antt.
#![tactic(auto)]

pub mod pen;

ghost use Rattle.std.specs.Prelude.{◌≡◌, map, ◌+◌, ◌-◌, ◌/◌, ◌%◌, ◌^◌, ◌≤◌, ◌<◌, min, length, get_or};
ghost use Rattle.octet.specs.Decoding.{nib};
ghost use Rattle.fields.specs.Fields.{field};
ghost use Rattle.fields.specs.Compound.{compound};
ghost use Rattle.fields.specs.Opening.{narrowed, opening_in};

// The widest field, a language or a page.
const WIDEST: usize = 24;

// The bit reader: the lent bytes with the place that is read next.
#[derive(Clone, Copy)]
struct BitReader<'a> {
    pub src: &'a [u8],
    pub at: usize,
}

impl<'a> BitReader<'a> {
    // A reader of these bytes that stands at this place.
    fn new(src: &'a [u8], at: usize) -> BitReader<'a>
        ensures from { result.src ≡ src.entry }
        ensures place { result.at ≡ at }
    {
        BitReader { src, at }
    }

    // The w bits from the reader's place on, of which at most 24 are taken; it stands behind all w then.
    fn take(&mut self, w: usize) -> usize
        ensures value { result ≡ field self.old.at (min w 24) (compound self.old.src.now) }
        ensures bound { result < 2 ^ min w 24 }
        ensures from { self.new.src ≡ self.old.src }
        ensures place { self.new.at ≡ min (self.old.at + w) (2 ^ 64 - 1) }
    {
        let taken = field_at(self.src, self.at, w);
        self.at = further(self.at, w);
        taken
    }
}

// The fields of tables 15 and 17 up to the loops.
#[derive(Clone, Copy)]
pub struct Opening {
    pub checksum: u8,
    pub control: u16,
    pub kind: u8,
    pub access: u8,
    pub copyright: u8,
    pub block: u16,
    pub network: u8,
    pub count: u8,
}

// Their widths in bits, in the order in which they stand.
const CHECKSUM: usize = 8;

const CONTROL: usize = 10;

const KIND: usize = 6;

const ACCESS: usize = 2;

const COPYRIGHT: usize = 1;

const RESERVED: usize = 1;

const BLOCK: usize = 16;

const NETWORK: usize = 8;

const COUNT: usize = 6;

// What lent bytes open with, by one reader that moves from field to field.
pub fn opening_of(src: &[u8]) -> Opening
    ensures { result ≡ opening_in (compound src.now) }
{
    let mut r = BitReader::new(src, 0);
    let checksum = r.take(CHECKSUM);
    let control = r.take(CONTROL);
    let kind = r.take(KIND);
    let access = r.take(ACCESS);
    let copyright = r.take(COPYRIGHT);
    let _reserved = r.take(RESERVED);
    let block = r.take(BLOCK);
    let network = r.take(NETWORK);
    let count = r.take(COUNT);
    Opening {
        checksum: (checksum % 256) as u8,
        control: (control % 65536) as u16,
        kind: (kind % 256) as u8,
        access: (access % 256) as u8,
        copyright: (copyright % 256) as u8,
        block: (block % 65536) as u16,
        network: (network % 256) as u8,
        count: (count % 256) as u8,
    }
}

// The w bits of lent bytes from the place `at` on, by a reader that stands there.
pub fn field_of(src: &[u8], at: usize, w: usize) -> usize
    ensures { (result ≡ field at (min w 24) (compound src.now)) × (result < 2 ^ min w 24) }
{
    BitReader::new(src, at).take(w)
}

// The place w bits further on; the last one where there is none so far.
pub(crate) fn further(at: usize, w: usize) -> usize
    ensures { result ≡ min (at + w) (2 ^ 64 - 1) }
{
    at.saturating_add(w)
}

// The w bits from the place `at` on; at most 24 are taken. A word is taken at once where its nibbles are there.
fn field_at(s: &[u8], at: usize, w: usize) -> usize
    ensures { (result ≡ field at (min w 24) (compound s.now)) × (result < 2 ^ min w 24) }
{
    if w == WIDEST && at / 4 + 7 <= s.len() {
        word_at(s, at)
    } else {
        some_at(s, at, w)
    }
}

// The 24 bits from the place `at` on: seven nibbles hold them wherever in the first they begin, so that the compiler knows how many.
fn word_at(s: &[u8], at: usize) -> usize
    requires { at / 4 + 7 ≤ length s.now }
    ensures { (result ≡ field at 24 (compound s.now)) × (result < 2 ^ 24) }
{
    let first = at / 4;
    let end = first + 7;
    let mut n: usize = 0;
    for i in (first..end).rev() {
        n = n * 16 + nibble_in(s, i);
    }
    (n >> (at % 4)) % (1 << WIDEST)
}

// The same, nibble by nibble.
fn some_at(s: &[u8], at: usize, w: usize) -> usize
    ensures { (result ≡ field at (min w 24) (compound s.now)) × (result < 2 ^ min w 24) }
{
    let wide = w.min(WIDEST);
    let first = at / 4;
    let end = first + (at % 4 + wide + 3) / 4;
    let mut n: usize = 0;
    for i in (first..end).rev() {
        n = n * 16 + nibble_at(s, i);
    }
    (n >> (at % 4)) % (1 << wide)
}

// The nibble i of the control data; 0 past its end.
fn nibble_at(s: &[u8], i: usize) -> usize
    ensures { result ≡ get_or (map nib s.now) i 0 % 16 }
{
    if i < s.len() { nibble_in(s, i) } else { 0 }
}

// The nibble i, which is there.
fn nibble_in(s: &[u8], i: usize) -> usize
    requires { i < length s.now }
    ensures { result ≡ get_or (map nib s.now) i 0 % 16 }
{
    (octet::quick::decode(s[i]) % 16) as usize
}
