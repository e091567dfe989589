// A case that a program try_NAME runs, as the bytes that it has read hold it: op (1 byte), room (4 bytes, low byte
// first: how long the lent output is), length (4 bytes, low byte first) and so many bytes, the payload. A room or
// a length over 65,536 is taken as 65,536.
ghost use Rattle.std.specs.Prelude.{◌≡◌, ◌+◌, ◌≤◌, length};
ghost use Rattle.vectors.specs.Cases.{next_in, part};
ghost use Rattle.vectors.specs.Cases.{capped as cases_capped};

// The most bytes of a payload, and of a lent output.
pub const MOST: usize = 65536;

// op, room and length.
pub const HEAD: usize = 9;

// The bytes of the lent space that are read and not yet handed out stand from `from` up to, not
// including, `to`; `ended` is whether no more are to come.
#[derive(Clone, Copy)]
pub struct Input {
    pub from: usize,
    pub to: usize,
    pub ended: bool,
}

// A case: its payload stands in the lent space from `from` up to, not including, `to`; `rest` is what
// is unread after it.
#[derive(Clone, Copy)]
pub struct Case {
    pub op: u8,
    pub room: usize,
    pub from: usize,
    pub to: usize,
    pub rest: Input,
}

// The case that the unread bytes begin with; where no whole one is left, how many bytes are.
pub(crate) fn next(input: Input, space: &[u8]) -> Result<Case, usize>
    ensures { result ≡ next_in space.now input }
{
    let Input { from, to, ended } = input;
    let left = to.saturating_sub(from);
    if left < HEAD || space.len() < to {
        return Err(left);
    }
    let size = capped(space, from + 5);
    if left - HEAD < size {
        return Err(left);
    }
    let begin = from + HEAD;
    let end = begin + size;
    Ok(Case {
        op: space[from],
        room: capped(space, from + 1),
        from: begin,
        to: end,
        rest: Input {
            from: end,
            to,
            ended,
        },
    })
}

// The payload of a case in the space that it was read to; nothing where it isn't a part of it.
pub fn payload(case: Case, space: &[u8]) -> &[u8]
    ensures { result.now ≡ part space.now case.from case.to }
{
    let Case { from, to, .. } = case;
    if from <= to && to <= space.len() {
        &space[from..to]
    } else {
        &[]
    }
}

// The number in four bytes, low byte first, or 65,536 where it is more.
fn capped(s: &[u8], at: usize) -> usize
    requires { at + 4 ≤ length s.now }
    ensures { result ≡ cases_capped s.now at }
{
    (u32::from_le_bytes([s[at], s[at + 1], s[at + 2], s[at + 3]]) as usize).min(MOST)
}
