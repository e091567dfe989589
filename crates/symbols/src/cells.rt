// The cells of three symbols that the writer lays blocks in: how many a block takes, and which start is a packet's first.
ghost use Rattle.std.specs.Prelude.{◌≡◌, ◌+◌, ◌/◌};
ghost use Rattle.symbols.specs.Cells.{first_of};

// A block's symbols go in cells of so many.
pub const CELL: usize = 3;

// A block's start and the four nibbles of its 16 bits.
pub const LEAD: usize = 5;

// The place of the first start up to place i.
pub fn first(before: usize, starts: bool, i: usize) -> usize
    ensures { result ≡ first_of before starts i }
{
    if starts { before.min(i) } else { before }
}

// How many cells a block of so many raw bytes takes. The size is divided first, so that no sum can
// be more than a usize holds.
pub fn cells_of(size: usize) -> usize
    ensures { result ≡ (size + 7) / 3 }
{
    size / CELL + (size % CELL + LEAD + CELL - 1) / CELL
}
