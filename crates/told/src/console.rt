// Where a program writes: standard output, and standard error beside it, each of which takes any bytes.
ghost use Rattle.std.specs.Prelude.{IfOk, ◌≤◌, length};

use std::io::{Print, Result};

// `Print` is standard output.
pub trait Console: Print {
    // Writes some of the bytes to standard error and answers how many, or fails and has written none.
    fn tell_some(&self, bytes: &[u8]) -> Result<usize>
        ensures bound { IfOk result (λ n. n ≤ length bytes.now) };
}

impl Console for HostRuntime {
    fn tell_some(&self, bytes: &[u8]) -> Result<usize> {
        self.stderr().write_some(bytes)
    }
}

impl<R: Console> Console for &R {
    fn tell_some(&self, bytes: &[u8]) -> Result<usize> {
        (**self).tell_some(bytes)
    }
}
