//! How the process was called: its arguments, one at a time.
ghost use Rattle.std.specs.Prelude.{◌≡◌, ℕ, List, Option, Some, None, slice_get};
ghost use Rattle.std.specs.Io.{WritesAtMost};
ghost use Rattle.lara.specs.Invocations.{Copies};

use std::env::{Env, FillError};

/// How a process was called.
pub trait Invocation {
    /// The arguments, where it tells them. The first is the program's name.
    ghost arguments: { Self → Option (List (List ℕ)) };

    /// Copies the argument of that number to the front of the buffer, and gives its length.
    fn argument(&self, number: usize, buf: &mut [u8]) -> Result<usize, FillError>
        ensures bound { WritesAtMost result buf.new }
        ensures copies { (told : List (List ℕ)) → arguments self.now ≡ Some told → Copies (slice_get told number) result buf.new };
}

/// The arguments that the system hands over. It tells none.
#[derive(Drop)]
pub struct SystemInvocation<R> {
    env: R,
}

impl<R> SystemInvocation<R> {
    /// The arguments of this environment.
    pub fn new(env: R) -> SystemInvocation<R>
        ensures { result.env ≡ env }
    {
        SystemInvocation { env }
    }
}

impl<R: Env> Invocation for SystemInvocation<R> {
    ghost arguments = { λ _. None };

    fn argument(&self, number: usize, buf: &mut [u8]) -> Result<usize, FillError> {
        self.env.arg(number, buf)
    }
}
