//! Outputs of a command that shows how far its work is.
ghost use Rattle.std.specs.Prelude.{◌≡◌};
ghost use Rattle.cli_program.specs.Watching.{sink_of};

use cli_host::{Progress, Watch, Work};
use client_vm::Sink;
use std::rt::Clock;

/// A sink that removes what is shown of the progress before it takes bytes. It shows how far a client's run is.
#[derive(Drop)]
pub struct Watched<'a, S, R> {
    sink: S,
    progress: &'a Progress<'a, R>,
}

impl<'a, S: Sink, R> Watched<'a, S, R> {
    pub fn new(sink: S, progress: &'a Progress<'a, R>) -> Watched<'a, S, R>
        ensures { sink_of result ≡ sink }
    {
        Watched { sink, progress }
    }
}

impl<S: Sink, R: Clock + Eprint> Sink for Watched<'_, S, R> {
    ghost has_failed = { λ w. S.has_failed (sink_of w) };

    ghost taken = { λ w. S.taken (sink_of w) };

    fn failed(&self) -> bool {
        self.sink.failed()
    }

    fn write(&mut self, bytes: &[u8]) -> usize {
        self.progress.clear();
        self.sink.write(bytes)
    }

    fn hear_of(&mut self, steps: u64, bound: u64) {
        self.progress.show(Work::Running, steps, bound)
    }
}
