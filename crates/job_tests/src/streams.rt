//! An input and an output that transfer small pieces, each after an interruption, and that may fail partway.
ghost use Rattle.std.specs.Prelude.{Some};

use std::io;
use std::io::{ErrorKind, Read, Write};

// Gives what is left, at most `at_once` bytes per call; then it fails, or is at its end.
#[derive(Drop)]
pub(crate) struct Input<'a> {
    pub(crate) left: &'a [u8],
    pub(crate) at_once: usize,
    pub(crate) failure: Option<ErrorKind>,
    pub(crate) interrupted: bool,
}

impl Read for Input<'_> {
    ghost remaining = { λ r. Some r.left.now };

    fn read(&mut self, buf: &mut [u8]) -> io::Result<usize> {
        self.interrupted = !self.interrupted;
        if self.interrupted {
            return Err(io::Error::from(ErrorKind::Interrupted));
        }
        if let (true, Some(kind)) = (self.left.is_empty(), self.failure) {
            return Err(io::Error::from(kind));
        }
        let len = buf.len().min(self.at_once.max(1));
        self.left.read(&mut buf[..len])
    }
}

// Takes at most `at_once` bytes per call until it holds `room` bytes; then it fails, or takes no more.
#[derive(Drop)]
pub(crate) struct Output {
    pub(crate) held: Vec<u8>,
    pub(crate) at_once: usize,
    pub(crate) room: usize,
    pub(crate) failure: Option<ErrorKind>,
    pub(crate) interrupted: bool,
}

impl Write for Output {
    ghost contents = { λ w. Some w.held.items };

    fn write(&mut self, buf: &[u8]) -> io::Result<usize> {
        self.interrupted = !self.interrupted;
        if self.interrupted {
            return Err(io::Error::from(ErrorKind::Interrupted));
        }
        let room = self.room.saturating_sub(self.held.len());
        if let (0, Some(kind)) = (room, self.failure) {
            return Err(io::Error::from(kind));
        }
        self.held
            .write(&buf[..buf.len().min(self.at_once).min(room)])
    }

    fn flush(&mut self) -> io::Result<()> {
        Ok(())
    }
}
