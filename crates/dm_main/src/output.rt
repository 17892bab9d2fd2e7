use std::io;
use std::io::{Lock, StderrLock, StdoutLock, Write};

/// Standard output or standard error. Nothing is held back in a buffer.
#[derive(Drop)]
pub enum Output {
    Out(StdoutLock<'static>),
    Errs(StderrLock<'static>),
}

impl Output {
    pub fn out(rt: &HostRuntime) -> Output {
        Output::Out(rt.stdout().lock())
    }

    pub fn errs(rt: &HostRuntime) -> Output {
        Output::Errs(rt.stderr().lock())
    }
}

impl Write for Output {
    fn write(&mut self, buf: &[u8]) -> io::Result<usize> {
        match self {
            Output::Out(stream) => stream.write(buf),
            Output::Errs(stream) => stream.write(buf),
        }
    }

    fn flush(&mut self) -> io::Result<()> {
        match self {
            Output::Out(stream) => stream.flush(),
            Output::Errs(stream) => stream.flush(),
        }
    }
}
