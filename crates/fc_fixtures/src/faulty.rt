//! Writers and readers that fail.
use std::io;
use std::io::{ErrorKind, Read, Write};

/// A writer that accepts this many bytes in all, and then fails with `StorageFull`.
#[derive(Drop)]
pub struct Full(pub usize);

impl Write for Full {
    fn write(&mut self, buf: &[u8]) -> io::Result<usize> {
        let count = buf.len().min(self.0);
        if count == 0 && !buf.is_empty() {
            return Err(io::Error::from(ErrorKind::StorageFull));
        }
        self.0 -= count;
        Ok(count)
    }

    fn flush(&mut self) -> io::Result<()> {
        Ok(())
    }
}

/// A reader whose reads fail with `Unsupported`.
#[derive(Drop)]
pub struct Unreadable;

impl Read for Unreadable {
    fn read(&mut self, buf: &mut [u8]) -> io::Result<usize> {
        let _ = buf;
        Err(io::Error::from(ErrorKind::Unsupported))
    }
}

/// A writer that accepts all bytes, and whose flushes fail with `StorageFull`.
#[derive(Drop)]
pub struct Unflushed;

impl Write for Unflushed {
    fn write(&mut self, buf: &[u8]) -> io::Result<usize> {
        Ok(buf.len())
    }

    fn flush(&mut self) -> io::Result<()> {
        Err(io::Error::from(ErrorKind::StorageFull))
    }
}
