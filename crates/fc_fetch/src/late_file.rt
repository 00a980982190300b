//! A file for a response's bytes, unchanged until the first write to it.
//!
//! The option `-o` of `fcreq` uses it: the file stays as it is unless the response is a success.
use std::fs::File;
use std::io;
use std::io::Write;
use std::rt::Files;

/// A file that is created or emptied when it is first written to or flushed.
///
/// The file isn't opened before.
#[derive(Drop)]
pub struct LateFile<'a, R: Files> {
    files: &'a R,
    name: &'a str,
    file: Option<R::File>,
}

impl<'a, R: Files> LateFile<'a, R> {
    /// Stores the name of a file, and opens none.
    pub fn new(files: &'a R, name: &'a str) -> LateFile<'a, R> {
        LateFile {
            files,
            name,
            file: None,
        }
    }

    // Takes the open file out, or creates or empties the file of this name. The caller puts the
    // file back. Returns an error if the file can't be created.
    fn take_open(&mut self) -> io::Result<R::File> {
        match self.file.take() {
            Some(file) => Ok(file),
            None => File::create(self.files, self.name),
        }
    }
}

impl<'a, R: Files> Write for LateFile<'a, R> {
    fn write(&mut self, buf: &[u8]) -> io::Result<usize> {
        let mut file = self.take_open()?;
        let written = file.write(buf);
        self.file = Some(file);
        written
    }

    fn flush(&mut self) -> io::Result<()> {
        let mut file = self.take_open()?;
        let flushed = file.flush();
        self.file = Some(file);
        flushed
    }
}
