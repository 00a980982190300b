//! The files of cases.
use std::alloc::{AllocError, Global};
use std::rt::Files;
use std::{fs, io};

/// A folder of cases.
#[derive(Clone, Copy)]
pub(crate) struct Suite {
    pub(crate) folder: &'static str,
    /// The ending of the names of the files.
    pub(crate) extension: &'static str,
    /// The command of a vector that names none, or empty if each has to name one.
    pub(crate) command: &'static [u8],
}

/// The suites: lines to play, events to replay, and sources and images.
///
/// The sources and images are for the assembler's tools.
pub(crate) static SUITES: [Suite; 3] = [
    Suite {
        folder: "play",
        extension: ".play",
        command: b"play",
    },
    Suite {
        folder: "events",
        extension: ".events",
        command: b"replay",
    },
    Suite {
        folder: "asm",
        extension: ".case",
        command: b"",
    },
];

/// Returns the suite of a file, and the file's path without the suite's ending.
///
/// Returns `None` if the path has the ending of no suite.
pub(crate) fn suite_of(path: &str) -> Option<(&'static Suite, &str)> {
    SUITES
        .iter()
        .find_map(|suite| Some((suite, path.strip_suffix(suite.extension)?)))
}

/// Returns the paths of the cases of all suites, in the order of the suites.
///
/// The cases of a suite are in the order of their names.
///
/// # Errors
/// Returns an error if a folder can't be read, or if memory can't be allocated.
pub(crate) fn all_paths<R: Files + AllocGlobal + Clone + Drop>(rt: &R) -> io::Result<Vec<String>> {
    let mut paths = Vec::new(rt.alloc());
    for suite in &SUITES {
        add_paths(rt, suite, &mut paths)?;
    }
    Ok(paths)
}

// Appends the paths of a suite's cases to `paths`, in the order of the names. Returns the errors of
// `all_paths`.
fn add_paths<R: Files + AllocGlobal + Clone + Drop>(
    rt: &R,
    suite: &Suite,
    paths: &mut Vec<String>,
) -> io::Result<()> {
    let folder = suite.folder;
    let mut found = Vec::new(rt.alloc());
    for entry in fs::read_dir(rt, folder)? {
        let entry = entry?;
        let name = entry.file_name();
        if name.ends_with(suite.extension) {
            let path = format!(in rt.alloc(); "{folder}/{name}")?;
            found.push(path).map_err(AllocError::from)?;
        }
    }
    found.sort()?;
    paths.append(&mut found)?;
    Ok(())
}
