//! A folder in memory, whose files fail at a given place.
ghost use Rattle.std.specs.Prelude.{◌≡◌, None, false};

use crate::devices::{ByteReader, byte_reader};
use crate::failing::{AMPLE, C17, C17B};
use check_tool::folder::{Folder, Obstacle, OpenFault};
use std::alloc::Global;

/// What happens to the files of a folder after they were opened.
#[derive(Clone, Copy, Drop, PartialEq, Eq)]
pub(crate) enum AfterOpen {
    Stays,
    /// Each file can be opened once, and is gone then.
    Gone,
    /// No path is a regular file.
    NoFile,
}

/// A folder with the files `first`, `second` and `list`, one of which may fail at its end, and `forbidden`, for which
/// there is no memory. It notes the paths that it is asked for, and what is saved in the file `wave`. `full` takes
/// nothing, and no other file can be made.
#[derive(Drop)]
pub(crate) struct MemoryFolder {
    pub(crate) second: &'static str,
    pub(crate) list: &'static str,
    pub(crate) failing: &'static str,
    pub(crate) later: AfterOpen,
    pub(crate) asked: Vec<u8>,
    pub(crate) wave: Vec<u8>,
}

impl MemoryFolder {
    /// C17, C17 with one gate changed, and a list of their inputs.
    pub(crate) fn new(alloc: Global) -> MemoryFolder {
        MemoryFolder {
            second: C17B,
            list: "1 2 3 6 7",
            failing: "",
            later: AfterOpen::Stays,
            asked: Vec::new(alloc),
            wave: Vec::new(alloc),
        }
    }

    /// Whether this path was asked for before.
    fn was_asked(&self, path: &str) -> bool {
        self.asked
            .as_slice()
            .split(|byte| *byte == b' ')
            .any(|asked| asked == path.as_bytes())
    }

    /// A file with this text.
    fn file(&self, path: &str, text: &'static str) -> ByteReader
        ensures { result.failed ≡ false }
    {
        if path == self.failing {
            byte_reader(text, text.len())
        } else {
            byte_reader(text, AMPLE)
        }
    }
}

impl Folder for MemoryFolder {
    type File = ByteReader;

    ghost tries = { λ _. None };

    ghost bytes_at = { λ _ _. None };

    fn open(&mut self, path: &str) -> Result<ByteReader, OpenFault> {
        let gone = self.later == AfterOpen::Gone && self.was_asked(path);
        let noted = self.asked.extend_from_slice(path.as_bytes()).is_ok()
            && self.asked.push(b' ').is_ok();
        if !noted {
            return Err(OpenFault::OutOfMemory);
        }
        if gone {
            return Err(OpenFault::Refused(Obstacle::Missing));
        }
        match path {
            "first" => Ok(self.file(path, C17)),
            "second" => Ok(self.file(path, self.second)),
            "list" => Ok(self.file(path, self.list)),
            "forbidden" => Err(OpenFault::OutOfMemory),
            _ => Err(OpenFault::Refused(Obstacle::Missing)),
        }
    }

    fn save(&mut self, path: &str, bytes: &[u8]) -> Result<(), Obstacle> {
        match path {
            "wave" => {
                self.wave.clear();
                match self.wave.extend_from_slice(bytes) {
                    Ok(()) => Ok(()),
                    Err(_) => Err(Obstacle::Unwritten),
                }
            }
            "full" => Err(Obstacle::Unwritten),
            _ => Err(Obstacle::Missing),
        }
    }

    fn is_regular(&self, _path: &str) -> bool {
        self.later != AfterOpen::NoFile
    }
}
