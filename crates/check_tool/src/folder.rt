//! Folders, in which files are opened and saved; and the file system of a process.
ghost use Rattle.std.specs.Prelude.{◌≡◌, ◌≢◌, ◌↔◌, ◌∷◌, [], ℕ, List, Option, Some, None, false, IfOk, IfSome, OnErr, OnOk, is_ok};
ghost use Rattle.std.specs.Io.KnownBytes.{Appends};
ghost use Rattle.std.specs.declared.io.ErrorKind.TheVariants.{NotFound, PermissionDenied, NotADirectory, FilesystemLoop, OutOfMemory};
ghost use Rattle.report_text.specs.Writing.{AppendsFront};
ghost use Rattle.check_tool.specs.Opening.{Extends, Save, Try};

use check_report::write_whole;
use std::rt::Files;
use std::{fs, io};
use text_device::{Sink, Source, StdDevice};

/// Why a file could not be opened or saved.
#[derive(Clone, Copy, Drop, Debug, PartialEq, Eq)]
pub enum Obstacle {
    /// There is no such file.
    Missing,
    /// The system does not permit it.
    Forbidden,
    /// A part of the path is a file, not a folder.
    NoFolder,
    /// Symbolic links lead back to each other.
    Links,
    /// The file has not taken all bytes.
    Unwritten,
    /// The system has reported another kind of error.
    Other,
}

/// Why a file was not opened.
#[derive(Clone, Copy, Drop, Debug, PartialEq, Eq)]
pub enum OpenFault {
    /// The system does not open it.
    Refused(Obstacle),
    /// Memory was refused.
    OutOfMemory,
}

/// A place where files are opened for reading and saved, by their paths.
pub trait Folder {
    type File: Source + Drop;

    // The paths that were to be opened, the earliest first, each with whether it was opened, if the folder knows them.
    ghost tries: { Self → Option (List Try) };
    // The bytes of the file at a path, if the folder knows them.
    ghost bytes_at: { Self → List ℕ → Option (List ℕ) };
    // The files that were to be saved, the earliest first, if the folder knows them.
    ghost saves: { Self → Option (List Save) } = { λ _. None };

    /// Opens the file at the path for reading.
    fn open(&mut self, path: &str) -> Result<Self::File, OpenFault>
        ensures tried { Extends (tries self.old) (tries self.new) ((path.now, is_ok result) ∷ []) }
        ensures file { IfOk result (λ file. IfSome (bytes_at self.old path.now) (λ text. Self.File.remaining file ≡ Some text)) }
        ensures fresh { IfOk result (λ file. Self.File.has_failed file ≡ false) }
        ensures named { IfOk result (λ file. IfSome (Self.File.origin file) (λ from. from ≡ path.now)) }
        ensures files_unchanged { bytes_at self.new ≡ bytes_at self.old }
        ensures unsaved { saves self.new ≡ saves self.old };

    /// Writes these bytes to the file at the path, which is made if it does not exist and is replaced if it does.
    fn save(&mut self, path: &str, bytes: &[u8]) -> Result<(), Obstacle>
        ensures saved { Extends (saves self.old) (saves self.new) ((path.now, bytes.now, is_ok result) ∷ []) }
        ensures unopened { tries self.new ≡ tries self.old }
        ensures files_unchanged { bytes_at self.new ≡ bytes_at self.old };

    /// Returns whether the path is that of a regular file. Such a file can be opened and read again; a pipe cannot, and
    /// reading it again could wait forever.
    fn is_regular(&self, path: &str) -> bool;
}

/// Returns the obstacle for a kind of error of the system.
fn obstacle_of(kind: io::ErrorKind) -> Obstacle
    ensures missing { (result ≡ Obstacle.Missing) ↔ (kind ≡ NotFound) }
    ensures forbidden { (result ≡ Obstacle.Forbidden) ↔ (kind ≡ PermissionDenied) }
    ensures no_folder { (result ≡ Obstacle.NoFolder) ↔ (kind ≡ NotADirectory) }
    ensures links { (result ≡ Obstacle.Links) ↔ (kind ≡ FilesystemLoop) }
    ensures opening { result ≢ Obstacle.Unwritten }
{
    if kind == io::ErrorKind::NotFound {
        Obstacle::Missing
    } else if kind == io::ErrorKind::PermissionDenied {
        Obstacle::Forbidden
    } else if kind == io::ErrorKind::NotADirectory {
        Obstacle::NoFolder
    } else if kind == io::ErrorKind::FilesystemLoop {
        Obstacle::Links
    } else {
        Obstacle::Other
    }
}

/// Returns the fault of an opening for a kind of error of the system.
fn fault_of(kind: io::ErrorKind) -> OpenFault
    ensures memory { (result ≡ OpenFault.OutOfMemory) ↔ (kind ≡ OutOfMemory) }
    ensures missing { (result ≡ OpenFault.Refused Obstacle.Missing) ↔ (kind ≡ NotFound) }
    ensures forbidden { (result ≡ OpenFault.Refused Obstacle.Forbidden) ↔ (kind ≡ PermissionDenied) }
    ensures no_folder { (result ≡ OpenFault.Refused Obstacle.NoFolder) ↔ (kind ≡ NotADirectory) }
    ensures links { (result ≡ OpenFault.Refused Obstacle.Links) ↔ (kind ≡ FilesystemLoop) }
    ensures opening { result ≢ OpenFault.Refused Obstacle.Unwritten }
{
    if kind == io::ErrorKind::OutOfMemory {
        OpenFault::OutOfMemory
    } else {
        OpenFault::Refused(obstacle_of(kind))
    }
}

/// Writes all bytes to a file that is saved.
fn fill<W: Sink>(file: &mut W, bytes: &[u8]) -> Result<(), Obstacle>
    ensures whole { OnOk result (Appends (W.contents file.old) (W.contents file.new) bytes.now) }
    ensures front { OnErr result (AppendsFront (W.contents file.old) (W.contents file.new) (W.has_failed file.new)
        (W.has_stopped file.new) bytes.now) }
{
    match write_whole(file, bytes) {
        Ok(()) => Ok(()),
        Err(_) => Err(Obstacle::Unwritten),
    }
}

/// The file system of a runtime. It knows neither the files nor what was opened, so its contracts say nothing of them.
#[derive(Drop)]
pub struct Disk<'a, H> {
    rt: &'a H,
}

impl<'a, H> Disk<'a, H> {
    /// Returns the file system that this runtime reaches.
    pub fn new(rt: &'a H) -> Disk<'a, H>
        ensures { result.rt ≡ rt.entry }
    {
        Disk { rt }
    }
}

impl<'a, H: Files> Folder for Disk<'a, H> {
    type File = StdDevice<H::File>;

    ghost tries = { λ _. None };

    ghost bytes_at = { λ _ _. None };

    fn open(&mut self, path: &str) -> Result<StdDevice<H::File>, OpenFault> {
        match fs::open(self.rt, path) {
            Ok(file) => Ok(StdDevice::new(file)),
            Err(error) => Err(fault_of(error.kind())),
        }
    }

    fn save(&mut self, path: &str, bytes: &[u8]) -> Result<(), Obstacle> {
        match fs::create(self.rt, path) {
            Ok(file) => fill(&mut StdDevice::new(file), bytes),
            Err(error) => Err(obstacle_of(error.kind())),
        }
    }

    fn is_regular(&self, path: &str) -> bool {
        match fs::metadata(self.rt, path) {
            Ok(known) => known.is_file(),
            Err(_) => false,
        }
    }
}
