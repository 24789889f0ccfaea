//! The file system as the files of a run. It makes no claim about its calls: `history` is unknown.

ghost use Rattle.std.specs.Prelude.{None};

use crate::files::{AtPath, Files, Staged};
use crate::input::{self, display_name};
use crate::output;
use crate::report::Report;
use std::alloc::AllocError;
use std::io::ErrorKind;
use std::path::Path;
use std::{fs, io};
use subst_options::Action;

/// The way in which files are written.
#[derive(Clone, Copy, PartialEq, Eq)]
enum Writing {
    /// Each file is replaced.
    Replacing,
    /// Each file is created or replaced, and its missing directories are created.
    WithDirectories,
    /// One file is created or replaced, or bytes are written to an open stream.
    OrToStream,
}

/// The file system.
#[derive(Clone, Copy)]
pub(crate) struct Disk<'r> {
    rt: &'r HostRuntime,
    writing: Writing,
}

impl<'r> Disk<'r> {
    /// Returns the file system of a host, for a run with this action.
    pub fn new(rt: &'r HostRuntime, action: Action<'_>) -> Self {
        let writing = match action {
            Action::WriteTo(_) => Writing::OrToStream,
            Action::WriteInto(_) => Writing::WithDirectories,
            _ => Writing::Replacing,
        };
        Disk { rt, writing }
    }
}

impl Files for Disk<'_> {
    ghost history = { λ _. None };

    fn read(&mut self, path: &str) -> io::Result<Vec<u8>> {
        input::read(self.rt, path)
    }

    fn look_at(&mut self, path: &str) -> AtPath {
        output::kind_of_file(self.rt, path)
    }

    /// Hands on bytes to be written. With `--output-folder`, missing directories are created; with
    /// `--output`, bytes are written to an open stream directly.
    fn stage<'p>(
        &mut self,
        template: Option<&str>,
        path: &'p str,
        bytes: &[u8],
    ) -> io::Result<Staged<'p>> {
        let mode = match template {
            Some(template) => output::mode_of_new(self.rt, template),
            None => output::NEW_MODE,
        };
        if self.writing == Writing::WithDirectories {
            fs::create_dir_all(self.rt, directory_of(path))?;
        }
        let new = match self.writing {
            Writing::OrToStream => output::write_or_stage(self.rt, path, mode, bytes)?,
            _ => output::stage(self.rt, path, mode, bytes)?,
        };
        Ok(Staged { path, new })
    }

    fn commit(&mut self, staged: &Staged<'_>) -> io::Result<()> {
        match &staged.new {
            Some(new) => new.rename(self.rt),
            None => Ok(()),
        }
    }

    /// Reports that a file couldn't be written. The failure is reported for the file's directory if that
    /// couldn't be created or denies a new file, and otherwise for the file. Also reports, for some kinds
    /// of errors, that a new file can't replace the file.
    fn report_unwritten(
        &self,
        path: &str,
        e: &io::Error,
        report: &mut Report<'_>,
    ) -> Result<(), AllocError> {
        let alloc = self.rt.alloc();
        if self.writing == Writing::WithDirectories && self.is_refused_by_directory(path, e) {
            return report.failed(&display_name(alloc, directory_of(path).as_str())?, e);
        }
        let name = display_name(alloc, path)?;
        report.failed(&name, e)?;
        if is_unreplaceable(e)
            && let Ok(new) = output::path_of_new(self.rt, path)
        {
            let new = display_name(alloc, new.as_path().as_str())?;
            let why = format!(in alloc;
                "{new} can't replace this file; use '> FILE' to write into it"
            )?;
            report.failed_since(&name, &why)?;
        }
        Ok(())
    }

    fn names_in(&self, path: &str) -> io::Result<Option<Vec<String>>> {
        input::names_in(self.rt, path)
    }

    fn is_directory(&self, path: &str) -> bool {
        input::is_directory(self.rt, path)
    }
}

impl Disk<'_> {
    /// Returns whether a failure to write a file is that of its directory: it couldn't be created, or it
    /// denies a new file.
    fn is_refused_by_directory(&self, path: &str, e: &io::Error) -> bool {
        !input::is_directory(self.rt, directory_of(path).as_str())
            || is_denied(e) && fs::metadata(self.rt, path).is_err()
    }
}

/// Returns the directory of the file at a path.
fn directory_of(path: &str) -> Path<'_> {
    match Path::new(path).parent() {
        Some(directory) if !directory.as_str().is_empty() => directory,
        _ => Path::new("."),
    }
}

/// Returns whether an error is a denied permission or a read-only file system.
fn is_denied(e: &io::Error) -> bool {
    matches!(
        e.kind(),
        ErrorKind::PermissionDenied | ErrorKind::ReadOnlyFilesystem
    )
}

/// Returns whether an error may come from a file that can be written into, but not be replaced.
fn is_unreplaceable(e: &io::Error) -> bool {
    matches!(
        e.kind(),
        ErrorKind::PermissionDenied | ErrorKind::ResourceBusy | ErrorKind::ReadOnlyFilesystem
    )
}
