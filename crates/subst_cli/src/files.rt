//! The calls of a run to files.

ghost use Rattle.std.specs.Prelude.{◌≡◌, ◌∷◌, [], IfOk, List, OnErr, OnOk, Option};
ghost use Rattle.subst_cli.specs.Files.{Event, GoesOn, Read, Unread, LookedAt, Staged as StagedEvent, Unstaged, Committed, Uncommitted};
ghost use Rattle.subst_cli.specs.Status.{Raises};
ghost use Rattle.subst_filter_lib.specs.declared.status.TheConstants.{DEVICE_FAILED};

use crate::output::NewFile;
use crate::report::Report;
use std::alloc::AllocError;
use std::io;

/// The numbers of a file's device and inode.
pub(crate) type Place = (u64, u64);

/// The kind of file at a path.
#[derive(Clone, Copy, PartialEq, Eq)]
pub(crate) enum AtPath {
    /// A regular file.
    Regular(Place),
    /// A file that isn't regular.
    Other,
    /// Unknown, because the file's metadata can't be read.
    Unknown,
}

/// Bytes that were handed on to be written to a file, until [`Files::commit`] puts them at their path.
#[derive(Drop)]
pub(crate) struct Staged<'p> {
    /// The path of the file.
    pub path: &'p str,
    /// The new file with the bytes, or `None` if the bytes are written already, to something that isn't a
    /// regular file.
    pub new: Option<NewFile>,
}

/// The files of a run.
pub(crate) trait Files {
    // All calls so far, in order, or `None` if they aren't known.
    ghost history: { Self → Option (List Event) };

    /// Reads a file to its end, or standard input if the path is `-`.
    ///
    /// # Errors
    ///
    /// If reading fails, or if allocation fails.
    fn read(&mut self, path: &str) -> io::Result<Vec<u8>>
        ensures read { IfOk result (λ bytes. GoesOn (history self.old) (history self.new)
            (Read path.now bytes.items ∷ [])) }
        ensures unread { OnErr result (GoesOn (history self.old) (history self.new)
            (Unread path.now ∷ [])) };

    /// Returns the kind of file at a path. Symbolic links are followed.
    fn look_at(&mut self, path: &str) -> AtPath
        ensures { GoesOn (history self.old) (history self.new)
            (LookedAt path.now result ∷ []) };

    /// Hands on bytes to be written to the file at a path, which [`Files::commit`] completes. A new file
    /// gets its permissions from the file `template`, if there is one.
    ///
    /// # Errors
    ///
    /// If writing fails, or if allocation fails.
    fn stage<'p>(
        &mut self,
        template: Option<&str>,
        path: &'p str,
        bytes: &[u8],
    ) -> io::Result<Staged<'p>>
        ensures path { IfOk result (λ staged. staged.path.now ≡ path.now) }
        ensures staged { OnOk result (GoesOn (history self.old) (history self.new)
            (StagedEvent path.now bytes.now ∷ [])) }
        ensures unstaged { OnErr result (GoesOn (history self.old) (history self.new)
            (Unstaged path.now bytes.now ∷ [])) };

    /// Replaces a file by the bytes that were staged for it.
    ///
    /// # Errors
    ///
    /// If the file can't be replaced. It is then unchanged.
    fn commit(&mut self, staged: &Staged<'_>) -> io::Result<()>
        ensures committed { OnOk result (GoesOn (history self.old) (history self.new)
            (Committed staged.now.path.now ∷ [])) }
        ensures uncommitted { OnErr result (GoesOn (history self.old) (history self.new)
            (Uncommitted staged.now.path.now ∷ [])) };

    /// Reports that the file at a path couldn't be written.
    ///
    /// # Errors
    ///
    /// If allocation fails.
    fn report_unwritten(
        &self,
        path: &str,
        e: &io::Error,
        report: &mut Report<'_>,
    ) -> Result<(), AllocError>
        ensures { OnOk result (Raises report.old.worst report.new.worst DEVICE_FAILED) };

    /// Returns the names in a directory, in byte order, or `None` if the path isn't that of a directory.
    ///
    /// # Errors
    ///
    /// If the directory can't be read, or if allocation fails.
    fn names_in(&self, path: &str) -> io::Result<Option<Vec<String>>>;

    /// Returns whether a path is that of a directory.
    fn is_directory(&self, path: &str) -> bool;
}
