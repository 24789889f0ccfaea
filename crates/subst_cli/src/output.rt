//! Writing output: to a stream, or to a file, which is replaced whole or not at all. A file is first staged:
//! a new file with the bytes is made beside it. Then the new file is renamed.

use crate::files::AtPath;
use std::alloc::{AllocError, Global};
use std::fs::{File, Metadata, OpenOptions, Permissions};
use std::io::Write;
use std::os::unix::fs::{MetadataExt, OpenOptionsExt, PermissionsExt, fchown};
use std::path::{Path, PathBuf};
use std::{fs, io};

/// The mode of a new file that takes no mode from a template, before the umask applies.
pub(crate) const NEW_MODE: u32 = 0o666;

/// The mode of a new file until it gets the mode of the file that it replaces.
const PRIVATE_MODE: u32 = 0o600;

/// The bits of a mode that are permissions.
const PERMISSIONS: u32 = 0o7777;

/// The permission bits without the set-user-ID, set-group-ID and sticky bits.
const COMMON_PERMISSIONS: u32 = 0o777;

/// The maximum number of symbolic links to follow to a file that doesn't exist.
const MOST_LINKS: usize = 40;

/// The most characters that a new file's name takes from the name of the file that it replaces. Systems limit
/// the length of names.
const MOST_OF_NAME: usize = 50;

/// Writes bytes to standard output.
///
/// # Errors
///
/// If writing fails.
pub(crate) fn print(rt: &HostRuntime, bytes: &[u8]) -> io::Result<()> {
    let mut output = rt.stdout();
    output.write_all(bytes)?;
    output.flush()
}

/// A new file that is to replace another.
#[derive(Drop)]
pub(crate) struct NewFile {
    /// The path of the new file.
    new: PathBuf,
    /// The path of the file that it is to replace.
    target: PathBuf,
}

impl NewFile {
    /// Renames the new file, so that it replaces the other file. If that fails, the new file is removed.
    ///
    /// # Errors
    ///
    /// If the renaming fails.
    pub(crate) fn rename(&self, rt: &HostRuntime) -> io::Result<()> {
        let outcome = fs::rename(rt, self.new.as_path(), self.target.as_path());
        if outcome.is_err() {
            self.remove(rt);
        }
        outcome
    }

    /// Removes the new file. If that fails too, only the earlier failure is reported.
    fn remove(&self, rt: &HostRuntime) {
        let _ = fs::remove_file(rt, self.new.as_path());
    }
}

/// Returns the kind of file at a path. Symbolic links are followed.
pub(crate) fn kind_of_file(rt: &HostRuntime, path: &str) -> AtPath {
    match fs::metadata(rt, path) {
        Ok(found) if found.is_file() => AtPath::Regular((found.dev(), found.ino())),
        Ok(_) => AtPath::Other,
        Err(_) => AtPath::Unknown,
    }
}

/// Returns the mode of a new file for a template's output, before the umask applies. It is the template's
/// mode without the set-ID and sticky bits, so that no more users can read the output than the template. If
/// the template isn't a regular file, the mode is [`NEW_MODE`].
pub(crate) fn mode_of_new(rt: &HostRuntime, template: &str) -> u32 {
    match fs::metadata(rt, template) {
        Ok(found) if found.is_file() => found.permissions().mode() & COMMON_PERMISSIONS,
        _ => NEW_MODE,
    }
}

/// Writes bytes to the open stream that a path leads to, or else stages them for the file at that path, as
/// [`stage`] does.
///
/// # Errors
///
/// If writing fails.
pub(crate) fn write_or_stage(
    rt: &HostRuntime,
    path: &str,
    mode: u32,
    bytes: &[u8],
) -> io::Result<Option<NewFile>> {
    if is_same_file(rt, path, "/proc/self/fd/1") {
        print(rt, bytes)?;
    } else if is_same_file(rt, path, "/proc/self/fd/2") {
        rt.stderr().write_all(bytes)?;
    } else if path.starts_with("/dev/fd/") || path.starts_with("/proc/") {
        write_through(rt, path, true, bytes)?;
    } else {
        return stage(rt, path, mode, bytes);
    }
    Ok(None)
}

/// Returns whether two paths lead to the same existing file.
fn is_same_file(rt: &HostRuntime, one: &str, other: &str) -> bool {
    match (fs::metadata(rt, one), fs::metadata(rt, other)) {
        (Ok(one), Ok(other)) => one.dev() == other.dev() && one.ino() == other.ino(),
        _ => false,
    }
}

/// Makes a new file with these bytes, which is to replace the file at a path. If there is no such file, the
/// new one has the mode `mode`. If the path leads to something other than a regular file, the bytes are
/// written to it directly, and `None` is returned.
///
/// # Errors
///
/// If writing fails.
pub(crate) fn stage(
    rt: &HostRuntime,
    path: &str,
    mode: u32,
    bytes: &[u8],
) -> io::Result<Option<NewFile>> {
    match fs::metadata(rt, path) {
        Ok(old) if old.is_file() => {
            let target = fs::canonicalize(rt, path)?;
            Ok(Some(stage_new(rt, target, Target::There(&old), bytes)?))
        }
        Ok(_) => {
            write_through(rt, path, false, bytes)?;
            Ok(None)
        }
        Err(e) if e.kind() == io::ErrorKind::NotFound => {
            let target = end_of_links(rt, path)?;
            Ok(Some(stage_new(rt, target, Target::Missing(mode), bytes)?))
        }
        Err(e) => Err(e),
    }
}

/// Writes bytes to an existing file, from its start on, or after its end if `at_end` is set.
fn write_through(rt: &HostRuntime, path: &str, at_end: bool, bytes: &[u8]) -> io::Result<()> {
    let mut options = OpenOptions::new();
    options.write(true).append(at_end);
    let mut file = options.open(rt, path)?;
    file.write_all(bytes)
}

/// Returns the path at which [`stage`] first tries to create the replacement of the file at `path`.
///
/// # Errors
///
/// If the path can't be resolved, or if allocation fails.
pub(crate) fn path_of_new(rt: &HostRuntime, path: &str) -> io::Result<PathBuf> {
    let target = fs::canonicalize(rt, path)?;
    Ok(path_beside(rt.alloc(), target.as_path(), 0)?)
}

/// Returns a path `.NAME.subst-N` for a new file, in the directory of the file at `path`.
fn path_beside(alloc: Global, path: Path<'_>, number: u32) -> Result<PathBuf, AllocError> {
    let name = path.file_name().unwrap_or("");
    let start: String = name.chars().take(MOST_OF_NAME).collect(alloc)?;
    let name = format!(in alloc; ".{start}.subst-{number}")?;
    let directory = path.parent().unwrap_or(Path::new(""));
    directory.join(alloc, name.as_str())
}

/// Follows the symbolic links from a path that leads to no file. Returns the path for a new file.
fn end_of_links(rt: &HostRuntime, path: &str) -> io::Result<PathBuf> {
    let mut end = PathBuf::from_str(rt.alloc(), path)?;
    for _ in 0..MOST_LINKS {
        let Ok(link) = fs::read_link(rt, end.as_path()) else {
            return Ok(end);
        };
        end = match end.as_path().parent() {
            Some(directory) => directory.join(rt.alloc(), link.as_path())?,
            None => link,
        };
    }
    Ok(end)
}

/// The file to be replaced, if there is one.
enum Target<'m> {
    /// An existing file, whose owner and permissions the new one gets.
    There(&'m Metadata),
    /// No file. The new one gets this mode, before the umask applies.
    Missing(u32),
}

/// Writes bytes to a new file in the directory of `target`. If that fails, the new file is removed.
fn stage_new(
    rt: &HostRuntime,
    target: PathBuf,
    replaced: Target<'_>,
    bytes: &[u8],
) -> io::Result<NewFile> {
    let (mode, old) = match replaced {
        Target::There(old) => (PRIVATE_MODE, Some(old)),
        Target::Missing(mode) => (mode, None),
    };
    let (new, file) = create_beside(rt, target.as_path(), mode)?;
    let staged = NewFile { new, target };
    if let Err(e) = finish(file, old, bytes) {
        staged.remove(rt);
        return Err(e);
    }
    Ok(staged)
}

/// Creates a file with `mode` in the directory of `path`, under a name that no file has.
fn create_beside(rt: &HostRuntime, path: Path<'_>, mode: u32) -> io::Result<(PathBuf, File)> {
    for number in 0..u32::MAX {
        let new = path_beside(rt.alloc(), path, number)?;
        let mut options = OpenOptions::new();
        options.write(true).create_new(true).mode(mode);
        match options.open(rt, new.as_path()) {
            Ok(file) => return Ok((new, file)),
            Err(e) if e.kind() == io::ErrorKind::AlreadyExists => {}
            Err(e) => return Err(e),
        }
    }
    Err(io::Error::from(io::ErrorKind::AlreadyExists))
}

/// Writes bytes to a new file, copies owner and permissions from `old`, and syncs the file to the disk.
fn finish(mut file: File, old: Option<&Metadata>, bytes: &[u8]) -> io::Result<()> {
    file.write_all(bytes)?;
    if let Some(old) = old {
        file.set_permissions(Permissions::from_mode(set_owner(&file, old)))?;
    }
    file.sync_all()
}

/// Sets the owner and group of a new file to those of the old one, as far as permitted, and returns the mode
/// to set. If the owner can't be set, the set-ID and sticky bits are removed. If the group can't be set
/// either, the group gets the permissions of others.
fn set_owner(file: &File, old: &Metadata) -> u32 {
    let mode = old.permissions().mode();
    if fchown(file, Some(old.uid()), Some(old.gid())).is_ok() {
        mode & PERMISSIONS
    } else if fchown(file, None, Some(old.gid())).is_ok() {
        mode & COMMON_PERMISSIONS
    } else {
        mode & 0o707 | (mode & 0o007) << 3
    }
}
