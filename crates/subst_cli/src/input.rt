//! Reading files and directories.

ghost use Rattle.std.specs.Prelude.{◌≡◌, IfOk, string_bytes};
ghost use Rattle.subst_cli.specs.Templates as templates;

use std::alloc::{AllocError, Global};
use std::io::Read;
use std::path::Path;
use std::{fs, io};
use subst_expander::terminal::printable;
use subst_options::STANDARD_INPUT;

/// Reads a file to its end, or standard input if the path is `-`.
///
/// # Errors
///
/// If reading fails, or if allocation fails.
pub(crate) fn read(rt: &HostRuntime, file: &str) -> io::Result<Vec<u8>> {
    if file != STANDARD_INPUT {
        return fs::read(rt, file);
    }
    let mut bytes = Vec::new(rt.alloc());
    rt.stdin().read_to_end(&mut bytes)?;
    Ok(bytes)
}

/// Returns the names in a directory, in byte order, or `None` if the path isn't that of a directory.
///
/// # Errors
///
/// If the directory can't be read, or if allocation fails.
pub(crate) fn names_in(rt: &HostRuntime, path: &str) -> io::Result<Option<Vec<String>>> {
    if !is_directory(rt, path) {
        return Ok(None);
    }
    let mut names = Vec::new(rt.alloc());
    for entry in fs::read_dir(rt, path)? {
        let entry = entry?;
        names.push(String::from_str(rt.alloc(), entry.file_name())?)?;
    }
    names.sort_unstable();
    Ok(Some(names))
}

/// Returns whether a path is that of a directory.
pub(crate) fn is_directory(rt: &HostRuntime, path: &str) -> bool {
    path != STANDARD_INPUT && fs::metadata(rt, path).is_ok_and(|found| found.is_dir())
}

/// Joins a directory's path and a name, which may be a relative path of several parts. If the name is empty,
/// returns the directory's path.
pub(crate) fn path_in(alloc: Global, directory: &str, name: &str) -> Result<String, AllocError>
    ensures { IfOk result
        (λ path. string_bytes path ≡ templates.path_in directory.now name.now) }
{
    if name.is_empty() {
        return String::from_str(alloc, directory);
    }
    let path = Path::new(directory).join(alloc, name)?;
    String::from_str(alloc, path.as_path().as_str())
}

/// Returns a file's name for messages: `<stdin>` for `-`, and otherwise the path, escaped for a terminal.
pub(crate) fn display_name(alloc: Global, file: &str) -> Result<String, AllocError> {
    if file == STANDARD_INPUT {
        String::from_str(alloc, "<stdin>")
    } else {
        printable(alloc, file.as_bytes())
    }
}
