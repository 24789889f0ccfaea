//! The templates of a path: a file, or files of a directory and its subdirectories.

ghost use Rattle.std.specs.Prelude.{◌≡◌, IfOk, OnOk, string_bytes};
ghost use Rattle.std.specs.List.{All};
ghost use Rattle.subst_cli.specs.Templates.{IsTemplateOf, target_in};

use crate::files::Files;
use crate::input::path_in;
use std::alloc::{AllocError, Global};
use std::io;
use std::path::Path;

/// A file to be expanded or checked, or whose variables are to be listed.
#[derive(Drop)]
pub(crate) struct Template {
    /// The path of the file.
    pub file: String,
    /// The path of the output, relative to the output directory.
    pub name: String,
}

impl Template {
    /// Returns the path of the output in an output directory.
    ///
    /// # Errors
    ///
    /// If allocation fails.
    pub fn target(&self, alloc: Global, directory: &str) -> Result<String, AllocError>
        ensures { IfOk result
            (λ path. string_bytes path ≡ target_in directory.now self.now) }
    {
        path_in(alloc, directory, &self.name)
    }
}

/// Returns the templates of a path, sorted by name. In a directory and its subdirectories, each file whose
/// path ends in `suffix` is a template. A path that isn't a directory is itself the only template. Names are
/// without the suffix.
///
/// # Errors
///
/// If a directory can't be read, or if allocation fails.
pub(crate) fn templates<F: Files>(
    alloc: Global,
    files: &F,
    path: &str,
    suffix: &str,
) -> io::Result<Vec<Template>>
    ensures { IfOk result (λ found. All (IsTemplateOf path.now suffix.now) found.items) }
{
    let mut found = Vec::new(alloc);
    if !files.is_directory(path) {
        let name = Path::new(path).file_name().unwrap_or(path);
        let template = template_of(alloc, path, name, suffix)?;
        found.push(template)?;
        return Ok(found);
    }
    let mut directories = Vec::new(alloc);
    directories.push(String::new(alloc))?;
    // The number of directories is limited by the system alone.
    for _ in 0..usize::MAX {
        let Some(inner) = directories.pop() else {
            break;
        };
        add_directory(
            alloc,
            files,
            path,
            &inner,
            suffix,
            &mut found,
            &mut directories,
        )?;
    }
    found.sort_unstable_by(|one, other| one.name.as_str().cmp(other.name.as_str()));
    Ok(found)
}

/// Adds the templates in a directory to `found`, and the directory's subdirectories to `directories`. The
/// directory is `inner`, a path relative to `path`.
fn add_directory<F: Files>(
    alloc: Global,
    files: &F,
    path: &str,
    inner: &str,
    suffix: &str,
    found: &mut Vec<Template>,
    directories: &mut Vec<String>,
) -> io::Result<()>
    ensures { OnOk result (All (IsTemplateOf path.now suffix.now) found.old.items
        → All (IsTemplateOf path.now suffix.now) found.new.items) }
{
    let directory = path_in(alloc, path, inner)?;
    let Some(names) = files.names_in(&directory)? else {
        return Ok(());
    };
    for name in names {
        let name = path_in(alloc, inner, &name)?;
        let file = path_in(alloc, path, &name)?;
        if files.is_directory(&file) {
            directories.push(name)?;
        } else if file.as_bytes().ends_with(suffix.as_bytes()) {
            let template = template_of(alloc, &file, &name, suffix)?;
            found.push(template)?;
        }
    }
    Ok(())
}

/// Returns the template of a file, with the suffix removed from its name.
fn template_of(alloc: Global, file: &str, name: &str, suffix: &str) -> io::Result<Template>
    ensures { IfOk result (λ template. string_bytes template.file ≡ file.now) }
{
    let bare = name.strip_suffix(suffix).unwrap_or(name);
    Ok(Template {
        file: String::from_str(alloc, file)?,
        name: String::from_str(alloc, bare)?,
    })
}
