//! A run that handles its files one at a time, so that a refused or unreadable file doesn't stop the others.

ghost use Rattle.std.specs.Prelude.{◌≡◌, ◌⊎◌, ◌∷◌, [], IfErr, IfNone, IfOk, IfSome, OnOk, OnSome, string_bytes};
ghost use Rattle.std.specs.HashSet.{contains_text};
ghost use Rattle.subst_cli.specs.Files.{GoesOn, Read};
ghost use Rattle.subst_expander.specs.Fill.{IsSourceOutput};
ghost use Rattle.subst_expander.specs.FormatRule.{format_of_source};
ghost use Rattle.subst_expander.specs.Layers.{ForEntries};
ghost use Rattle.subst_expander.specs.Refusals.{AreFaultsFor};
ghost use Rattle.subst_cli.specs.Status.{Raises, status_of};
ghost use Rattle.subst_cli.specs.Written.{HasNoOutput, IsChecked, IsCheckRun, IsDone, IsDoneOnce, IsOutputOf, IsReplaced, IsReplaceRun, IsRun, IsUnread, IsWriting, IsWrittenOnce, WritesInto};
ghost use Rattle.subst_filter_lib.specs.declared.status.TheConstants.{DEVICE_FAILED, DONE, REFUSED};

use crate::files::{AtPath, Files, Place};
use crate::input::display_name;
use crate::reading::source_to_expand;
use crate::refusals::{report_defaults, report_refused};
use crate::report::Report;
use crate::templates::Template;
use crate::writing::write;
use std::alloc::{AllocError, Global};
use std::collections::HashSet;
use subst_expander::expansion::Expander;
use subst_expander::hints::unset_hints;
use subst_expander::part::OrFaults;
use subst_expander::source::{Refused, Source};
use subst_options::Options;

/// A run that handles its files one at a time. If memory runs out for a file, this is reported, and the run
/// continues with the next file.
#[derive(Drop)]
pub(crate) struct Run<'r, 'w, 'v> {
    /// The allocator.
    pub alloc: Global,
    /// The options.
    pub options: &'r Options<'w>,
    /// The expander of the files' sources.
    pub expander: Expander<'r, 'w, 'v>,
}

/// The output of a source.
#[derive(Drop)]
struct Output {
    /// The bytes.
    bytes: Vec<u8>,
    /// Whether the bytes are those of the source.
    is_source: bool,
}

impl Run<'_, '_, '_> {
    /// Reports the faults of each file. The outputs are discarded.
    pub fn check_each<F: Files>(
        &self,
        templates: &[Template],
        files: &mut F,
        report: &mut Report<'_>,
    )
        ensures checked { ForEntries self.now.expander.variables (λ entries. IsCheckRun
            self.now.expander.formats self.now.expander.placeholders.now entries
            self.now.options.now.refuses_defaults report.old.worst report.new.worst templates.now
            (F.history files.old) (F.history files.new)) }
    {
        for template in templates {
            self.check(&template.file, files, report);
        }
    }

    /// Reports the faults of a file. If the options refuse them, also reports its defaults that look like
    /// another tool's.
    fn check<F: Files>(&self, file: &str, files: &mut F, report: &mut Report<'_>)
        ensures { ForEntries self.now.expander.variables (λ entries. IsDone (IsChecked
            self.now.expander.formats self.now.expander.placeholders.now entries
            self.now.options.now.refuses_defaults file.now) file.now []
            (F.history files.old) (F.history files.new) report.old.worst report.new.worst) }
    {
        if let Some(source) = self.read(file, files, report) {
            if self.options.refuses_defaults {
                self.check_defaults(&source, report);
            }
            let _ = self.expand(source, report);
        }
    }

    /// Reports the defaults of a source that look like another tool's.
    fn check_defaults(&self, source: &Source, report: &mut Report<'_>)
        ensures { Raises report.old.worst report.new.worst DONE
            ⊎ Raises report.old.worst report.new.worst REFUSED }
    {
        if report_defaults(self.alloc, self.options, source, report).is_err() {
            report.out_of_memory(&source.name);
        }
    }

    /// Writes the output of each file into a directory, or reports the file's faults. Nothing is written for
    /// a file with the same output path as an earlier one.
    ///
    /// # Errors
    ///
    /// If allocation fails between two files.
    pub fn write_each<F: Files>(
        &self,
        directory: &str,
        templates: &[Template],
        files: &mut F,
        report: &mut Report<'_>,
    ) -> Result<(), AllocError>
        ensures written { ForEntries self.now.expander.variables (λ entries. IsRun (WritesInto
            self.now.expander.formats self.now.expander.placeholders.now entries directory.now
            (status_of report.old.worst)) templates.now (F.history files.old)
            (F.history files.new) report.new.worst result) }
    {
        let mut taken = HashSet::new(self.alloc);
        for template in templates {
            let target = template.target(self.alloc, directory)?;
            self.write_once(&template.file, &target, &taken, files, report);
            taken.insert(target)?;
        }
        Ok(())
    }

    /// Writes the output of a file to the path `target`, or reports the file's faults. If the path is
    /// taken, reports that instead.
    fn write_once<F: Files>(
        &self,
        file: &str,
        target: &str,
        taken: &HashSet<String>,
        files: &mut F,
        report: &mut Report<'_>,
    )
        ensures { ForEntries self.now.expander.variables (λ entries. IsDone (IsWrittenOnce
            self.now.expander.formats self.now.expander.placeholders.now entries
            (contains_text taken.now target.now) file.now) file.now target.now
            (F.history files.old) (F.history files.new) report.old.worst report.new.worst) }
    {
        if taken.contains(target) {
            let why = "not written: an earlier file has the same output path";
            return self.report_unwritten(file, why, report);
        }
        let Some(source) = self.read(file, files, report) else {
            return;
        };
        if let Some(output) = self.expand(source, report) {
            self.write(Some(file), target, &output.bytes, files, report);
        }
    }

    /// Replaces each file by its output, unless they are equal, or reports the file's faults. A file that is
    /// named twice is replaced once.
    ///
    /// # Errors
    ///
    /// If allocation fails between two files.
    pub fn replace_each<F: Files>(
        &self,
        templates: &[Template],
        files: &mut F,
        report: &mut Report<'_>,
    ) -> Result<(), AllocError>
        ensures replaced { ForEntries self.now.expander.variables (λ entries. IsReplaceRun
            self.now.expander.formats self.now.expander.placeholders.now entries
            report.old.worst report.new.worst templates.now (F.history files.old)
            (F.history files.new) result) }
    {
        let mut done = HashSet::new(self.alloc);
        for template in templates {
            self.replace_once(&template.file, &done, files, report);
            if let AtPath::Regular(place) = files.look_at(&template.file) {
                done.insert(place)?;
            }
        }
        Ok(())
    }

    /// Replaces a file by its output, unless the file is done or isn't regular.
    fn replace_once<F: Files>(
        &self,
        file: &str,
        done: &HashSet<Place>,
        files: &mut F,
        report: &mut Report<'_>,
    )
        ensures { ForEntries self.now.expander.variables (λ entries. IsDoneOnce
            self.now.expander.formats self.now.expander.placeholders.now entries done.now.keys
            file.now (F.history files.old) (F.history files.new)
            report.old.worst report.new.worst) }
    {
        match files.look_at(file) {
            AtPath::Regular(place) => {
                if !done.contains(&place) {
                    self.replace(file, files, report);
                }
            }
            AtPath::Other => self.report_unwritten(file, "not a regular file", report),
            AtPath::Unknown => self.replace(file, files, report),
        }
    }

    /// Replaces a file by its output, unless they are equal, or reports the file's faults.
    fn replace<F: Files>(&self, file: &str, files: &mut F, report: &mut Report<'_>)
        ensures { ForEntries self.now.expander.variables (λ entries. IsDone (IsReplaced
            self.now.expander.formats self.now.expander.placeholders.now entries file.now)
            file.now file.now (F.history files.old) (F.history files.new)
            report.old.worst report.new.worst) }
    {
        let Some(source) = self.read(file, files, report) else {
            return;
        };
        let Some(output) = self.expand(source, report) else {
            return;
        };
        if !output.is_source {
            self.write(None, file, &output.bytes, files, report);
        }
    }

    /// Reads a file, or reports why it can't be read and returns `None`.
    fn read<F: Files>(&self, file: &str, files: &mut F, report: &mut Report<'_>) -> Option<Source>
        ensures read { IfSome result (λ source.
            GoesOn (F.history files.old) (F.history files.new)
            (Read file.now source.bytes.items ∷ []) × (string_bytes source.path ≡ file.now)
            × Raises report.old.worst report.new.worst DONE) }
        ensures unread { IfNone result (IsUnread file.now (F.history files.old)
            (F.history files.new) report.old.worst report.new.worst) }
    {
        match source_to_expand(self.alloc, self.options, file, files, report) {
            Ok(found) => found,
            Err(AllocError) => {
                report.out_of_memory("subst");
                None
            }
        }
    }

    /// Expands a source. If it is refused, reports its faults and returns `None`. Prints hints for unset
    /// variables.
    #[tactic(auto, unfolding(crate::specs::Written::Gives, crate::specs::Written::Refuses))]
    fn expand(&self, source: Source, report: &mut Report<'_>) -> Option<Output>
        ensures output { ForEntries self.now.expander.variables (λ entries. IfSome result
            (IsOutputOf self.now.expander.formats self.now.expander.placeholders.now entries
            (string_bytes source.path) source.bytes.items)) }
        ensures none { ForEntries self.now.expander.variables (λ entries. IfNone result (HasNoOutput
            self.now.expander.formats self.now.expander.placeholders.now entries
            (string_bytes source.path) source.bytes.items report.old.worst report.new.worst)) }
        ensures status { OnSome result (report.new.worst ≡ report.old.worst) }
    {
        if self.expander.is_its_own_output(&source) {
            return Some(Output {
                bytes: source.bytes,
                is_source: true,
            });
        }
        match self.output_of(&source, report) {
            Ok(Ok(bytes)) => {
                let is_source = bytes == source.bytes;
                Some(Output { bytes, is_source })
            }
            Ok(Err(faults)) => {
                self.report_refused(&Refused { source, faults }, report);
                None
            }
            Err(AllocError) => {
                report.out_of_memory(&source.name);
                None
            }
        }
    }

    /// Returns the output of a source, or its faults. Prints hints for unset variables.
    fn output_of(
        &self,
        source: &Source,
        report: &mut Report<'_>,
    ) -> Result<OrFaults<Vec<u8>>, AllocError>
        ensures gives { ForEntries self.now.expander.variables (λ entries. IfOk result (λ outcome.
            IfOk outcome (λ output. IsSourceOutput self.now.expander.formats
            self.now.expander.placeholders.now entries source.now output.items))) }
        ensures refused { ForEntries self.now.expander.variables (λ entries. IfOk result
            (λ outcome. IfErr outcome (λ faults. AreFaultsFor
            (format_of_source self.now.expander.formats source.now)
            self.now.expander.placeholders.now entries source.now.bytes.items faults.items))) }
        ensures status { report.new.worst ≡ report.old.worst }
    {
        if self.options.hints_unset {
            report.hint_unset(unset_hints(self.alloc, &self.expander, source)?)?;
        }
        self.expander.fill(self.alloc, source)
    }

    /// Reports the faults of a refused source.
    fn report_refused(&self, refused: &Refused, report: &mut Report<'_>)
        ensures { Raises report.old.worst report.new.worst REFUSED }
    {
        if report_refused(self.alloc, self.options, refused, report).is_err() {
            report.out_of_memory(&refused.source.name);
        }
    }

    /// Reports why nothing is written for a file.
    fn report_unwritten(&self, file: &str, why: &str, report: &mut Report<'_>)
        ensures { Raises report.old.worst report.new.worst DEVICE_FAILED }
    {
        if self.report_named(file, why, report).is_err() {
            report.out_of_memory("subst");
        }
    }

    /// Reports a file that can't be used, with the reason.
    fn report_named(&self, file: &str, why: &str, report: &mut Report<'_>) -> Result<(), AllocError>
        ensures { OnOk result (Raises report.old.worst report.new.worst DEVICE_FAILED) }
    {
        report.failed_since(&display_name(self.alloc, file)?, why)
    }

    /// Writes bytes to the file at a path, or reports why they can't be written.
    fn write<F: Files>(
        &self,
        template: Option<&str>,
        path: &str,
        bytes: &[u8],
        files: &mut F,
        report: &mut Report<'_>,
    )
        ensures { IsWriting path.now bytes.now (F.history files.old) (F.history files.new)
            report.old.worst report.new.worst }
    {
        if write(template, path, bytes, files, report).is_err() {
            report.out_of_memory("subst");
        }
    }
}
