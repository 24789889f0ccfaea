//! The diagnostics of a run, on standard error, and its exit status.

ghost use Rattle.std.specs.Prelude.{◌≡◌, ◌==◌, ◌≤◌, OnOk};
ghost use Rattle.subst_cli.specs.Status.{Raises, status_of, worse};

use std::alloc::AllocError;
use std::collections::HashSet;
use std::io;
use std::io::Write;
use subst_expander::hints::UnsetHint;
use subst_expander::terminal::printable;
use subst_filter_lib::status::{DEVICE_FAILED, DONE, OUT_OF_MEMORY, REFUSED, WRONG_ARGUMENTS};

/// The severity of an event, which decides the exit status.
#[derive(Clone, Copy, PartialEq, Eq)]
pub(crate) enum Severity {
    /// No error.
    Nothing,
    /// A source is refused.
    Refusal,
    /// The arguments are wrong.
    Misuse,
    /// Reading or writing failed.
    Failure,
    /// Out of memory.
    Exhaustion,
}

impl Severity {
    /// Returns the exit status of a run with this severity.
    fn status(self) -> u8
        ensures value { result ≡ status_of self }
        ensures known { result ≤ OUT_OF_MEMORY }
    {
        match self {
            Severity::Nothing => DONE,
            Severity::Refusal => REFUSED,
            Severity::Misuse => WRONG_ARGUMENTS,
            Severity::Failure => DEVICE_FAILED,
            Severity::Exhaustion => OUT_OF_MEMORY,
        }
    }
}

/// The report of a run: its diagnostics and hints, and the highest severity so far.
#[derive(Drop)]
pub(crate) struct Report<'r> {
    rt: &'r HostRuntime,
    worst: Severity,
    /// Whether `hint` has printed a hint.
    is_hinted: bool,
    /// The names of unset variables for which a hint has been printed.
    unset: HashSet<String>,
}

impl<'r> Report<'r> {
    /// Returns an empty report.
    pub fn new(rt: &'r HostRuntime) -> Self {
        Report {
            rt,
            worst: Severity::Nothing,
            is_hinted: false,
            unset: HashSet::new(rt.alloc()),
        }
    }

    /// Returns whether no error has been reported.
    pub fn is_empty(&self) -> bool
        ensures { result ≡ (status_of self.now.worst == DONE) }
    {
        self.worst.status() == DONE
    }

    /// Returns the exit status of the run: the highest of all reported events.
    pub fn status(&self) -> u8
        ensures value { result ≡ status_of self.now.worst }
        ensures known { result ≤ OUT_OF_MEMORY }
    {
        self.worst.status()
    }

    /// Reports the refusal of a source, with these messages for its faults.
    pub fn refused(&mut self, messages: &str)
        ensures { self.new.worst ≡ worse self.old.worst Severity.Refusal }
    {
        self.print(Severity::Refusal, messages);
    }

    /// Reports wrong arguments.
    pub fn wrong_arguments(&mut self, message: &str)
        ensures { self.new.worst ≡ worse self.old.worst Severity.Misuse }
    {
        self.print(Severity::Misuse, message);
    }

    /// Reports a failed file or device with the system's message. If the error is out of memory, reports that
    /// instead.
    ///
    /// # Errors
    ///
    /// If allocation fails.
    pub fn failed(&mut self, name: &str, e: &io::Error) -> Result<(), AllocError>
        ensures { OnOk result (Raises self.old.worst self.new.worst DEVICE_FAILED) }
    {
        if e.kind() == io::ErrorKind::OutOfMemory {
            self.out_of_memory(name);
            return Ok(());
        }
        let alloc = self.rt.alloc();
        let text = format!(in alloc; "{e}")?;
        let cause = printable(alloc, without_code(&text).as_bytes())?;
        let message = format!(in alloc; "{name}: error: {cause}\n")?;
        self.print(Severity::Failure, &message);
        Ok(())
    }

    /// Reports a file that can't be used, with the reason.
    ///
    /// # Errors
    ///
    /// If allocation fails.
    pub fn failed_since(&mut self, name: &str, why: &str) -> Result<(), AllocError>
        ensures { OnOk result (self.new.worst ≡ worse self.old.worst Severity.Failure) }
    {
        let message = format!(in self.rt.alloc(); "{name}: error: {why}\n")?;
        self.print(Severity::Failure, &message);
        Ok(())
    }

    /// Prints a hint if there is one, unless an earlier call has printed one. The exit status is unchanged.
    pub fn hint(&mut self, hint: Option<&str>)
        ensures { self.new.worst ≡ self.old.worst }
    {
        if let Some(text) = hint
            && !self.is_hinted
        {
            self.is_hinted = true;
            let _ = self.rt.stderr().write_all(text.as_bytes());
        }
    }

    /// Prints hints for unset variables, at most one for each name in a run. The exit status is unchanged.
    ///
    /// # Errors
    ///
    /// If allocation fails.
    pub fn hint_unset(&mut self, hints: Vec<UnsetHint>) -> Result<(), AllocError>
        ensures { self.new.worst ≡ self.old.worst }
    {
        for UnsetHint { name, line } in hints {
            if !self.unset.contains(&name) {
                let _ = self.rt.stderr().write_all(line.as_bytes());
                self.unset.insert(name)?;
            }
        }
        Ok(())
    }

    /// Reports out of memory, without allocating. `name` is the name of a file or of the program.
    pub fn out_of_memory(&mut self, name: &str)
        ensures { self.new.worst ≡ Severity.Exhaustion }
    {
        self.print(Severity::Exhaustion, name);
        self.print(Severity::Exhaustion, ": error: out of memory\n");
    }

    /// Writes a text to standard error, and raises the severity of the report to at least `worst`. A failed
    /// write is ignored.
    fn print(&mut self, worst: Severity, text: &str)
        ensures { self.new.worst ≡ worse self.old.worst worst }
    {
        let _ = self.rt.stderr().write_all(text.as_bytes());
        if self.worst.status() < worst.status() {
            self.worst = worst;
        }
    }
}

/// Returns the system's message of an error, without the error's number.
fn without_code(text: &str) -> &str {
    match text.split_once(" (os error ") {
        Some((message, _)) => message,
        None => text,
    }
}
