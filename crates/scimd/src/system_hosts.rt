//! The system, as the administrator's port needs it.
ghost use Rattle.std.specs.Prelude.{IfOk};
ghost use Rattle.scim_admin.specs.Reloads.{HasKnownTokens};
ghost use Rattle.scim_command.specs.ServeFiles.{AreOfServeFiles};

use crate::audit_logs::AuditLog;
use crate::database_files::DatabaseFiles;
use crate::start_lines::FileCounts;
use scim_admin::{Host, Setting};
use scim_command::{CommandFault, OneLine, RunFault, ServeFiles, ServeOptions, serve_files_at};
use scim_text::NoMemory;
use std::alloc::Global;
use std::time::Instant;

/// The system that a server runs on: its clock, the files that the options name, and standard error.
#[derive(Drop)]
pub(crate) struct SystemHost<'o> {
    rt: &'o HostRuntime,
    options: ServeOptions<'o>,
    start: Instant,
    // The nanoseconds from the start to the last look at the clock.
    nanos: u64,
    files: DatabaseFiles<'o>,
    audit_log: Option<AuditLog>,
}

impl<'o> SystemHost<'o> {
    /// Returns the system for a server that was started at this moment. The files of its database are those that
    /// are there now, so the database must be open.
    pub(crate) fn new(
        rt: &'o HostRuntime,
        options: ServeOptions<'o>,
        start: Instant,
        audit_log: Option<AuditLog>,
    ) -> Result<SystemHost<'o>, NoMemory> {
        let files = DatabaseFiles::at(rt, options.database)?;
        Ok(SystemHost {
            rt,
            options,
            start,
            nanos: 0,
            files,
            audit_log,
        })
    }
}

impl Host for SystemHost<'_> {
    /// Returns the nanoseconds since the start of the server, 2^64 - 1 at most. If the clock can't be read, they are
    /// those of the last look at it.
    fn nanos(&mut self) -> u64 {
        if let Ok(passed) = self.start.elapsed(self.rt) {
            self.nanos = u64::try_from(passed.as_nanos()).unwrap_or(u64::MAX);
        }
        self.nanos
    }

    fn has_files(&mut self) -> bool {
        self.files.are_there(self.rt)
    }

    fn append(&mut self, line: &str) {
        if let Some(log) = &mut self.audit_log {
            log.append(self.rt, line);
        }
    }

    fn log(&mut self, line: &str) {
        let _printed = eprintln!(self.rt; "scimd: {}", OneLine(line));
    }

    fn reload(&mut self, alloc: Global) -> Result<Setting, String> {
        match serve_files_at(self.rt, &self.options) {
            Ok(files) => setting_of(alloc, files),
            Err(fault) => Err(line_of(alloc, &fault)),
        }
    }
}

/// Returns the setting that the files give. Fails with a line for people if memory runs out, or if there are no
/// tokens of administrators.
fn setting_of(alloc: Global, files: ServeFiles) -> Result<Setting, String>
    requires { AreOfServeFiles files }
    ensures { IfOk result HasKnownTokens }
{
    let counts = FileCounts::of(&files);
    let ServeFiles {
        policy,
        tokens,
        admin_tokens,
    } = files;
    let Some(admin_tokens) = admin_tokens else {
        return Err(line_of(alloc, &CommandFault::BadOption));
    };
    match format!(in alloc; "{counts}") {
        Ok(summary) => Ok(Setting {
            policy,
            tokens,
            admin_tokens,
            summary,
        }),
        Err(_) => Err(line_of(alloc, &CommandFault::Run(RunFault::NoMemory))),
    }
}

/// Returns the line of an error for people; an empty one if memory runs out.
fn line_of(alloc: Global, fault: &CommandFault) -> String {
    match format!(in alloc; "{fault}") {
        Ok(line) => line,
        Err(_) => String::new(alloc),
    }
}
