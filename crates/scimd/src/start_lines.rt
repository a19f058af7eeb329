//! The lines on standard error that tell the operator how a server was started. A line that can't be printed is
//! left out.
use crate::system_hosts::SystemHost;
use scim_admin::ServerWatch;
use scim_command::{OneLine, ServeFiles, ServeOptions, VERSION};
use scim_shelf::BatchShelf;
use scim_shelf_cache::CachedShelf;
use scim_shelf_watch::WatchedShelf;
use std::fmt;
use std::time::Instant;

/// How many rules and tokens the files of a server have.
#[derive(Clone, Copy)]
pub(crate) struct FileCounts {
    rules: usize,
    tokens: usize,
    /// `None` if no administrator is served.
    admin_tokens: Option<usize>,
}

impl FileCounts {
    /// Returns the counts for these files.
    pub(crate) fn of(files: &ServeFiles) -> FileCounts {
        FileCounts {
            rules: files.policy.rules(),
            tokens: files.tokens.count(),
            admin_tokens: match &files.admin_tokens {
                Some(tokens) => Some(tokens.count()),
                None => None,
            },
        }
    }
}

impl fmt::Display for FileCounts {
    fn fmt<W: fmt::Write>(&self, f: &mut fmt::Formatter<W>) -> fmt::Result {
        write!(f, "rules: {}, tokens: {}", self.rules, self.tokens)?;
        match self.admin_tokens {
            Some(count) => write!(f, ", admin tokens: {count}"),
            None => Ok(()),
        }
    }
}

/// Logs which files the server was started with, and what is in them.
pub(crate) fn log_files(rt: &HostRuntime, options: &ServeOptions<'_>, counts: FileCounts) {
    let _printed = eprintln!(rt; "scimd: version {VERSION}");
    let _printed = eprintln!(rt; "scimd: policy {}", OneLine(options.policy));
    let _printed = eprintln!(rt; "scimd: tokens {}", OneLine(options.tokens));
    if let Some(admin) = options.admin {
        let _printed = eprintln!(rt; "scimd: admin tokens {}", OneLine(admin.tokens));
    }
    let _printed = eprintln!(rt; "scimd: {counts}");
    let _printed = eprintln!(rt; "scimd: database {}", OneLine(options.database));
    if let Some(path) = options.audit_log {
        let _printed = eprintln!(rt; "scimd: audit log {}", OneLine(path));
    }
}

/// Logs what is in the database, and how long the start took.
pub(crate) fn log_start<T: BatchShelf>(
    rt: &HostRuntime,
    shelf: &mut WatchedShelf<CachedShelf<T>, ServerWatch<SystemHost<'_>>>,
    start: Instant,
) {
    let rows = shelf.rows();
    match shelf.lower_mut().cached() {
        Some(count) => {
            let _printed = eprintln!(rt; "scimd: resources: {count}, audit rows: {rows}");
        }
        None => {
            let _printed = eprintln!(rt; "scimd: resources: not cached, audit rows: {rows}");
        }
    }
    if let Ok(passed) = start.elapsed(rt) {
        let _printed = eprintln!(rt; "scimd: started in {} ms", passed.as_millis());
    }
}

/// Logs the ports that the server listens on. `admin_port` is that of the administrator, if there is one.
pub(crate) fn log_ports(rt: &HostRuntime, port: u16, admin_port: Option<u16>) {
    let _printed = eprintln!(rt; "scimd: port {port}");
    if let Some(port) = admin_port {
        let _printed = eprintln!(rt; "scimd: admin port {port}");
    }
}
