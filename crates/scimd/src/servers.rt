//! The command `serve`: serves a database to many clients, and to an administrator.
use crate::audit_logs::AuditLog;
use crate::databases::with_database;
use crate::failures::Failure;
use crate::start_lines::{FileCounts, log_files, log_ports, log_start};
use crate::system_hosts::SystemHost;
use clap::ArgMatches;
use scim_admin::{Admin, AdminEnding, OpenShelf, ServerWatch};
use scim_cell::Text;
use scim_command::{
    CommandFault, LimitOptions, RunFault, ServeFiles, ServeOptions, serve_files_at,
};
use scim_command_database::{DatabaseWork, open_cached};
use scim_hub::Hub;
use scim_route::Routes;
use scim_serve::serve;
use scim_service::Service;
use scim_shelf::BatchShelf;
use scim_shelf_cache::CachedShelf;
use scim_shelf_watch::WatchedShelf;
use scim_sockets::{Limits, Sockets};
use scim_text::Failed;
use sqlite::{Alter, Connection};
use std::alloc::Global;
use std::io::Write;
use std::time::{Duration, Instant};

/// A shelf over a database as a server uses it: with a cache, and watched.
type ServedShelf<'o, T> = WatchedShelf<CachedShelf<T>, ServerWatch<SystemHost<'o>>>;

/// The command `serve` with its options, the contents of the policy and token files, and the audit log.
#[derive(Drop)]
struct Serving<'o> {
    rt: &'o HostRuntime,
    options: ServeOptions<'o>,
    base: Text,
    files: ServeFiles,
    audit_log: Option<AuditLog>,
    routes: Routes,
    start: Instant,
}

impl DatabaseWork for Serving<'_> {
    fn over<S: Alter + Drop, W: Write>(
        self,
        alloc: Global,
        connection: Connection<S>,
        _writer: &mut W,
    ) -> (Result<(), CommandFault>, Connection<S>) {
        let Serving {
            rt,
            options,
            base,
            files,
            audit_log,
            routes,
            start,
        } = self;
        let Ok(host) = SystemHost::new(rt, options, start, audit_log) else {
            return (Err(CommandFault::Run(RunFault::NoMemory)), connection);
        };
        match open_cached(alloc, connection, options.base, options.has_cache) {
            Ok(shelf) => {
                let mut shelf = shelf;
                let rows = shelf.lower_mut().audit_count();
                let shelf = WatchedShelf::over(shelf, ServerWatch::new(alloc, host), rows);
                let counts = FileCounts::of(&files);
                let ServeFiles {
                    policy,
                    tokens,
                    admin_tokens,
                } = files;
                let mut hub = Hub::new(alloc, routes, Service::new(policy, shelf, base), tokens);
                let mut admin = Admin::new(alloc, admin_tokens, options.has_cache);
                log_files(rt, &options, counts);
                log_start(rt, hub.shelf_mut(), start);
                let done = serve_at_ports(rt, &options, &mut hub, &mut admin);
                let shelf = hub.into_service().into_shelf().into_lower();
                (done, shelf.into_lower().into_connection())
            }
            Err((fault, connection)) => (Err(fault), connection),
        }
    }
}

/// Runs `serve`: serves a database, which is created if it doesn't exist. The policy and token files are read, and
/// the audit log is opened, before the database is opened.
pub(crate) fn run_serve(rt: &HostRuntime, matches: &ArgMatches<'_>) -> Result<(), Failure> {
    let options = ServeOptions::of(rt.alloc(), matches)?;
    let Ok(base) = Text::copy_of(rt.alloc(), options.base) else {
        return Err(Failure::from(CommandFault::Run(RunFault::NoMemory)));
    };
    let Ok(start) = Instant::now(rt) else {
        return Err(Failure::from(CommandFault::CannotServe));
    };
    let files = serve_files_at(rt, &options)?;
    let audit_log = audit_log_of(rt, &options)?;
    let Ok(routes) = Routes::new(rt.alloc()) else {
        return Err(Failure::from(CommandFault::Run(RunFault::NoMemory)));
    };
    let serving = Serving {
        rt,
        options,
        base,
        files,
        audit_log,
        routes,
        start,
    };
    with_database(rt, options.database, serving)
}

/// Opens the audit log, if the options name one. Fails with `CannotWrite` if it can't be opened.
fn audit_log_of(
    rt: &HostRuntime,
    options: &ServeOptions<'_>,
) -> Result<Option<AuditLog>, CommandFault> {
    let Some(path) = options.audit_log else {
        return Ok(None);
    };
    match AuditLog::open(rt, path) {
        Ok(log) => Ok(Some(log)),
        Err(_) => Err(CommandFault::cannot_write(rt.alloc(), path)),
    }
}

/// Listens on the ports, and serves all connections. Fails with `CannotListen` if the server can't listen on
/// a port, with `NoMemory` if memory runs out, and with the errors of [`serve_over`].
fn serve_at_ports<T: OpenShelf + BatchShelf>(
    rt: &HostRuntime,
    options: &ServeOptions<'_>,
    hub: &mut Hub<ServedShelf<'_, T>>,
    admin: &mut Admin,
) -> Result<(), CommandFault> {
    let admin_port = match options.admin {
        Some(admin) => Some(admin.port),
        None => None,
    };
    let (port, connections) = (options.port, options.connections);
    match Sockets::listen(rt, rt.alloc(), port, admin_port, connections) {
        Ok(sockets) => {
            let mut sockets = sockets;
            sockets.set_limits(limits_of(options.limits));
            log_ports(rt, sockets.port(), sockets.admin_port());
            serve_over(rt, &mut sockets, hub, admin)
        }
        Err(Failed::Because(_)) => Err(CommandFault::CannotListen),
        Err(Failed::NoMemory) => Err(CommandFault::Run(RunFault::NoMemory)),
    }
}

/// Returns the limits of connections that the options set.
fn limits_of(options: LimitOptions) -> Limits {
    Limits {
        idle: Duration::from_secs(options.idle_seconds),
        head: Duration::from_secs(options.head_seconds),
        message: Duration::from_secs(options.message_seconds),
        rate: options.reply_rate,
        memory: options.memory.saturating_mul(1 << 20),
    }
}

/// Prints the addresses that the server listens on, and serves all connections. Fails with `Output` if they
/// can't be printed, with `CannotServe` if serving fails, and with the errors of [`end_of`].
fn serve_over<T: OpenShelf + BatchShelf>(
    rt: &HostRuntime,
    sockets: &mut Sockets<'_, HostRuntime>,
    hub: &mut Hub<ServedShelf<'_, T>>,
    admin: &mut Admin,
) -> Result<(), CommandFault> {
    if print_addresses(rt, sockets.port(), sockets.admin_port()).is_err() {
        return Err(CommandFault::Run(RunFault::Output));
    }
    match serve(rt.alloc(), sockets, hub, admin) {
        Ok(_) => end_of(rt, admin.ending()),
        Err(_) => Err(CommandFault::CannotServe),
    }
}

/// Prints the address for clients, and that for the administrator, if there is one.
fn print_addresses(rt: &HostRuntime, port: u16, admin_port: Option<u16>) -> std::io::Result<()> {
    println!(rt; "listening on 127.0.0.1:{port}")?;
    match admin_port {
        Some(port) => println!(rt; "administrator on 127.0.0.1:{port}"),
        None => Ok(()),
    }
}

/// Returns how the program ends after a server that ended for this reason; `None` is the end of its last
/// connection. Fails with `FilesGone` or `StoreShut` if the server can't go on, and logs any other end.
fn end_of(rt: &HostRuntime, ending: Option<AdminEnding>) -> Result<(), CommandFault> {
    match ending {
        Some(AdminEnding::FilesGone) => Err(CommandFault::FilesGone),
        Some(AdminEnding::StoreShut) => Err(CommandFault::StoreShut),
        Some(AdminEnding::Stopped) => {
            let _printed = eprintln!(rt; "scimd: stopped by the administrator");
            Ok(())
        }
        None => {
            let _printed = eprintln!(rt; "scimd: stopped after the last connection");
            Ok(())
        }
    }
}
