//! Runs a server with an administrator's port over a database in memory.
use crate::scripted_hosts::{Files, ScriptedHost, Texts};
use crate::scripted_peers::ScriptedPeers;
use crate::turns::turns_of;
use case_stores::{
    Audited, OverDatabase, StoreFault, base_of, cached, filled, over_new_database, told_or_fault,
};
use case_values::{Case, CaseFault, debugged, push_rows_after};
use scim_admin::{Admin, OpenShelf, ServerWatch};
use scim_cell::Text;
use scim_hub::Hub;
use scim_route::Routes;
use scim_serve::serve;
use scim_service::Service;
use scim_shelf::BatchShelf;
use scim_shelf_cache::CachedShelf;
use scim_shelf_watch::WatchedShelf;
use sqlite::{Alter, Connection};

/// Returns the outputs of a server for the turns of a case, one on a line: what was written to connections of
/// the administrator, in the format of `replay`; `stop`; why the server ended; and the lines for the operator.
/// Behind them come the lines of the log of the audit if the case has `audit_log`, and the rows of the audit if
/// it has `audit`.
pub fn answered(case: &Case<'_>) -> Result<String, CaseFault> {
    told_or_fault(case.alloc, over_new_database(case, &Administered))
}

/// A server with an administrator's port.
struct Administered;

impl OverDatabase for Administered {
    fn over<S: Alter + Drop>(
        &self,
        case: &Case<'_>,
        connection: Connection<S>,
    ) -> Result<String, StoreFault> {
        let parts = Parts::of(case)?;
        let shelf = filled(case, "users", connection)?;
        served(case, parts, with_cache(case, shelf)?)
    }
}

/// Returns a store with a cache, which isn't filled yet if the case is `unfilled`.
fn with_cache<S: Audited + BatchShelf>(
    case: &Case<'_>,
    shelf: S,
) -> Result<CachedShelf<S>, StoreFault> {
    if case.is_true("unfilled") {
        Ok(CachedShelf::over(shelf))
    } else {
        cached(case.alloc, shelf)
    }
}

/// What a server consists of, besides its store.
#[derive(Drop)]
struct Parts {
    base: Text,
    routes: Routes,
    files: Files,
    host: ScriptedHost,
    peers: ScriptedPeers,
}

impl Parts {
    /// Returns the parts of the server of a case. Fails with `Missing` if one of its files isn't valid.
    fn of(case: &Case<'_>) -> Result<Parts, CaseFault> {
        let Ok(files) = Texts::of(case)?.read(case.alloc) else {
            return Err(CaseFault::Missing("policy, tokens or admin_tokens"));
        };
        Ok(Parts {
            base: Text::copy_of(case.alloc, base_of(case))?,
            routes: Routes::new(case.alloc)?,
            files,
            host: host_of(case)?,
            peers: peers_of(case)?,
        })
    }
}

/// Returns the system of a case. It finds the files of the database `files` times, by default always, and reads
/// the texts of [`Texts::then`] when the setting is read again.
fn host_of(case: &Case<'_>) -> Result<ScriptedHost, CaseFault> {
    let files = case.count("files").unwrap_or(usize::MAX);
    Ok(ScriptedHost::new(case.alloc, files, Texts::then(case)?))
}

/// Returns the connections of a case. Those of the administrator take `step` bytes at a call, by default all.
fn peers_of(case: &Case<'_>) -> Result<ScriptedPeers, CaseFault> {
    let step = case.count("step").unwrap_or(usize::MAX);
    let shows_clients = case.is_true("shows_clients");
    Ok(ScriptedPeers::new(case.alloc, turns_of(case)?, step, shows_clients))
}

/// Runs a server over a store, which has no audit rows, and closes the store.
fn served<S: Audited + OpenShelf>(
    case: &Case<'_>,
    parts: Parts,
    shelf: S,
) -> Result<String, StoreFault> {
    let Parts {
        base,
        routes,
        files,
        host,
        peers,
    } = parts;
    let Files {
        policy,
        tokens,
        admin_tokens,
    } = files;
    let shelf = WatchedShelf::over(shelf, ServerWatch::new(case.alloc, host), 0);
    let service = Service::new(policy, shelf, base);
    let mut hub = Hub::new(case.alloc, routes, service, tokens);
    let has_cache = !case.is_true("without_cache");
    let mut admin = Admin::new(case.alloc, Some(admin_tokens), has_cache);
    let text = run(case, peers, &mut hub, &mut admin);
    hub.into_service().into_shelf().into_lower().close();
    text
}

/// Runs a server, and returns its outputs.
fn run<S: Audited + OpenShelf>(
    case: &Case<'_>,
    peers: ScriptedPeers,
    hub: &mut Hub<WatchedShelf<S, ServerWatch<ScriptedHost>>>,
    admin: &mut Admin,
) -> Result<String, StoreFault> {
    let mut peers = peers;
    if serve(case.alloc, &mut peers, hub, admin).is_err() {
        return Err(StoreFault::Case(CaseFault::NoMemory));
    }
    let mut text = outputs(case, peers, admin)?;
    push_lines(case, hub.shelf_mut(), &mut text)?;
    Ok(text)
}

/// Returns the outputs to the connections, and why the server ended.
fn outputs(case: &Case<'_>, peers: ScriptedPeers, admin: &Admin) -> Result<String, CaseFault> {
    let mut outputs = peers.into_outputs();
    if let Some(ending) = admin.ending() {
        let ending = debugged(case.alloc, &ending)?;
        outputs.push("ended ", ending.as_str())?;
    }
    outputs.finish()
}

/// Appends the lines that the system got, and the rows of the audit if the case has them.
fn push_lines<S: Audited>(
    case: &Case<'_>,
    shelf: &mut WatchedShelf<S, ServerWatch<ScriptedHost>>,
    text: &mut String,
) -> Result<(), StoreFault> {
    let host = shelf.watcher_mut().host_mut();
    text.push_str(host.log())?;
    if case.has("audit_log") {
        text.push_str(host.audit_log())?;
    }
    if case.has("audit") {
        let rows = shelf.lower_mut().rows_after(case.alloc, 0)?;
        push_rows_after(case.alloc, 0, rows.as_slice(), text)?;
    }
    Ok(())
}
