//! The figures of a server.
ghost use Rattle.scim_admin_streams.specs.Shelves.{KeepsShelf};

use crate::hosts::Host;
use crate::watching::{CommitFigures, ServerWatch};
use scim_admin_streams::OpenShelf;
use scim_admin_text::{MetricKind, MetricTexts};
use scim_serve::Figures;
use scim_shelf::Shelf;
use scim_shelf_watch::WatchedShelf;
use scim_text::NoMemory;
use std::alloc::Global;

/// The figures of the store and its cache.
#[derive(Clone, Copy)]
struct StoreFigures {
    uptime: u64,
    resident: Option<u64>,
    rows: u64,
    commits: CommitFigures,
}

/// Returns the text of all figures. `figures` are those of the connections.
pub(crate) fn metrics<S: OpenShelf, H: Host>(
    alloc: Global,
    shelf: &mut WatchedShelf<S, ServerWatch<H>>,
    figures: &Figures,
) -> Result<String, NoMemory>
    ensures keeps { KeepsShelf ⟦<WatchedShelf<S, ServerWatch<H>> as Shelf>⟧.stands
        ⟦<WatchedShelf<S, ServerWatch<H>> as Shelf>⟧.is_honest ⟦<WatchedShelf<S, ServerWatch<H>> as Shelf>⟧.has_round shelf.old shelf.new }
{
    let store = StoreFigures {
        uptime: shelf.watcher_mut().uptime(),
        resident: shelf.resident(),
        rows: shelf.rows(),
        commits: shelf.watcher().commits(),
    };
    let mut texts = MetricTexts::new(alloc);
    add_store(&mut texts, &store)?;
    add_commits(&mut texts, &store.commits)?;
    add_connections(&mut texts, figures)?;
    add_closed(&mut texts, figures)?;
    texts.begin(
        "scimd_requests_total",
        MetricKind::Counter,
        "Requests with an audit row, by client, operation and decision.",
    )?;
    shelf.watcher().counts().add_to(&mut texts)?;
    Ok(texts.finish())
}

/// Appends the figures of the store and its cache.
fn add_store(texts: &mut MetricTexts, store: &StoreFigures) -> Result<(), NoMemory> {
    texts.seconds(
        "scimd_uptime_seconds",
        MetricKind::Gauge,
        "Seconds since the server began to serve.",
        store.uptime,
    )?;
    texts.metric(
        "scimd_cache_filled",
        MetricKind::Gauge,
        "Whether reads are served from memory: 1 or 0.",
        u64::from(store.resident.is_some()),
    )?;
    texts.metric(
        "scimd_resident_resources",
        MetricKind::Gauge,
        "Resources in memory.",
        store.resident.unwrap_or(0),
    )?;
    texts.metric(
        "scimd_audit_rows",
        MetricKind::Counter,
        "Rows of the audit.",
        store.rows,
    )
}

/// Appends the figures of commits.
fn add_commits(texts: &mut MetricTexts, commits: &CommitFigures) -> Result<(), NoMemory> {
    texts.metric(
        "scimd_commits_total",
        MetricKind::Counter,
        "Commits that succeeded.",
        commits.done,
    )?;
    texts.metric(
        "scimd_failed_commits_total",
        MetricKind::Counter,
        "Commits that failed.",
        commits.failed,
    )?;
    texts.seconds(
        "scimd_commit_seconds_total",
        MetricKind::Counter,
        "Seconds that commits took.",
        commits.nanos,
    )
}

/// Appends the figures of connections, and of refused tokens.
fn add_connections(texts: &mut MetricTexts, figures: &Figures) -> Result<(), NoMemory> {
    texts.metric(
        "scimd_refused_tokens_total",
        MetricKind::Counter,
        "Messages that were refused because no client has their token.",
        figures.refused_tokens,
    )?;
    texts.metric(
        "scimd_connections_open",
        MetricKind::Gauge,
        "Open connections of clients.",
        figures.clients,
    )?;
    texts.metric(
        "scimd_admin_connections_open",
        MetricKind::Gauge,
        "Open connections of the administrator.",
        figures.admins,
    )?;
    texts.metric(
        "scimd_connections_accepted_total",
        MetricKind::Counter,
        "Connections of clients that were accepted.",
        figures.accepted,
    )?;
    texts.metric(
        "scimd_waiting_bytes",
        MetricKind::Gauge,
        "Bytes of replies that connections haven't taken yet.",
        figures.bytes_waiting,
    )
}

/// Appends how many connections the server closed, by cause.
fn add_closed(texts: &mut MetricTexts, figures: &Figures) -> Result<(), NoMemory> {
    let name = "scimd_connections_closed_total";
    texts.begin(
        name,
        MetricKind::Counter,
        "Connections of clients that the server closed, by cause.",
    )?;
    texts.add_labelled(name, &[("cause", "late_head")], figures.late_heads)?;
    texts.add_labelled(name, &[("cause", "late_message")], figures.late_messages)?;
    texts.add_labelled(name, &[("cause", "late_reply")], figures.late_replies)?;
    texts.add_labelled(name, &[("cause", "gave_way")], figures.gave_way)?;
    texts.add_labelled(name, &[("cause", "memory")], figures.over_memory)
}
