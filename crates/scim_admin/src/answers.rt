//! Carries out the requests of the administrator.
ghost use Rattle.std.specs.Prelude.{◌≡◌, List, None, Some, IfOk, IfErr, IsSome, IsTrue, false, is_some, codes, string_bytes};
ghost use Rattle.scim_shelf_cache.specs.Caches.{HasKeyed};
ghost use Rattle.scim_token.specs.TokenFile.{Entry};
ghost use Rattle.scim_token.specs.Tokens.{Knows};
ghost use Rattle.scim_token.specs.declared.token_table.Tokens.{Tokens};
ghost use Rattle.scim_hub.specs.Answering.{client_of};
ghost use Rattle.scim_admin.specs.Answers as spec;
ghost use Rattle.scim_admin.specs.Answers.{IsReplyTo, Tells, TellsAll, TellsRows, TellsWhy};
ghost use Rattle.scim_admin.specs.Replies.{IsUnauthorized, Says};
ghost use Rattle.scim_serve.specs.Peers.{KeepsClients};
ghost use Rattle.scim_admin.specs.Hubs.{KeepsHub, Reloads};
ghost use Rattle.scim_admin_streams.specs.Shelves.{KeepsShelf};

use crate::figures::metrics;
use crate::hosts::Host;
use crate::jobs::Job;
use crate::reloads::{log, reload};
use crate::replies::{Reply, plain, refused, streamed};
use crate::watching::ServerWatch;
use scim_admin_streams::{AuditJob, ExportJob, OpenShelf};
use scim_admin_text::{
    AdminRefusal, AdminRequest, AuditQuery, ExplainQuery, Parameter, Status, request_of,
};
use scim_audit::Refusal;
use scim_audit_listing::LineFormat;
use scim_command_database::{Question, told};
use scim_explain_paths::path_named;
use scim_filter_grammar::Meant;
use scim_hub::Hub;
use scim_serve::{Figures, Peers};
use scim_shelf::Shelf;
use scim_shelf_watch::WatchedShelf;
use scim_text::{Failed, NoMemory};
use scim_token::Tokens;
use scim_wire::Message;
use std::alloc::Global;

/// What the answers to the administrator's requests depend on and change, beside the server's hub.
pub(crate) struct Standing {
    /// The administrators' tokens; `None` if there is no administrator's port.
    pub(crate) tokens: Option<Tokens>,
    /// Whether another connection exports all resources.
    pub(crate) is_exporting: bool,
    /// Whether the administrator asked for the end.
    pub(crate) is_stopped: bool,
}

impl Drop for Standing {
    fn drop(self) {
        let Standing {
            tokens: _tokens,
            is_exporting: _,
            is_stopped: _,
        } = self;
    }
}

/// Whether the message has a token of an administrator.
fn is_admitted(tokens: &Option<Tokens>, message: &Message) -> bool
    ensures none { tokens.now ≡ None → result ≡ false }
    ensures known { (table : Tokens) (entries : List Entry) → tokens.now ≡ Some table
        → Knows entries table → result ≡ is_some (client_of entries message.now.token) }
{
    match (tokens, &message.token) {
        (Some(tokens), Some(token)) => tokens.client_of(token.as_slice()).is_some(),
        _ => false,
    }
}

/// Answers a message of the administrator. Without a token of an administrator, nothing is carried out.
///
/// After `NoMemory` the reply is lost; a reload may have been carried out.
pub(crate) fn answer<P: Peers, S: OpenShelf, H: Host>(
    alloc: Global,
    peers: &mut P,
    hub: &mut Hub<WatchedShelf<S, ServerWatch<H>>>,
    standing: &mut Standing,
    message: &Message,
) -> Result<Reply, NoMemory>
    ensures clients { IsTrue P.is_known → KeepsClients P.seen P.written P.takes_all P.is_closed
        peers.old peers.new }
    ensures reloads { Reloads ⟦<WatchedShelf<S, ServerWatch<H>> as Shelf>⟧.stands
        ⟦<WatchedShelf<S, ServerWatch<H>> as Shelf>⟧.is_honest ⟦<WatchedShelf<S, ServerWatch<H>> as Shelf>⟧.has_round H.gives hub.old hub.new }
    ensures refuses { (table : Tokens) (entries : List Entry)
        → standing.old.tokens ≡ Some table → Knows entries table
        → client_of entries message.now.token ≡ None
        → (hub.new ≡ hub.old) × (standing.new ≡ standing.old)
        × IfOk result (λ reply. IsUnauthorized (string_bytes reply.text)) }
    ensures closed { standing.old.tokens ≡ None → (hub.new ≡ hub.old)
        × (standing.new ≡ standing.old)
        × IfOk result (λ reply. IsUnauthorized (string_bytes reply.text)) }
    ensures tells { IfOk result (IsReplyTo ⟦<WatchedShelf<S, ServerWatch<H>> as Shelf>⟧.stands
        ⟦<WatchedShelf<S, ServerWatch<H>> as Shelf>⟧.is_honest
        ⟦<WatchedShelf<S, ServerWatch<H>> as Shelf>⟧.failures hub.old hub.new
        standing.old.is_exporting message.now) }
{
    if !is_admitted(&standing.tokens, message) {
        return refused(alloc, AdminRefusal::NoToken, message.close);
    }
    match request_of(alloc, message) {
        Ok(request) => carry_out(alloc, peers, hub, standing, request, message.close),
        Err(Failed::Because(refusal)) => refused(alloc, refusal, message.close),
        Err(Failed::NoMemory) => Err(NoMemory),
    }
}

/// Carries out a request of the administrator.
fn carry_out<P: Peers, S: OpenShelf, H: Host>(
    alloc: Global,
    peers: &mut P,
    hub: &mut Hub<WatchedShelf<S, ServerWatch<H>>>,
    standing: &mut Standing,
    request: AdminRequest,
    closes: bool,
) -> Result<Reply, NoMemory>
    ensures clients { IsTrue P.is_known → KeepsClients P.seen P.written P.takes_all P.is_closed
        peers.old peers.new }
    ensures reloads { Reloads ⟦<WatchedShelf<S, ServerWatch<H>> as Shelf>⟧.stands
        ⟦<WatchedShelf<S, ServerWatch<H>> as Shelf>⟧.is_honest ⟦<WatchedShelf<S, ServerWatch<H>> as Shelf>⟧.has_round H.gives hub.old hub.new }
    ensures tells { IfOk result (Tells ⟦<WatchedShelf<S, ServerWatch<H>> as Shelf>⟧.stands
        ⟦<WatchedShelf<S, ServerWatch<H>> as Shelf>⟧.is_honest
        ⟦<WatchedShelf<S, ServerWatch<H>> as Shelf>⟧.failures hub.old hub.new
        standing.old.is_exporting closes request) }
{
    match request {
        AdminRequest::Health => health(alloc, hub.shelf_mut(), closes),
        AdminRequest::Metrics => show_metrics(alloc, peers, hub, closes),
        AdminRequest::Audit(query) => list(alloc, hub.shelf_mut(), query, closes),
        AdminRequest::Explain(query) => explain(alloc, hub, &query, closes),
        AdminRequest::Export => export(alloc, hub.shelf_mut(), standing.is_exporting, closes),
        AdminRequest::Reload => reload(alloc, hub, &mut standing.tokens, closes),
        AdminRequest::Stop => {
            peers.stop();
            standing.is_stopped = true;
            log(hub.shelf_mut(), "the administrator stops the server");
            plain(alloc, Status::Ok, closes, "stopping\n")
        }
    }
}

/// Tells whether the server serves its clients.
fn health<S: OpenShelf, H: Host>(
    alloc: Global,
    shelf: &mut WatchedShelf<S, ServerWatch<H>>,
    closes: bool,
) -> Result<Reply, NoMemory>
    ensures keeps { KeepsShelf ⟦<WatchedShelf<S, ServerWatch<H>> as Shelf>⟧.stands
        ⟦<WatchedShelf<S, ServerWatch<H>> as Shelf>⟧.is_honest ⟦<WatchedShelf<S, ServerWatch<H>> as Shelf>⟧.has_round shelf.old shelf.new }
{
    if shelf.watcher().is_gone() {
        let body = "the database's files are gone\n";
        plain(alloc, Status::ServiceUnavailable, closes, body)
    } else {
        plain(alloc, Status::Ok, closes, "ok\n")
    }
}

/// Tells the figures.
fn show_metrics<P: Peers, S: OpenShelf, H: Host>(
    alloc: Global,
    peers: &P,
    hub: &mut Hub<WatchedShelf<S, ServerWatch<H>>>,
    closes: bool,
) -> Result<Reply, NoMemory>
    ensures keeps { KeepsHub ⟦<WatchedShelf<S, ServerWatch<H>> as Shelf>⟧.stands
        ⟦<WatchedShelf<S, ServerWatch<H>> as Shelf>⟧.is_honest ⟦<WatchedShelf<S, ServerWatch<H>> as Shelf>⟧.has_round hub.old hub.new }
{
    let figures = Figures {
        refused_tokens: hub.refused_tokens(),
        ..peers.figures()
    };
    let text = metrics(alloc, hub.shelf_mut(), &figures)?;
    plain(alloc, Status::Ok, closes, text.as_str())
}

/// Begins to list rows of the audit.
fn list<S: OpenShelf, H: Host>(
    alloc: Global,
    shelf: &mut WatchedShelf<S, ServerWatch<H>>,
    query: AuditQuery,
    closes: bool,
) -> Result<Reply, NoMemory>
    ensures keeps { KeepsShelf ⟦<WatchedShelf<S, ServerWatch<H>> as Shelf>⟧.stands
        ⟦<WatchedShelf<S, ServerWatch<H>> as Shelf>⟧.is_honest ⟦<WatchedShelf<S, ServerWatch<H>> as Shelf>⟧.has_round shelf.old shelf.new }
    ensures tells { IfOk result (TellsRows
        (⟦<WatchedShelf<S, ServerWatch<H>> as Shelf>⟧.stands shelf.old) query closes) }
{
    let content = content_of(query.format);
    let job = AuditJob::new(query, shelf.rows());
    streamed(alloc, content, closes, Job::audit(job, !closes))
}

/// Returns the media type of rows in this form.
fn content_of(format: LineFormat) -> &'static str
    ensures { result.now ≡ spec.content_of format }
{
    match format {
        LineFormat::Words => "text/plain; charset=utf-8",
        LineFormat::Json => "application/x-ndjson",
    }
}

/// Begins to export all resources, unless another connection does so.
fn export<S: OpenShelf, H: Host>(
    alloc: Global,
    shelf: &mut WatchedShelf<S, ServerWatch<H>>,
    is_exporting: bool,
    closes: bool,
) -> Result<Reply, NoMemory>
    ensures keeps { KeepsShelf ⟦<WatchedShelf<S, ServerWatch<H>> as Shelf>⟧.stands
        ⟦<WatchedShelf<S, ServerWatch<H>> as Shelf>⟧.is_honest ⟦<WatchedShelf<S, ServerWatch<H>> as Shelf>⟧.has_round shelf.old shelf.new }
    ensures tells { IfOk result (TellsAll
        (HasKeyed ⟦<WatchedShelf<S, ServerWatch<H>> as Shelf>⟧.stands)
        ⟦<WatchedShelf<S, ServerWatch<H>> as Shelf>⟧.is_honest
        ⟦<WatchedShelf<S, ServerWatch<H>> as Shelf>⟧.failures shelf.old shelf.new
        is_exporting closes) }
{
    if is_exporting {
        let body = "another export isn't finished\n";
        return plain(alloc, Status::ServiceUnavailable, closes, body);
    }
    match ExportJob::new(alloc, shelf) {
        Ok(job) => {
            let changes = shelf.watcher().commits().changes;
            let job = Job::export(job, changes, !closes);
            streamed(alloc, "application/json", closes, job)
        }
        Err(Failed::Because(_)) => unreadable(alloc, closes),
        Err(Failed::NoMemory) => Err(NoMemory),
    }
}

/// Returns the reply if the store can't be read.
fn unreadable(alloc: Global, closes: bool) -> Result<Reply, NoMemory>
    ensures { IfOk result (Says Status.InternalServerError (codes "the database can't be read\n")) }
{
    let body = "the database can't be read\n";
    plain(alloc, Status::InternalServerError, closes, body)
}

/// Returns the path that the query names, if it names one. Fails with `BadValue` if the kind has no attribute or
/// sub-attribute with this name.
fn path_of(query: &ExplainQuery) -> Result<Option<Meant>, AdminRefusal>
    ensures path { IfOk result (spec.IsPathOf query.now) }
    ensures fault { IfErr result (λ fault. IsSome query.now.path
        × (fault ≡ AdminRefusal.BadValue Parameter.Path)) }
{
    match &query.path {
        Some(text) => match path_named(query.kind, text.as_str()) {
            Some(path) => Ok(Some(path)),
            None => Err(AdminRefusal::BadValue(Parameter::Path)),
        },
        None => Ok(None),
    }
}

/// Explains a decision of the policy in force.
fn explain<S: OpenShelf, H: Host>(
    alloc: Global,
    hub: &mut Hub<WatchedShelf<S, ServerWatch<H>>>,
    query: &ExplainQuery,
    closes: bool,
) -> Result<Reply, NoMemory>
    ensures keeps { KeepsHub ⟦<WatchedShelf<S, ServerWatch<H>> as Shelf>⟧.stands
        ⟦<WatchedShelf<S, ServerWatch<H>> as Shelf>⟧.is_honest ⟦<WatchedShelf<S, ServerWatch<H>> as Shelf>⟧.has_round hub.old hub.new }
    ensures tells { IfOk result (TellsWhy ⟦<WatchedShelf<S, ServerWatch<H>> as Shelf>⟧.stands
        ⟦<WatchedShelf<S, ServerWatch<H>> as Shelf>⟧.is_honest
        ⟦<WatchedShelf<S, ServerWatch<H>> as Shelf>⟧.failures hub.old hub.new query.now) }
{
    let path = match path_of(query) {
        Ok(path) => path,
        Err(refusal) => return refused(alloc, refusal, closes),
    };
    match hub.shelf_mut().by_id(alloc, query.kind, query.id) {
        Ok(Some(resource)) => {
            let question = Question {
                client: query.client.as_str(),
                op: query.op,
                kind: query.kind,
                id: query.id,
                path,
            };
            let text = told(alloc, hub.policy(), &question, &resource)?;
            plain(alloc, Status::Ok, closes, text.as_str())
        }
        Ok(None) => plain(alloc, Status::NotFound, closes, "no such resource\n"),
        Err(Failed::Because(_)) => unreadable(alloc, closes),
        Err(Failed::NoMemory) => Err(NoMemory),
    }
}

/// Returns the reply to input that is no message.
pub(crate) fn refuse_input(alloc: Global, refusal: Refusal) -> Result<Reply, NoMemory> {
    match refusal {
        Refusal::TooLarge => plain(alloc, Status::ContentTooLarge, true, "body too long\n"),
        Refusal::UnknownCoding => {
            plain(
                alloc,
                Status::NotImplemented,
                true,
                "unknown transfer coding\n",
            )
        }
        _ => plain(alloc, Status::BadRequest, true, "not an HTTP request\n"),
    }
}
