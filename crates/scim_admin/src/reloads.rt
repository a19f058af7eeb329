//! Reads the policy and the token files again.
ghost use Rattle.std.specs.Prelude.{◌≡◌, ℕ, List, IfOk, Some};
ghost use Rattle.scim_hub.specs.HubSetting.{with_hub_setting};
ghost use Rattle.scim_admin.specs.Hubs.{Reloads};
ghost use Rattle.scim_admin.specs.Reloads.{HasKnownTokens, TellsReload};
ghost use Rattle.scim_admin.specs.Replies.{Says};
ghost use Rattle.scim_admin_streams.specs.Shelves.{KeepsShelf};

use crate::hosts::{Host, Setting};
use crate::replies::{Reply, plain};
use crate::watching::ServerWatch;
use scim_admin_streams::OpenShelf;
use scim_admin_text::Status;
use scim_hub::Hub;
use scim_shelf::Shelf;
use scim_shelf_watch::WatchedShelf;
use scim_text::NoMemory;
use scim_token::Tokens;
use std::alloc::Global;

/// Asks the host to read the policy and the token files again.
fn read_again<S: OpenShelf, H: Host>(
    alloc: Global,
    shelf: &mut WatchedShelf<S, ServerWatch<H>>,
) -> Result<Setting, String>
    ensures keeps { KeepsShelf ⟦<WatchedShelf<S, ServerWatch<H>> as Shelf>⟧.stands
        ⟦<WatchedShelf<S, ServerWatch<H>> as Shelf>⟧.is_honest ⟦<WatchedShelf<S, ServerWatch<H>> as Shelf>⟧.has_round shelf.old shelf.new }
    ensures known { IfOk result HasKnownTokens }
    ensures given { IfOk result (λ s. (host : H) × H.gives host s) }
{
    shelf.watcher_mut().reload(alloc)
}

/// Writes a line for the operator.
pub(crate) fn log<S: OpenShelf, H: Host>(shelf: &mut WatchedShelf<S, ServerWatch<H>>, line: &str)
    ensures keeps { KeepsShelf ⟦<WatchedShelf<S, ServerWatch<H>> as Shelf>⟧.stands
        ⟦<WatchedShelf<S, ServerWatch<H>> as Shelf>⟧.is_honest ⟦<WatchedShelf<S, ServerWatch<H>> as Shelf>⟧.has_round shelf.old shelf.new }
{
    shelf.watcher_mut().log(line);
}

/// Reads the policy and both token files again, and puts them into force if all are valid; otherwise nothing
/// changes. Logs what came of it.
pub(crate) fn reload<S: OpenShelf, H: Host>(
    alloc: Global,
    hub: &mut Hub<WatchedShelf<S, ServerWatch<H>>>,
    admin_tokens: &mut Option<Tokens>,
    closes: bool,
) -> Result<Reply, NoMemory>
    ensures reloads { Reloads ⟦<WatchedShelf<S, ServerWatch<H>> as Shelf>⟧.stands
        ⟦<WatchedShelf<S, ServerWatch<H>> as Shelf>⟧.is_honest ⟦<WatchedShelf<S, ServerWatch<H>> as Shelf>⟧.has_round H.gives hub.old hub.new }
    ensures tells { IfOk result (TellsReload H.gives hub.old hub.new
        admin_tokens.old admin_tokens.new) }
{
    match read_again(alloc, hub.shelf_mut()) {
        Ok(setting) => {
            let reply = accept(alloc, hub.shelf_mut(), setting.summary.as_str(), closes)?;
            apply(hub, admin_tokens, setting);
            Ok(reply)
        }
        Err(fault) => reject(alloc, hub.shelf_mut(), fault.as_str(), closes),
    }
}

/// Logs that a setting is put into force, and returns the reply. Fails before anything is logged.
fn accept<S: OpenShelf, H: Host>(
    alloc: Global,
    shelf: &mut WatchedShelf<S, ServerWatch<H>>,
    summary: &str,
    closes: bool,
) -> Result<Reply, NoMemory>
    ensures keeps { KeepsShelf ⟦<WatchedShelf<S, ServerWatch<H>> as Shelf>⟧.stands
        ⟦<WatchedShelf<S, ServerWatch<H>> as Shelf>⟧.is_honest ⟦<WatchedShelf<S, ServerWatch<H>> as Shelf>⟧.has_round shelf.old shelf.new }
    ensures says { IfOk result (λ reply. (body : List ℕ) × Says Status.Ok body reply) }
{
    let line = format!(in alloc; "reload: ok, {summary}")?;
    let body = format!(in alloc; "ok, {summary}\n")?;
    let reply = plain(alloc, Status::Ok, closes, body.as_str())?;
    log(shelf, line.as_str());
    Ok(reply)
}

/// Logs why the files aren't put into force, and returns the reply.
fn reject<S: OpenShelf, H: Host>(
    alloc: Global,
    shelf: &mut WatchedShelf<S, ServerWatch<H>>,
    fault: &str,
    closes: bool,
) -> Result<Reply, NoMemory>
    ensures keeps { KeepsShelf ⟦<WatchedShelf<S, ServerWatch<H>> as Shelf>⟧.stands
        ⟦<WatchedShelf<S, ServerWatch<H>> as Shelf>⟧.is_honest ⟦<WatchedShelf<S, ServerWatch<H>> as Shelf>⟧.has_round shelf.old shelf.new }
    ensures says { IfOk result (λ reply. (body : List ℕ) × Says Status.Conflict body reply) }
{
    let line = format!(in alloc; "reload: {fault}; the old files stay in force")?;
    log(shelf, line.as_str());
    let body = format!(in alloc; "{fault}\n")?;
    plain(alloc, Status::Conflict, closes, body.as_str())
}

/// Puts a setting into force.
fn apply<S: Shelf>(hub: &mut Hub<S>, admin_tokens: &mut Option<Tokens>, setting: Setting)
    ensures hub { hub.new ≡ with_hub_setting hub.old setting.policy setting.tokens }
    ensures admins { admin_tokens.new ≡ Some setting.admin_tokens }
{
    let Setting {
        policy,
        tokens,
        admin_tokens: admins,
        summary: _summary,
    } = setting;
    hub.reload(policy, tokens);
    *admin_tokens = Some(admins);
}
