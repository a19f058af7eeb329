//! The commits of a round, which are put on the device of the shelf below together.
ghost use Rattle.std.specs.Prelude.{◌≡◌, ◌++◌, ◌∷◌, [], List, IfOk, OnOk, OnErr};
ghost use Rattle.std.specs.Option.{option_copied};
ghost use Rattle.scim_cell.specs.Content.{Content};
ghost use Rattle.scim_shelf.specs.Stores.{Store, CanKeep, IsOld, changed};
ghost use Rattle.scim_shelf.specs.Collections.{IsCollection};
ghost use Rattle.scim_shelf_cache.specs.Caches.{IsCommitOf};
ghost use Rattle.scim_shelf_cache.specs.code.Rounds.{AreCommitsOf, IsNoted};

use scim_audit::AuditRow;
use scim_shelf::{Change, Collection, Commit};
use scim_text::{NoMemory, push};
use scim_value::Resource;
use std::alloc::Global;

/// A commit of the round under way, which the cache has made.
#[derive(Drop)]
pub(crate) struct RoundCommit {
    /// The user or group that had the id of the change just before it was made, if any. Ignored for
    /// `Change::Nothing`.
    pub(crate) old: Option<Resource>,
    pub(crate) change: Change,
    pub(crate) row: AuditRow,
}

impl RoundCommit {
    /// Returns the commit for the shelf below.
    fn as_commit(&self) -> Commit<'_>
        ensures { IsCommitOf self.now result }
    {
        Commit {
            old: self.old.as_ref(),
            change: &self.change,
            row: &self.row,
        }
    }
}

/// Returns the commits for the shelf below, in order.
pub(crate) fn commits_of(alloc: Global, own: &[RoundCommit]) -> Result<Vec<Commit<'_>>, NoMemory>
    ensures { IfOk result (λ commits. AreCommitsOf own.now commits.items) }
{
    let mut commits = Vec::with_capacity(alloc, own.len())?;
    for one in own {
        push(&mut commits, one.as_commit())?;
    }
    Ok(commits)
}

/// Returns a copy of the user or group that has the id of the change, if any.
fn copy_of_old(
    alloc: Global,
    resources: &Collection,
    change: &Change,
) -> Result<Option<Resource>, NoMemory>
    ensures { IfOk result (λ old. (cs : List Content) → IsCollection cs resources.now
        → IsOld cs change.now old) }
{
    match resources.old_of(change) {
        Some(old) => Ok(Some(old.try_copy(alloc)?)),
        None => Ok(None),
    }
}

/// Makes a change in the collection, and adds its commit to those of the round. On an error neither has changed.
pub(crate) fn commit_ahead(
    alloc: Global,
    resources: &mut Collection,
    commits: &mut Vec<RoundCommit>,
    change: Change,
    row: AuditRow,
) -> Result<(), NoMemory>
    ensures made { OnOk result ((store : Store) → IsCollection store.resources resources.old
        → CanKeep store change
        → IsCollection (changed change store.resources) resources.new) }
    ensures noted { OnOk result (IsNoted change row resources.old
        commits.old.items commits.new.items) }
    ensures unmade { OnErr result ((cs : List Content) → IsCollection cs resources.old
        → IsCollection cs resources.new) }
    ensures unnoted { OnErr result (commits.new.items ≡ commits.old.items) }
{
    let old = copy_of_old(alloc, resources, &change)?;
    let copy = change.try_copy(alloc)?;
    let noted = RoundCommit {
        old,
        change: copy,
        row,
    };
    push(commits, noted)?;
    match resources.make(alloc, change) {
        Ok(()) => Ok(()),
        Err(NoMemory) => {
            let _commit = commits.pop();
            Err(NoMemory)
        }
    }
}
