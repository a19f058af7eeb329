//! Merges the resources of a users file into a shelf.
ghost use Rattle.std.specs.Prelude.{◌≡◌, ◌≢◌, ◌≤◌, ◌+◌, ℕ, List, Err, IfOk, OnOk, OnErr, All, length};
ghost use Rattle.scim_cell.specs.Content.{Content};
ghost use Rattle.scim_json.specs.declared.faults.DamagedItem.{DamagedItem};
ghost use Rattle.scim_json.specs.Documents.{IsDamagedAt, IsDocumentsText};
ghost use Rattle.scim_json.specs.Stored.{IsResourceBelow};
ghost use Rattle.scim_shelf.specs.Shelves.{KeepsRound, settled};
ghost use Rattle.scim_shelf.specs.Stores.{Store, IsStore};
ghost use Rattle.scim_shelf_merge.specs.declared.faults.Clash.{Clash};
ghost use Rattle.scim_shelf_merge.specs.declared.faults.MergeFault.{MergeFault};
ghost use Rattle.scim_shelf_merge.specs.Faults.{CountsFailures};
ghost use Rattle.scim_shelf_merge.specs.Merging as spec;
ghost use Rattle.scim_shelf_merge.specs.Merged.{HasMerged, IsStoppedAt, IsUnmerged};

use crate::faults::MergeFault;
use crate::outcomes::{Outcome, merge_one};
use scim_json::read_documents;
use scim_shelf::Shelf;
use scim_text::Moment;
use scim_value::Resource;
use std::alloc::Global;

/// How many resources of a users file a merge has created, replaced and found as they are.
#[derive(Clone, Copy, Debug, PartialEq, Eq)]
pub struct MergeCount {
    pub created: usize,
    pub replaced: usize,
    pub unchanged: usize,
}

impl MergeCount {
    /// The count before the first resource.
    const NONE: MergeCount = MergeCount {
        created: 0,
        replaced: 0,
        unchanged: 0,
    };

    /// Returns the count with one more resource, of which this became.
    fn and(self, outcome: Outcome) -> MergeCount
        requires { self.created + self.replaced + self.unchanged + 1 ≤ usize.MAX }
        ensures { result ≡ spec.counted outcome self }
    {
        match outcome {
            Outcome::Created => MergeCount {
                created: self.created + 1,
                ..self
            },
            Outcome::Replaced => MergeCount {
                replaced: self.replaced + 1,
                ..self
            },
            Outcome::Unchanged => MergeCount {
                unchanged: self.unchanged + 1,
                ..self
            },
            Outcome::Clashes(_) => self,
        }
    }
}

/// Merges the resources into the shelf, in order. Each commit stands by itself or belongs to the round that is
/// under way.
///
/// Fails with `Clash` at the first resource that can't be merged, or as the shelf does. On an error the
/// resources before the one that failed are merged.
fn merge_all<H: Shelf>(
    alloc: Global,
    shelf: &mut H,
    resources: &[Resource],
    now: Moment,
    client: &str,
) -> Result<MergeCount, MergeFault>
    ensures merged { IfOk result (λ count. (base : List ℕ) (store : Store)
        → H.stands shelf.old store → H.is_honest shelf.new
        → IsStore base store → All (IsResourceBelow base) resources.now
        → (new : Store)
        × (spec.merged now client.now 1 resources.now store spec.none ≡ spec.done new count)
        × H.stands shelf.new new × IsStore base new) }
    ensures clash { (item : ℕ) (clash : Clash) → result ≡ Err (MergeFault.Clash item clash)
        → (base : List ℕ) (store : Store)
        → H.stands shelf.old store → H.is_honest shelf.new
        → IsStore base store → All (IsResourceBelow base) resources.now
        → spec.merged now client.now 1 resources.now store spec.none ≡ spec.stopped item clash }
    ensures later { OnErr result (((item : DamagedItem) → result ≢ Err (MergeFault.Users item))
        × (result ≢ Err MergeFault.NoRound)) }
    ensures round { KeepsRound H.has_round shelf.old shelf.new }
    ensures honest { H.is_honest shelf.new → H.is_honest shelf.old }
    ensures counts { CountsFailures (H.failures shelf.old) (H.failures shelf.new) result }
{
    let mut count = MergeCount::NONE;
    for (index, resource) in resources.iter().enumerate() {
        let outcome = merge_one(alloc, shelf, resource, now, client)?;
        if let Outcome::Clashes(clash) = outcome {
            return Err(MergeFault::Clash(index + 1, clash));
        }
        count = count.and(outcome);
    }
    Ok(count)
}

/// Merges a users file into the shelf, in one round. The file is a JSON list of stored documents of resources
/// below `base`. Each resource, in the order of the file, is
///
/// - created if neither a user nor a group has its id;
/// - a replacement of the stored resource of its kind and id, if that differs from it;
/// - left as it is if it is stored so.
///
/// Each resource that is created or replaced leaves an audit row with the moment `now` and the client
/// `client`: the operation `create` or `modify`, allowed, and no rule. Returns how many resources were
/// created, replaced and unchanged.
///
/// Fails with `Users` if the file is invalid, and with `NoRound` if the shelf can't begin a round, as when one
/// is under way; then nothing has changed. Fails with `Clash` at the first resource whose id a resource of the
/// other kind has, or one of whose unique names another resource has (RFC 7643 section 2.2), and with `Shelf`
/// or `NoMemory` if the shelf or memory fails. Then nothing is put on the device; unless the end of the round
/// failed, the round is still under way, and the caller must drop the shelf.
pub fn merge<H: Shelf>(
    alloc: Global,
    shelf: &mut H,
    base: &str,
    users: &str,
    now: Moment,
    client: &str,
) -> Result<MergeCount, MergeFault>
    ensures merged { IfOk result (λ count. (store : Store) → H.stands shelf.old store
        → H.is_honest shelf.new → IsStore base.now store
        → HasMerged H.stands base.now users.now now client.now store count shelf.new) }
    ensures settled { OnOk result ((store : Store) → H.stands shelf.old store
        → H.has_round shelf.old settled → H.has_round shelf.new settled) }

    // On an error nothing is put on the device.
    ensures unmerged { OnErr result ((store : Store) → H.stands shelf.old store
        → H.has_round shelf.old settled → IsUnmerged H.stands H.has_round store shelf.new) }
    ensures users { (item : DamagedItem) → result ≡ Err (MergeFault.Users item)
        → (shelf.new ≡ shelf.old) × IsDamagedAt base.now users.now item.0 }
    ensures no_round { result ≡ Err MergeFault.NoRound
        → (shelf.new ≡ shelf.old) × ((cs : List Content) × IsDocumentsText base.now users.now cs) }
    ensures clash { (item : ℕ) (clash : Clash) → result ≡ Err (MergeFault.Clash item clash)
        → (store : Store) → H.stands shelf.old store → H.is_honest shelf.new
        → IsStore base.now store
        → IsStoppedAt base.now users.now now client.now store item clash }
    ensures honest { H.is_honest shelf.new → H.is_honest shelf.old }
    ensures counts { CountsFailures (H.failures shelf.old) (H.failures shelf.new) result }
{
    let resources = read_documents(alloc, base, users)?;
    if !shelf.begin_round(alloc) {
        return Err(MergeFault::NoRound);
    }
    let count = merge_all(alloc, shelf, resources.as_slice(), now, client)?;
    shelf.settle(alloc)?;
    Ok(count)
}
