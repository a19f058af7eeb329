//! Services whose resources are read from a users file and kept in memory.
ghost use Rattle.std.specs.Prelude.{◌≡◌, ℕ, Err, IfOk, IfErr};
ghost use Rattle.scim_json.specs.Documents.{IsDamagedAt};
ghost use Rattle.scim_shelf.specs.Stores.{Store};
ghost use Rattle.scim_command.specs.declared.faults.RunFault.{RunFault};
ghost use Rattle.scim_command.specs.Faults.{IsOfUsers};
ghost use Rattle.scim_command.specs.Once.{IsStoreOf};
ghost use Rattle.scim_service.specs.Setting.{service_base, service_policy, service_shelf};

use crate::faults::RunFault;
use scim_cell::Text;
use scim_json::read_documents;
use scim_policy::Policy;
use scim_service::Service;
use scim_shelf::{MemoryShelf, Shelf};
use std::alloc::Global;

/// Returns a service with the policy and with the resources of a users file. The resources are located below
/// the base URL.
///
/// Fails with `Users` if the users file is invalid.
pub fn service_over(
    alloc: Global,
    policy: Policy,
    users: &str,
    base: &str,
) -> Result<Service<MemoryShelf>, RunFault>
    ensures service { IfOk result (λ service. (store : Store)
        × IsStoreOf base.now users.now store
        × ⟦<MemoryShelf as Shelf>⟧.stands (service_shelf service) store) }
    ensures policy { IfOk result (λ service. (service_policy service) ≡ policy) }
    ensures base { IfOk result (λ service. (service_base service) ≡ base.now) }
    ensures damaged { (n : ℕ) → result ≡ Err (RunFault.Users n) → IsDamagedAt base.now users.now n }
    ensures fault { IfErr result IsOfUsers }
{
    let shelf = read_shelf(alloc, base, users)?;
    let base = Text::copy_of(alloc, base)?;
    Ok(Service::new(policy, shelf, base))
}

/// Returns a shelf with the resources of a users file.
///
/// Fails with `Users` if the users file is invalid.
fn read_shelf(alloc: Global, base: &str, text: &str) -> Result<MemoryShelf, RunFault>
    ensures shelf { IfOk result (λ shelf. (store : Store)
        × IsStoreOf base.now text.now store × ⟦<MemoryShelf as Shelf>⟧.stands shelf store) }
    ensures damaged { (n : ℕ) → result ≡ Err (RunFault.Users n) → IsDamagedAt base.now text.now n }
    ensures fault { IfErr result IsOfUsers }
{
    let resources = read_documents(alloc, base, text)?;
    Ok(MemoryShelf::new(alloc, resources)?)
}
