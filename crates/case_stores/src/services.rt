//! Makes services with the policy of a case.
use crate::audited::Audited;
use crate::databases::base_of;
use crate::faults::StoreFault;
use case_policies::policy;
use case_values::{Case, CaseFault};
use scim_cell::Text;
use scim_policy::Policy;
use scim_service::Service;

/// Returns a service with the policy of a case over a store. If this fails, closes the store.
pub fn service_over<S: Audited>(case: &Case<'_>, shelf: S) -> Result<Service<S>, StoreFault> {
    match policy_and_base(case) {
        Ok((policy, base)) => Ok(Service::new(policy, shelf, base)),
        Err(fault) => {
            shelf.close();
            Err(StoreFault::Case(fault))
        }
    }
}

/// Returns the policy of a case and the base URL of its resources.
fn policy_and_base(case: &Case<'_>) -> Result<(Policy, Text), CaseFault> {
    let base = Text::copy_of(case.alloc, base_of(case))?;
    Ok((policy(case)?, base))
}
