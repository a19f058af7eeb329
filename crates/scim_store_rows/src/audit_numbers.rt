//! Kinds, operations, decisions and refusals by their numbers in the columns of the audit.
ghost use Rattle.scim_store_rows.specs.Audit as spec;
ghost use Rattle.scim_store_rows.specs.AuditBack.{ReadsBack, Any};

use scim_audit::{Decided, Refusal};
use scim_schema::{Kind, Op};

/// Returns the kind with this number, counted from 0; `None` if there isn't one.
pub(crate) fn kind_of(number: u64) -> Option<Kind>
    ensures { ReadsBack Any spec.kind_number number result }
{
    Kind::all().get(number as usize).copied()
}

/// Returns the operation with this number, counted from 0; `None` if there isn't one.
pub(crate) fn op_of(number: u64) -> Option<Op>
    ensures { ReadsBack Any spec.op_number number result }
{
    Op::all().get(number as usize).copied()
}

/// Returns the decision with this number, counted from 0; `None` if there isn't one.
pub(crate) fn decided_of(number: u64) -> Option<Decided>
    ensures { ReadsBack Any spec.decided_number number result }
{
    Decided::all().get(number as usize).copied()
}

/// Returns the refusal with this number, counted from 0; `None` if there isn't one. `BadMethod` is returned
/// with the methods of a collection, since the methods of the requested endpoint aren't stored.
pub(crate) fn refusal_of(number: u64) -> Option<Refusal>
    ensures { ReadsBack Any spec.refusal_number number result }
{
    Refusal::all().get(number as usize).copied()
}
