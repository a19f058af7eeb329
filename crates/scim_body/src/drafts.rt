//! Drafts of resources, read from the bodies of requests.
ghost use Rattle.std.specs.Prelude.{◌≡◌};
ghost use Rattle.scim_cell.specs.Rows.{values};
ghost use Rattle.scim_body.specs.Drafts as spec;
ghost use Rattle.scim_body.specs.Drafts.{IsDraft};

use scim_cell::Row;
use scim_schema::{Kind, Unit};
use scim_value::values_among;
use std::marker::Model;

/// The purpose of a body: to create a resource (RFC 7644 section 3.3) or to replace one (section 3.5.1).
#[derive(Clone, Copy, PartialEq, Eq)]
pub enum UseFor {
    Creating,
    Replacing,
}

/// A resource as read from a body: its kind, the purpose of the body, the units for which the body has a
/// value, and the rows to store.
///
/// A value that isn't stored, such as a password, has its unit among these units, but no row.
/// Invariant: the rows are valid values of a resource of the kind, and a draft for `Creating` has all
/// attributes that the kind requires.
pub struct Draft {
    kind: Kind,
    use_for: UseFor,
    given: Vec<Unit>,
    rows: Vec<Row>,
}

impl Drop for Draft {
    fn drop(self) {
        let Draft {
            kind: _kind,
            use_for: _use_for,
            given: _given,
            rows: _rows,
        } = self;
    }
}

impl Model for Draft {
    ghost use Rattle.std.specs.Coded.{codes};
    ghost use Rattle.scim_schema.specs.contracts.Unit as unit;
    ghost use Rattle.scim_cell.specs.contracts.rows.Row as row;
    ghost use Rattle.scim_body.specs.Drafts.{Draft, IsDraft};
    ghost use Rattle.scim_body.specs.code.Inside.{draft_of};

    ghost Value = { Draft };

    ghost coded = { Prim.hlevel (codes, unit.the_row.coded, row.the_row.coded) };

    ghost view = { draft_of };

    ghost invariant = { λ d. IsDraft (draft_of d) };
}

impl Draft {
    /// Makes a draft from its parts. They must satisfy the invariant `IsDraft`.
    pub(crate) fn new(kind: Kind, use_for: UseFor, given: Vec<Unit>, rows: Vec<Row>) -> Draft
        requires { IsDraft (record {
          kind = kind;
          use_for = use_for;
          given = given.items;
          rows =
              rows.items;
        }) }
        ensures kind { result.kind ≡ kind }
        ensures use_for { result.use_for ≡ use_for }
        ensures given { result.given ≡ given.items }
        ensures rows { result.rows ≡ rows.items }
    {
        Draft {
            kind,
            use_for,
            given,
            rows,
        }
    }

    /// The kind of the resource.
    pub fn kind(&self) -> Kind
        ensures { result ≡ self.now.kind }
    {
        self.kind
    }

    /// The purpose that the body was read for.
    pub fn use_for(&self) -> UseFor
        ensures { result ≡ self.now.use_for }
    {
        self.use_for
    }

    /// The units for which the body has a value, in the order of the attribute table.
    pub fn given(&self) -> &[Unit]
        ensures { result.now ≡ self.now.given }
    {
        self.given.as_slice()
    }

    /// Whether the body has a value for `unit`.
    pub fn gives(&self, unit: Unit) -> bool
        ensures { result ≡ spec.gives self.now unit }
    {
        for own in self.given() {
            if unit == *own {
                return true;
            }
        }
        false
    }

    /// The values of `unit` to store, in the order of the body. Empty for a unit that is
    /// dropped, as `password` is.
    pub fn values(&self, unit: Unit) -> &[Row]
        ensures values { result.now ≡ values unit self.now.rows }
        ensures valid { IsDraft self.now }
    {
        values_among(self.rows(), unit)
    }

    /// The rows of all values to store, in order of unit.
    pub fn rows(&self) -> &[Row]
        ensures rows { result.now ≡ self.now.rows }
        ensures valid { IsDraft self.now }
    {
        self.rows.as_slice()
    }
}
