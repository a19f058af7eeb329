//! Creates a resource from a draft (RFC 7644 section 3.3).
ghost use Rattle.std.specs.Prelude.{◌≡◌, ◌≤◌, ◌∷◌, ◌++◌, IfOk, OnOk};
ghost use Rattle.scim_text.specs.Moments.{last_moment};
ghost use Rattle.scim_cell.specs.Ids.{IsId};
ghost use Rattle.scim_cell.specs.declared.atoms.Atom.{Atom};
ghost use Rattle.scim_value.specs.Resource.{HasBase};
ghost use Rattle.scim_body.specs.declared.drafts.UseFor.{UseFor};
ghost use Rattle.scim_change.specs.Create as spec;

use scim_body::{Draft, UseFor};
use scim_cell::{Atom, Field, Id, Row, Text};
use scim_schema::{Attribute, Kind, Leaf, SubAttribute, unit_of};
use scim_text::{Moment, NoMemory, push};
use scim_value::{Part, Resource, location};
use std::alloc::Global;

/// Returns the resource that a draft creates: the draft's values, `id` and `meta` (RFC 7643 section 3.1).
/// `meta` says that the resource was created and last modified at `moment`, and that its location is below
/// `base`, such as `http://127.0.0.1:8080`. The draft must have been read for `UseFor::Creating`. The
/// draft's values are copied once.
pub fn create(
    alloc: Global,
    draft: &Draft,
    id: Id,
    moment: Moment,
    base: &str,
) -> Result<Resource, NoMemory>
    requires { draft.now.use_for ≡ UseFor.Creating }
    ensures value { IfOk result (λ r. r ≡ spec.created draft.now id moment base.now) }
    ensures base { IfOk result (HasBase base.now) }
{
    let kind = draft.kind();
    let meta = meta_rows(alloc, kind, id, moment, base)?;
    let rows = all_rows(alloc, id, draft.rows(), meta)?;
    Ok(Resource::of_whole(Part::of_rows(kind, id, rows)))
}

/// Returns a row of the leaf's unit with one field: `atom` at `leaf`.
fn row_of(alloc: Global, leaf: Leaf, atom: Atom) -> Result<Row, NoMemory>
    ensures { IfOk result (λ r. r ≡ spec.row_of leaf atom) }
{
    let mut fields = Vec::new(alloc);
    push(&mut fields, Field { leaf, atom })?;
    Ok(Row::new(unit_of(leaf), fields))
}

/// Returns the row of a sub-attribute of `meta` with the value `moment`.
pub(crate) fn moment_row(
    alloc: Global,
    sub_attribute: SubAttribute,
    moment: Moment,
) -> Result<Row, NoMemory>
    ensures row { IfOk result (λ r. r ≡ spec.meta_row sub_attribute (Atom.Moment moment)) }
    ensures bound { moment ≤ last_moment }
{
    // This call lets the proof use that the moment is within its bound.
    let _seconds = moment.seconds();
    let leaf = Leaf::of(Attribute::Meta, sub_attribute);
    row_of(alloc, leaf, Atom::Moment(moment))
}

/// Returns the row of a sub-attribute of `meta` with the value `text`.
fn text_row(alloc: Global, sub_attribute: SubAttribute, text: Text) -> Result<Row, NoMemory>
    ensures { IfOk result (λ r. r ≡ spec.meta_row sub_attribute (Atom.Text text)) }
{
    let leaf = Leaf::of(Attribute::Meta, sub_attribute);
    row_of(alloc, leaf, Atom::Text(text))
}

/// Returns the rows of `meta` for a resource that is created at `moment`.
fn meta_rows(
    alloc: Global,
    kind: Kind,
    id: Id,
    moment: Moment,
    base: &str,
) -> Result<Vec<Row>, NoMemory>
    ensures rows { IfOk result (λ rs. rs.items ≡ spec.meta_rows kind id moment base.now) }
    ensures bound { IfOk result (λ rs. moment ≤ last_moment) }
{
    let mut rows = Vec::with_capacity(alloc, 4)?;
    let kind_name = Text::copy_of(alloc, kind.name())?;
    let place = location(alloc, base, kind, id)?;
    let resource_type = text_row(alloc, SubAttribute::ResourceType, kind_name)?;
    push(&mut rows, resource_type)?;
    push(&mut rows, moment_row(alloc, SubAttribute::Created, moment)?)?;
    let last_modified = moment_row(alloc, SubAttribute::LastModified, moment)?;
    push(&mut rows, last_modified)?;
    push(&mut rows, text_row(alloc, SubAttribute::Location, place)?)?;
    Ok(rows)
}

/// Returns the rows of the new resource in the order of units: `id`, copies of `values`, and `meta`.
fn all_rows(alloc: Global, id: Id, values: &[Row], mut meta: Vec<Row>) -> Result<Vec<Row>, NoMemory>
    ensures rows { IfOk result (λ rs. rs.items ≡ spec.id_row id ∷ (values.now ++ meta.items)) }
    ensures id { IfOk result (λ rs. IsId id) }
{
    let text = Atom::Text(id.text(alloc)?);
    let mut rows = Vec::with_capacity(alloc, 1)?;
    push(&mut rows, row_of(alloc, Leaf::simple(Attribute::Id), text)?)?;
    push_copies(alloc, values, &mut rows)?;
    rows.append(&mut meta)?;
    Ok(rows)
}

/// Appends copies of the rows `values` to `rows`.
fn push_copies(alloc: Global, values: &[Row], rows: &mut Vec<Row>) -> Result<(), NoMemory>
    ensures { OnOk result (rows.new.items ≡ rows.old.items ++ values.now) }
{
    for row in values {
        push(rows, row.try_copy(alloc)?)?;
    }
    Ok(())
}
