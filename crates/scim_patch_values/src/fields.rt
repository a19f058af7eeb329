//! Changes the fields of one value.
ghost use Rattle.std.specs.Prelude.{◌≡◌, ◌++◌, ◌∷◌, [], IfOk, OnOk, filter};
ghost use Rattle.std.specs.Ordering.{is_lt, is_gt};
ghost use Rattle.scim_schema.specs.Units.{is_same_leaf};
ghost use Rattle.scim_cell.specs.Place.{place_at};
ghost use Rattle.scim_patch_values.specs.Fields as spec;

use scim_cell::{Atom, Field, Place, Row};
use scim_schema::{Leaf, SubAttribute};
use scim_text::{NoMemory, push};
use std::alloc::Global;
use std::cmp::Ordering;

/// Returns the place of a field in the sort order of the fields of one value.
fn place_of(field: &Field) -> Place
    ensures { result ≡ place_at field.now.leaf 0 }
{
    Place {
        attribute: field.leaf.attribute,
        position: 0,
        sub_attribute: field.leaf.sub_attribute,
    }
}

/// The fields of a value, split into those that sort before a given field and those that sort after it.
#[derive(Drop)]
struct Sides {
    before: Vec<Field>,
    behind: Vec<Field>,
}

impl Sides {
    /// Adds `other` to `before` or `behind`, by its order relative to `field`. Drops `other` if both fields
    /// have the same place.
    fn add(&mut self, other: Field, field: &Field) -> Result<(), NoMemory>
        ensures before { OnOk result (self.new.before.items
            ≡ self.old.before.items
            ++ filter (λ f. is_lt (spec.field_cmp f field.now)) (other ∷ [])) }
        ensures behind { OnOk result (self.new.behind.items
            ≡ self.old.behind.items
            ++ filter (λ f. is_gt (spec.field_cmp f field.now)) (other ∷ [])) }
    {
        match place_of(&other).compare(place_of(field)) {
            Ordering::Less => push(&mut self.before, other)?,
            Ordering::Equal => (),
            Ordering::Greater => push(&mut self.behind, other)?,
        }
        Ok(())
    }
}

/// Splits the fields into those before and those after the place of `field`. Drops any field at that place.
fn parted(alloc: Global, fields: Vec<Field>, field: &Field) -> Result<Sides, NoMemory>
    ensures before { IfOk result (λ sides. sides.before.items
        ≡ filter (λ other. is_lt (spec.field_cmp other field.now)) fields.items) }
    ensures behind { IfOk result (λ sides. sides.behind.items
        ≡ filter (λ other. is_gt (spec.field_cmp other field.now)) fields.items) }
{
    let mut sides = Sides {
        before: Vec::new(alloc),
        behind: Vec::new(alloc),
    };
    for other in fields {
        sides.add(other, field)?;
    }
    Ok(sides)
}

/// Inserts `field` at its place among `fields`, and removes any other field that has the same place.
fn put_field(alloc: Global, fields: Vec<Field>, field: Field) -> Result<Vec<Field>, NoMemory>
    ensures { IfOk result (λ v. v.items ≡ spec.put_field field fields.items) }
{
    let Sides {
        before: mut all,
        mut behind,
    } = parted(alloc, fields, &field)?;
    all.push(field)?;
    all.append(&mut behind)?;
    Ok(all)
}

/// Inserts copies of the `given` fields into `fields` at their places. They replace fields that have the same
/// places.
pub(crate) fn over(
    alloc: Global,
    given: &[Field],
    fields: Vec<Field>,
) -> Result<Vec<Field>, NoMemory>
    ensures { IfOk result (λ v. v.items ≡ spec.over given.now fields.items) }
{
    let mut all = fields;
    for field in given {
        all = put_field(alloc, all, field.try_copy(alloc)?)?;
    }
    Ok(all)
}

/// Sets copies of the `given` fields in the value. They replace fields of the value that have the same
/// places.
pub(crate) fn row_over(alloc: Global, given: &[Field], row: Row) -> Result<Row, NoMemory>
    ensures { IfOk result (λ r. r ≡ spec.row_over given.now row) }
{
    let unit = row.unit();
    let fields = over(alloc, given, row.into_fields())?;
    Ok(Row::new(unit, fields))
}

/// Whether the field belongs to this leaf.
fn is_of(field: &Field, leaf: Leaf) -> bool
    ensures { result ≡ is_same_leaf field.now.leaf leaf }
{
    field.leaf == leaf
}

/// Removes the field of a leaf from the value.
pub(crate) fn row_without(leaf: Leaf, row: Row) -> Row
    ensures { result ≡ spec.row_without leaf row }
{
    let unit = row.unit();
    let mut fields = row.into_fields();
    fields.retain(|field| !is_of(field, leaf));
    Row::new(unit, fields)
}

/// Sets the value's `primary` to false if it is true.
pub fn demoted(alloc: Global, row: Row) -> Result<Row, NoMemory>
    ensures { IfOk result (λ r. r ≡ spec.demoted row) }
{
    if !row.is_primary() {
        return Ok(row);
    }
    let unit = row.unit();
    let field = Field {
        leaf: Leaf::of(unit.attribute, SubAttribute::Primary),
        atom: Atom::Truth(false),
    };
    let fields = put_field(alloc, row.into_fields(), field)?;
    Ok(Row::new(unit, fields))
}
