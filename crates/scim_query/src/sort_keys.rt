//! The keys by which parts are sorted (RFC 7644 section 3.4.2.3).
ghost use Rattle.std.specs.Prelude.{◌≡◌, ◌&&◌, true, IfOk, find};
ghost use Rattle.std.specs.List.{list_any};
ghost use Rattle.std.specs.Option.{option_copied, option_map};
ghost use Rattle.scim_schema.specs.declared.SubAttribute.TheVariants as SubAttribute;
ghost use Rattle.scim_schema.specs.Units.{unit_of, leaf_at};
ghost use Rattle.scim_cell.specs.Content.{IsPart};
ghost use Rattle.scim_cell.specs.Rows as cells;
ghost use Rattle.scim_cell.specs.Rows.{rows, values, restricted, restricted_row};
ghost use Rattle.scim_value.specs.Changes.{restricted_part};
ghost use Rattle.scim_query.specs.Keys as spec;
ghost use Rattle.scim_query.specs.Order as order;

use scim_cell::{Atom, Id, Row, RowTest, Text};
use scim_schema::{Leaf, SubAttribute, is_case_exact, unit_of};
use scim_text::{NoMemory, fold};
use scim_value::Part;
use std::alloc::Global;
use std::cmp::Ordering;

/// A test that admits every field.
struct Everything;

impl RowTest for Everything {
    ghost keeps = { λ test row leaf. true };

    fn is_kept(&self, _row: &Row, _leaf: Leaf) -> bool {
        true
    }
}

/// Whether a field that the test admits marks the value as primary.
fn is_primary<T: RowTest>(value: &Row, test: &T) -> bool
    ensures { result ≡ (cells.is_primary value.now
        && T.keeps test.now value.now (leaf_at value.now.unit.attribute SubAttribute.Primary)) }
{
    let mark = Leaf::of(value.unit().attribute, SubAttribute::Primary);
    value.is_primary() && test.is_kept(value, mark)
}

/// Whether the test admits any field of the value.
fn is_left<T: RowTest>(value: &Row, test: &T) -> bool
    ensures { result ≡ list_any (λ f. T.keeps test.now value.now f.leaf) value.now.fields }
{
    test.may_keep(value)
        && value
            .fields()
            .iter()
            .any(|field| test.is_kept(value, field.leaf))
}

/// Returns the first value that is marked as primary by a field that the test admits.
fn first_primary<'r, T: RowTest>(values: &'r [Row], test: &T) -> Option<&'r Row>
    ensures { option_copied result
        ≡ find (λ r. cells.is_primary r
        && T.keeps test.now r (leaf_at r.unit.attribute SubAttribute.Primary)) values.now }
{
    values.iter().find(|value| is_primary(value, test))
}

/// Returns the first value with a field that the test admits.
fn first_left<'r, T: RowTest>(values: &'r [Row], test: &T) -> Option<&'r Row>
    ensures { option_copied result
        ≡ find (λ r. list_any (λ f. T.keeps test.now r f.leaf) r.fields) values.now }
{
    values.iter().find(|value| is_left(value, test))
}

/// Returns the value to sort by, among the values with a field that the test admits.
/// It is the first value that an admitted field marks as primary, or else the first value.
fn sorting_value<'r, T: RowTest>(values: &'r [Row], test: &T) -> Option<&'r Row>
    ensures { option_map (restricted_row (T.keeps test.now)) (option_copied result)
        ≡ spec.sorting_value (restricted (T.keeps test.now) values.now) }
{
    match first_primary(values, test) {
        Some(value) => Some(value),
        None => first_left(values, test),
    }
}

/// Copies an atom in the form used for comparison: a text is case-folded unless its leaf is caseExact.
fn compared(alloc: Global, leaf: Leaf, atom: &Atom) -> Result<Atom, NoMemory>
    ensures { IfOk result (λ key. key ≡ spec.compared leaf atom.now) }
{
    match atom {
        Atom::Text(text) if !is_case_exact(leaf) => {
            let folded = fold(alloc, text.as_str())?;
            Ok(Atom::Text(Text::new(folded)))
        }
        _ => atom.try_copy(alloc),
    }
}

/// Returns the atom by which a part is sorted, from the fields that the test admits. `None` if there is no
/// atom to sort by.
fn sorting_atom<'p, T: RowTest>(leaf: Leaf, part: &'p Part, test: &T) -> Option<&'p Atom>
    ensures atom { option_copied result ≡ spec.atom_of leaf
        (spec.sorting_value
        (values (unit_of leaf) (restricted (T.keeps test.now) (rows part.now)))) }
    ensures valid { IsPart part.now }
{
    let value = sorting_value(part.values(unit_of(leaf)), test)?;
    if test.is_kept(value, leaf) {
        value.get(leaf)
    } else {
        None
    }
}

/// Returns the sort key of a part by the leaf, from the fields that the test admits.
/// `None` if there is no atom to sort by.
fn key_at<T: RowTest>(
    alloc: Global,
    leaf: Leaf,
    part: &Part,
    test: &T,
) -> Result<Option<Atom>, NoMemory>
    ensures key { IfOk result (λ key. key
        ≡ spec.sort_key leaf (restricted (T.keeps test.now) (rows part.now))) }
    ensures valid { IsPart part.now }
{
    let Some(atom) = sorting_atom(leaf, part, test) else {
        return Ok(None);
    };
    Ok(Some(compared(alloc, leaf, atom)?))
}

/// Returns the sort key of a part by the leaf. `None` if there is no leaf or no atom to sort by.
pub(crate) fn key_by(
    alloc: Global,
    sort_by: Option<Leaf>,
    part: &Part,
) -> Result<Option<Atom>, NoMemory>
    ensures { IfOk result (λ key. key ≡ spec.key_by sort_by (rows part.now)) }
{
    match sort_by {
        Some(leaf) => key_at(alloc, leaf, part, &Everything),
        None => Ok(None),
    }
}

/// Like [`key_by`], for the part restricted to the fields that the test admits. Only the key is copied.
pub(crate) fn key_where<T: RowTest>(
    alloc: Global,
    sort_by: Option<Leaf>,
    part: &Part,
    test: &T,
) -> Result<Option<Atom>, NoMemory>
    ensures { IfOk result (λ key. key
        ≡ spec.key_by sort_by (rows (restricted_part (T.keeps test.now) part.now))) }
{
    match sort_by {
        Some(leaf) => key_at(alloc, leaf, part, test),
        None => Ok(None),
    }
}

/// Compares two atoms: texts by their bytes, false before true, moments by time.
/// Atoms of one leaf have one type. Between types, texts come first and moments last.
fn compare_atoms(a: &Atom, b: &Atom) -> Ordering
    ensures { result ≡ order.atom_cmp a.now b.now }
{
    match (a, b) {
        (Atom::Text(a), Atom::Text(b)) => a.as_str().cmp(b.as_str()),
        (Atom::Text(_), _) | (Atom::Truth(_), Atom::Moment(_)) => Ordering::Less,
        (Atom::Truth(a), Atom::Truth(b)) => a.cmp(b),
        (Atom::Moment(a), Atom::Moment(b)) => a.cmp(b),
        (Atom::Truth(_), Atom::Text(_)) | (Atom::Moment(_), _) => Ordering::Greater,
    }
}

/// Compares two keys in ascending order: a part without a key comes last.
fn compare_ascending(a: &Option<Atom>, b: &Option<Atom>) -> Ordering
    ensures { result ≡ order.ascending_cmp a.now b.now }
{
    match (a, b) {
        (Some(a), Some(b)) => compare_atoms(a, b),
        (Some(_), None) => Ordering::Less,
        (None, Some(_)) => Ordering::Greater,
        (None, None) => Ordering::Equal,
    }
}

/// Compares two keys in the given direction.
/// A part without a key comes last if ascending, and first if descending.
fn compare_keys(descending: bool, a: &Option<Atom>, b: &Option<Atom>) -> Ordering
    ensures { result ≡ order.key_cmp descending a.now b.now }
{
    if descending {
        compare_ascending(b, a)
    } else {
        compare_ascending(a, b)
    }
}

/// Compares two parts by key in the given direction, then by ascending id.
pub(crate) fn compare_ranks(
    descending: bool,
    key: &Option<Atom>,
    id: Id,
    other_key: &Option<Atom>,
    other_id: Id,
) -> Ordering
    ensures { result ≡ order.rank_cmp descending (key.now, id) (other_key.now, other_id) }
{
    compare_keys(descending, key, other_key).then_with(|| id.cmp(&other_id))
}
