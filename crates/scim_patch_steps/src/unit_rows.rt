//! The rows of a resource, in groups by unit.
ghost use Rattle.std.specs.Prelude.{◌≡◌, ◌≤◌, AllPairs, IfOk, OnOk, false, length, true};
ghost use Rattle.std.specs.List as lists;
ghost use Rattle.std.specs.List.Sorted.{IsBinarySearchResult, IsPartitionPoint, IsSearchInRange};
ghost use Rattle.std.specs.Ordering.{is_lt};
ghost use Rattle.scim_cell.specs.Place.{unit_cmp};
ghost use Rattle.scim_cell.specs.Rows.{Precedes};
ghost use Rattle.scim_patch_steps.specs.code.Groups as spec;
ghost use Rattle.scim_patch_steps.specs.code.Groups.{AreGroups, IsTaken};

use scim_cell::{Row, compare_units};
use scim_schema::Unit;
use scim_text::NoMemory;
use std::alloc::Global;

/// A group: the rows of one unit.
#[derive(Drop)]
pub(crate) struct UnitRows {
    pub(crate) unit: Unit,
    pub(crate) rows: Vec<Row>,
}

/// Returns how many of the rows, which must be in order of unit, belong to units before `unit`.
fn start_of(rows: &[Row], unit: Unit) -> usize
    requires { AllPairs (λ r s. Precedes r.unit s.unit) rows.now }
    ensures bound { result ≤ length rows.now }
    ensures point { IsPartitionPoint (λ r. is_lt (unit_cmp r.unit unit) ≡ true)
        (λ r. is_lt (unit_cmp r.unit unit) ≡ false) rows.now result }
{
    rows.partition_point(|row| compare_units(row.unit(), unit).is_lt())
}

/// Inserts a group. If memory runs out, the groups are unchanged and the group is dropped.
pub(crate) fn insert(
    groups: &mut Vec<UnitRows>,
    index: usize,
    group: UnitRows,
) -> Result<(), NoMemory>
    requires { index ≤ length groups.old.items }
    ensures { OnOk result (groups.new.items ≡ lists.insert groups.old.items index group) }
{
    groups.insert(index, group)?;
    Ok(())
}

/// Moves rows, which must be in order of unit, into one group for each unit that has rows.
/// The groups are in order of unit.
pub(crate) fn grouped(alloc: Global, rows: Vec<Row>) -> Result<Vec<UnitRows>, NoMemory>
    requires { AllPairs (λ r s. Precedes r.unit s.unit) rows.items }
    ensures rows { IfOk result (λ v. spec.joined v.items ≡ rows.items) }
    ensures groups { IfOk result (λ v. AreGroups v.items) }
{
    let mut rows = rows;
    let mut groups = Vec::new(alloc);
    // The last group first: so each row is moved once.
    while let Some(last) = rows.last() {
        let unit = last.unit();
        let start = start_of(rows.as_slice(), unit);
        let own = rows.split_off(start)?;
        insert(&mut groups, 0, UnitRows { unit, rows: own })?;
    }
    Ok(groups)
}

/// Returns the index of the unit's group or, as the error, the index at which to insert it.
fn place_in(groups: &[UnitRows], unit: Unit) -> Result<usize, usize>
    ensures range { IsSearchInRange result (length groups.now) }
    ensures searched { IsBinarySearchResult (λ g. unit_cmp g.unit unit) groups.now result }
{
    groups.binary_search_by(|group| compare_units(group.unit, unit))
}

/// Takes the unit's group out of the groups. Returns the index at which it belongs, and its rows.
/// If the unit has no group, there are no rows.
pub(crate) fn taken(alloc: Global, groups: &mut Vec<UnitRows>, unit: Unit) -> (usize, Vec<Row>)
    requires { AreGroups groups.old.items }
    ensures { IsTaken unit groups.old.items result.0 result.1.items groups.new.items }
{
    match place_in(groups.as_slice(), unit) {
        Ok(index) => {
            let UnitRows { unit: _unit, rows } = groups.remove(index);
            (index, rows)
        }
        Err(index) => (index, Vec::new(alloc)),
    }
}

/// Returns the rows of the groups, one group after another.
pub(crate) fn joined(alloc: Global, groups: Vec<UnitRows>) -> Result<Vec<Row>, NoMemory>
    ensures { IfOk result (λ v. v.items ≡ spec.joined groups.items) }
{
    let mut rows = Vec::new(alloc);
    for group in groups {
        let UnitRows {
            unit: _unit,
            rows: mut own,
        } = group;
        rows.append(&mut own)?;
    }
    Ok(rows)
}
