//! Copies of lists of rows, whole or restricted by a test or a judge.
ghost use Rattle.std.specs.Prelude.{◌≡◌, ◌∷◌, [], ◌++◌, IfOk, OnOk, filter};
ghost use Rattle.scim_cell.specs.Rows as spec;

use scim_cell::{Row, RowJudge, RowTest};
use scim_text::{NoMemory, push};
use std::alloc::Global;

/// Copies the rows `own` with only the fields that the test keeps. Leaves out rows that become empty.
pub(crate) fn kept_rows<T: RowTest>(
    alloc: Global,
    own: &[Row],
    test: &T,
) -> Result<Vec<Row>, NoMemory>
    ensures { IfOk result (λ v. v.items ≡ spec.restricted (T.keeps test.now) own.now) }
{
    let mut copies = Vec::new(alloc);
    for row in own {
        push_nonempty(&mut copies, row.restrict(alloc, test)?)?;
    }
    Ok(copies)
}

/// Copies the rows `own` with only the fields that the judge keeps. Leaves out rows that become empty.
pub(crate) fn judged_rows<J: RowJudge>(
    alloc: Global,
    own: &[Row],
    judge: &J,
) -> Result<Vec<Row>, NoMemory>
    ensures { IfOk result (λ v. v.items ≡ spec.restricted (J.keeps judge.now) own.now) }
{
    let mut copies = Vec::new(alloc);
    for row in own {
        push_nonempty(&mut copies, row.restrict_by(alloc, judge)?)?;
    }
    Ok(copies)
}

/// Appends the row if it has a field.
fn push_nonempty(rows: &mut Vec<Row>, row: Row) -> Result<(), NoMemory>
    ensures { OnOk result (rows.new.items
        ≡ rows.old.items ++ filter spec.has_fields (row ∷ [])) }
{
    if !row.fields().is_empty() {
        push(rows, row)?;
    }
    Ok(())
}

/// Copies the rows.
pub fn copy_rows(alloc: Global, own: &[Row]) -> Result<Vec<Row>, NoMemory>
    ensures { IfOk result (λ v. v.items ≡ own.now) }
{
    let mut copies = Vec::with_capacity(alloc, own.len())?;
    for row in own {
        push(&mut copies, row.try_copy(alloc)?)?;
    }
    Ok(copies)
}
