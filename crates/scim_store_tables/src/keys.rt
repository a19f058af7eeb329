//! A test that keys are strictly ascending.

ghost use Rattle.std.specs.Prelude.{◌≡◌, false, IfOk, IsTrue};
ghost use Rattle.scim_store_tables.specs.code.Keys.{AreRising};
ghost use Rattle.scim_store_tables.specs.code.Keys as spec;

use sqlite::{Error, Row};

/// Whether a key is greater than the previous key `last`; true if there is no previous key.
fn is_above(last: Option<i64>, key: i64) -> bool
    ensures { result ≡ spec.is_above last key }
{
    match last {
        None => true,
        Some(last) => last < key,
    }
}

/// Whether the values in the first column of these rows are strictly ascending. If the rows are sorted by
/// key, this tests that no key occurs twice.
///
/// Fails if a row has no first column, or if the value in it isn't an integer.
pub(crate) fn do_keys_rise(rows: &[Row]) -> Result<bool, Error>
    ensures yes { IfOk result (λ rise. IsTrue rise → AreRising rows.now) }
    ensures no { IfOk result (λ rise. rise ≡ false → ¬ AreRising rows.now) }
{
    let mut last = None;
    for row in rows {
        let key: i64 = row.get(0)?;
        if !is_above(last, key) {
            return Ok(false);
        }
        last = Some(key);
    }
    Ok(true)
}
