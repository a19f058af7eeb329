//! Look-up of names in tables.

/// Returns the value of a name in a table, or `None` if the table doesn't contain the name.
///
/// A loop over a table needs one proof. A match on texts would need one for each name.
pub fn named<T: Copy>(table: &[(&str, T)], name: &str) -> Option<T> {
    for (own, meant) in table {
        if *own == name {
            return Some(*meant);
        }
    }
    None
}
