//! The names of the six tables, and the queries that read a whole table.

ghost use Rattle.scim_store_tables.specs.Queries as spec;
ghost use Rattle.scim_store_tables.specs.Asks.{IsAsk};
ghost use Rattle.scim_store_tables.specs.declared.versions.Version.{Version};

/// One of the six tables.
#[derive(Clone, Copy)]
pub enum Table {
    /// The settings of the file. There is only one: the version of the tables.
    Setting,
    /// The resources with their documents.
    Resource,
    /// The unique names in use.
    Taken,
    /// The members of the groups.
    Member,
    /// The audit.
    Audit,
    /// The door codes of the users. Only version 2 has it.
    Secret,
}

/// Returns the query for all rows of a table, sorted. It has the same meaning in each version that has the
/// table.
///
/// Resources and door codes are sorted by two columns, not by id alone, so that the database scans the table
/// and sorts. Sorting by id alone would follow the index of the key and look up each row in the table. The
/// rows aren't stored in order of id, so each look-up would read a page.
pub fn rows_query(table: Table) -> &'static str
    ensures { (version : Version) → spec.HasTable version table
        → IsAsk version result.now (spec.rows_query table) }
{
    match table {
        Table::Setting => "SELECT name, number FROM setting",
        Table::Resource => "SELECT id, kind, document FROM resource ORDER BY id, kind",
        Table::Taken => "SELECT id, attribute, folded FROM taken ORDER BY id, attribute, folded",
        Table::Member => "SELECT group_id, value FROM member ORDER BY group_id, value",
        Table::Audit => {
            "SELECT number, moment, client, op, kind, id, decided, rule, leaf, refusal FROM audit ORDER BY number"
        }
        Table::Secret => "SELECT id, door_code FROM secret ORDER BY id, door_code",
    }
}

/// Returns the query for the keys of a table, sorted. A key is the rowid. It has the same meaning in each
/// version that has the table.
pub(crate) fn keys_query(table: Table) -> &'static str
    ensures { (version : Version) → spec.HasTable version table
        → IsAsk version result.now (spec.keys_query table) }
{
    match table {
        Table::Setting => "SELECT rowid FROM setting ORDER BY rowid",
        Table::Resource => "SELECT rowid FROM resource ORDER BY rowid",
        Table::Taken => "SELECT rowid FROM taken ORDER BY rowid",
        Table::Member => "SELECT rowid FROM member ORDER BY rowid",
        Table::Audit => "SELECT rowid FROM audit ORDER BY rowid",
        Table::Secret => "SELECT rowid FROM secret ORDER BY rowid",
    }
}
