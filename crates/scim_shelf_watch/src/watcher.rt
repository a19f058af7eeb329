//! What is told of the commits to a shelf.
ghost use Rattle.std.specs.Prelude.{◌≡◌, true, false, List, [], ◌++◌, ◌∷◌, OnOk, OnErr};
ghost use Rattle.scim_shelf_watch.specs.Watched.{NumberedRow, numbered_row};

use scim_audit::AuditRow;
use scim_shelf::ShelfFault;
use scim_text::{Failed, NoMemory};
use std::alloc::Global;

/// Is told of the commits to a shelf.
///
/// For each commit, `allows` is called first. If it returns true, `begins` is called; after its success the commit
/// has begun. The commits that have begun are over with one call: `committed`, or `lost`. `failed` is called if the
/// commit that began last failed by itself.
pub trait Watcher {
    /// The watcher has been told of the commits of the first rows, and that the commits of the second rows have
    /// begun since.
    ghost told: { Self → List NumberedRow → List NumberedRow → Type 0 };

    /// The watcher has been told of the same, and allows the next commit.
    ghost allowed: { Self → List NumberedRow → List NumberedRow → Type 0 };

    /// Returns whether the shelf may commit. If not, the commit fails with `Device`, and nothing is changed.
    fn allows(&mut self) -> bool
        ensures yes { result ≡ true → (rows begun : List NumberedRow) → told self.old rows begun
            → allowed self.new rows begun }
        ensures no { result ≡ false → (rows begun : List NumberedRow) → told self.old rows begun
            → told self.new rows begun };

    /// Prepares for the commit of a row, which gets this number. On an error, the commit fails with
    /// `NoMemory`, and nothing is changed.
    fn begins(&mut self, alloc: Global, number: u64, row: &AuditRow) -> Result<(), NoMemory>
        ensures ok { OnOk result ((rows begun : List NumberedRow) → allowed self.old rows begun
            → told self.new rows (begun ++ numbered_row number row.now ∷ [])) }
        ensures err { OnErr result ((rows begun : List NumberedRow) → allowed self.old rows begun
            → told self.new rows begun) };

    /// The rows whose commits have begun were committed.
    fn committed(&mut self)
        ensures { (rows begun : List NumberedRow) → told self.old rows begun
            → told self.new (rows ++ begun) [] };

    /// The commit that began last failed with this fault, and nothing was changed.
    fn failed(&mut self, fault: &Failed<ShelfFault>)
        ensures { (rows begun : List NumberedRow) (row : NumberedRow)
            → told self.old rows (begun ++ row ∷ []) → told self.new rows begun };

    /// The commits that have begun failed with this fault, and none of them changed anything.
    fn lost(&mut self, fault: &Failed<ShelfFault>)
        ensures { (rows begun : List NumberedRow) → told self.old rows begun
            → told self.new rows [] };
}
