//! Reads the parameter `sortBy` (RFC 7644 section 3.4.2.3).
ghost use Rattle.std.specs.Prelude.{◌≡◌};
ghost use Rattle.scim_query.specs.SortKeys.{sort_leaf};

use scim_filter_grammar::attribute_path;
use scim_schema::{Kind, Leaf};

/// Returns the leaf that the text of `sortBy` names for resources of a kind (RFC 7644 section 3.4.2.3). The
/// text names a simple attribute, or a sub-attribute such as `name.familyName`; a complex attribute alone
/// means its `value`. Paths are read as in filters, with or without a URN prefix and with spaces around them.
///
/// `None` if the text isn't a path, has a filter in brackets, is longer than 4,096 bytes, names an attribute
/// that the kind doesn't have, or names a complex attribute without a `value`. Doesn't allocate.
pub fn read_sort_by(kind: Kind, text: &str) -> Option<Leaf>
    ensures { result ≡ sort_leaf kind text.now }
{
    attribute_path(kind, text)?.compared_leaf()
}
