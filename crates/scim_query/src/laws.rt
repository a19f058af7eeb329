//! Theorems about all searches.
ghost use Rattle.scim_query.specs.Pages.{QueriesHaveOnePage};
ghost use Rattle.scim_query.specs.Arranged.{PagesAreArranged};

/// A query has exactly one page of a list, even if some ids are equal.
/// Any two pages of the list for the query have the same total, start, and items in the same order.
pub fn queries_have_one_page()
    ensures { QueriesHaveOnePage }
{}

/// A page is a query's page of a list exactly if its total is the number of matching parts, its start is the
/// query's start, and its items are at most `count` of the matching parts from there on, sorted by insertion.
pub fn pages_are_arranged()
    ensures { PagesAreArranged }
{}
