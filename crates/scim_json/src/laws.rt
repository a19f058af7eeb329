//! Lemmas about the JSON of all parts and resources.
ghost use Rattle.scim_json.specs.Laws.{PartsAreShownWhole, KeptReadsBack, StoredResourcesReadBack, KeptPartsDetermine, KeptPartsReadBack};
ghost use Rattle.scim_json.specs.Stored.{DocumentsAreApart};

/// Lemma: the JSON that `to_json` writes contains all cells of the part, and no other cells.
/// Looking up each attribute of the kind, in the object of its schema, finds the cells of the part in
/// order of place with their values (RFC 7643 sections 2.3 and 3.3).
pub fn parts_are_shown_whole()
    ensures { PartsAreShownWhole }
{}

/// Lemma: no two resources below the same base have the same stored JSON. So leaving out `schemas`,
/// `groups` and `meta.location` loses no information.
pub fn documents_are_apart()
    ensures { DocumentsAreApart }
{}

/// Lemma: parsing the text that `stored_text` writes returns the stored JSON value of the resource.
pub fn documents_read_back()
    ensures { KeptReadsBack }
{}

/// Lemma: [`crate::read_stored`] reads the text of [`crate::stored_text`] back as the same resource, if the
/// `meta.location` of the resource is below the base. The call fails only if memory runs out.
pub fn stored_resources_read_back()
    ensures { StoredResourcesReadBack }
{}

/// Lemma: no two resources below the same base have the same kept parts.
pub fn kept_parts_determine()
    ensures { KeptPartsDetermine }
{}

/// Lemma: [`crate::read_kept`] reads the parts that [`crate::kept_parts`] returns back as the same resource,
/// if the `meta.location` of the resource is below the base. The call fails only if memory runs out.
pub fn kept_parts_read_back()
    ensures { KeptPartsReadBack }
{}
