//! Users files: JSON lists of stored documents.
ghost use Rattle.std.specs.Prelude.{◌≡◌, ◌≤◌, ◌<◌, ◌∷◌, ◌++◌, ℕ, List, [], Some, None, Ok, All, IfOk, IfSome, OnOk, IsTrue, IsFalse, ◌≢◌, ◌⊎◌, string_bytes, MatchBool, MatchOption, length};
ghost use Rattle.json.specs.Json as json;
ghost use Rattle.json.specs.Token.{Token as ListToken};
ghost use Rattle.json.specs.Value.{value_view};
ghost use Rattle.json.specs.Tree.{HasNumbers, depth as nesting};
ghost use Rattle.serde_json.specs.Data.{Data, Items};
ghost use Rattle.serde_json.specs.Read.{read, max_depth, of_json};
ghost use Rattle.scim_cell.specs.Content.{Content};
ghost use Rattle.scim_value.specs.Uniqueness.{AreApart};
ghost use Rattle.scim_text.specs.Failures.{IfFault};
ghost use Rattle.scim_json.specs.declared.faults.DamagedItem.{DamagedItem};
ghost use Rattle.scim_json.specs.PartData.{stored_data};
ghost use Rattle.scim_json.specs.Stored.{IsResourceBelow, IsDocumentText};
ghost use Rattle.scim_json.specs.Documents.{IsDocumentsText, IsDamagedAt, IsDamagedBeside};
ghost use Rattle.scim_json.specs.DocumentReading.{HasRead, unread};
ghost use Rattle.scim_json.specs.code.Taken.{Records};
ghost use Rattle.scim_json.specs.code.Listed.{item_depth, rest_of_list, IsItem, IsNoItem, IsInList, IsInNoList};

use crate::fast_path::resource_with;
use crate::faults::{Damaged, DamagedItem};
use crate::stored_documents::{parse, read_spelled};
use json::{Error, Reader, Scratch, Token};
use scim_cell::Id;
use scim_text::{Failed, NoMemory, push};
use scim_value::{Resource, UniqueName, unique_names};
use std::alloc::Global;
use std::collections::BTreeSet;

/// The maximum nesting depth of an item, one less than the maximum depth of the whole text.
const ITEM_DEPTH: usize = 126;

/// A reader of a users file: a JSON list of stored documents of resources below a base URL, such as
/// `http://127.0.0.1:8080`.
///
/// It gives the resources one by one, in the order of the list, and keeps only their ids and unique names. No
/// two resources may have the same id or share a unique name such as `userName`. Names are compared without
/// regard to case, unless their attribute is caseExact (RFC 7643 sections 2.2 and 3.1).
#[derive(Drop)]
pub struct DocumentReader<'a> {
    base: &'a str,
    /// The tokens of the list that aren't read yet.
    reader: Reader<'a>,
    taken: Taken,
    /// The number of the next item, from 1.
    number: usize,
}

/// The ids and unique names of the resources read so far. No later resource may repeat one of them.
#[derive(Drop)]
struct Taken {
    ids: BTreeSet<Id>,
    names: BTreeSet<UniqueName>,
}

impl<'a> DocumentReader<'a> {
    /// Returns a reader that has read no item of the users file `text`. It writes strings with escape
    /// sequences to `scratch`, which grows to the length of the text.
    ///
    /// Fails with `DamagedItem(0)` if the text doesn't begin as a JSON list.
    pub fn new(
        alloc: Global,
        base: &'a str,
        text: &'a str,
        scratch: &'a mut Scratch,
    ) -> Result<DocumentReader<'a>, Failed<DamagedItem>>
        ensures begun { IfOk result (HasRead base.now text.now []) }
        ensures damaged { IfFault result (λ item. IsDamagedAt base.now text.now item.0) }
    {
        let mut reader = Reader::new(text, scratch)?;
        if !begins_list(&mut reader) {
            return Err(Failed::Because(DamagedItem(0)));
        }
        Ok(DocumentReader {
            base,
            reader,
            taken: Taken::new(alloc),
            number: 1,
        })
    }

    /// Reads the next item and returns its resource, or `None` if the list and the text end here.
    ///
    /// Fails with [`DamagedItem`]: the number, from 1, of the next item if it isn't the stored document of a
    /// resource below the base or repeats the id or a unique name of an earlier item. The number is 0 if the
    /// text isn't a JSON list. After `None` or an error the reader must not be used again.
    pub fn next(&mut self, alloc: Global) -> Result<Option<Resource>, Failed<DamagedItem>>
        ensures more { (base text : List ℕ) (cs : List Content) → HasRead base text cs self.old
            → IfOk result (λ found. IfSome found (λ r. HasRead base text (cs ++ r ∷ []) self.new)) }
        ensures whole { (base text : List ℕ) (cs : List Content) → HasRead base text cs self.old
            → result ≡ Ok None → IsDocumentsText base text cs }
        ensures damaged { (base text : List ℕ) (cs : List Content) → HasRead base text cs self.old
            → IfFault result (λ item. IsDamagedAt base text item.0) }
        ensures shorter { IfOk result (λ found. IfSome found
            (λ _. unread self.new < unread self.old)) }
    {
        if self.reader.take_end_array() {
            return if is_at_end(&mut self.reader) {
                Ok(None)
            } else {
                Err(Failed::Because(DamagedItem(0)))
            };
        }
        let item = match next_item(alloc, &mut self.reader) {
            Ok(item) => item,
            Err(Failed::Because(Damaged)) => return Err(Failed::Because(DamagedItem(0))),
            Err(Failed::NoMemory) => return Err(Failed::NoMemory),
        };
        let Some(resource) = self.taken.accept(alloc, self.base, &item)? else {
            let damaged = damaged_item(alloc, self.number, &item, &mut self.reader)?;
            return Err(Failed::Because(damaged));
        };
        // The text is in memory, so the number of its items is below the limit.
        let Some(number) = self.number.checked_add(1) else {
            return Err(Failed::NoMemory);
        };
        self.number = number;
        Ok(Some(resource))
    }
}

/// Whether the first token is the opening bracket of a list, which is taken.
fn begins_list(reader: &mut Reader<'_>) -> bool
    ensures { MatchBool result (reader.old ≡ ListToken.begin_array ∷ reader.new)
        ((rest : List ListToken) → reader.old ≢ ListToken.begin_array ∷ rest) }
{
    match reader.next() {
        Some(token) => matches!(token, Token::BeginArray),
        None => false,
    }
}

/// Whether no token is left. Takes the first one.
fn is_at_end(reader: &mut Reader<'_>) -> bool
    ensures { MatchBool result (reader.old ≡ []) (reader.old ≢ []) }
{
    reader.next().is_none()
}

/// Reads the next item of a list. Fails with `Damaged` if the tokens don't begin with a JSON value.
fn next_item<'a>(alloc: Global, reader: &mut Reader<'a>) -> Result<json::Value<'a>, Failed<Damaged>>
    ensures value { IfOk result (λ v. json.value item_depth reader.old
        ≡ Some (value_view v, reader.new)) }
    ensures shorter { OnOk result (length reader.new < length reader.old) }
    ensures numbers { IfOk result (λ v. HasNumbers (value_view v)) }
    ensures nests { IfOk result (λ v. nesting (value_view v) ≤ max_depth) }
    ensures damaged { IfFault result (λ _. json.value item_depth reader.old ≡ None) }
{
    match json::Value::read(alloc, reader, ITEM_DEPTH) {
        Ok(item) => Ok(item),
        Err(Error::OutOfMemory) => Err(Failed::NoMemory),
        Err(_) => Err(Failed::Because(Damaged)),
    }
}

/// Returns the JSON text of an item.
fn text_of(alloc: Global, item: &json::Value<'_>) -> Result<String, NoMemory>
    requires numbers { HasNumbers (value_view item.now) }
    requires nests { nesting (value_view item.now) ≤ max_depth }
    ensures { IfOk result (λ text. read (string_bytes text) ≡ of_json (value_view item.now)) }
{
    Ok(unsafe { String::from_utf8_unchecked(json::to_vec(alloc, item)?) })
}

/// Returns the resource below the base whose stored document is this item, or `None` if there is none.
/// `text` is the JSON text of the item.
fn read_printed(
    alloc: Global,
    base: &str,
    item: &json::Value<'_>,
    text: &str,
) -> Result<Option<Resource>, NoMemory>
    ensures { IfOk result (λ found. MatchOption found
        ((c : Content) → ¬ IsDocumentText base.now text.now c)
        (IsDocumentText base.now text.now)) }
{
    if let Some(resource) = resource_with(alloc, base, item, text)? {
        return Ok(Some(resource));
    }
    match read_spelled(alloc, base, text) {
        Ok(resource) => Ok(Some(resource)),
        Err(Failed::Because(Damaged)) => Ok(None),
        Err(Failed::NoMemory) => Err(NoMemory),
    }
}

/// Whether the item has a value that `serde_json` reads. A number that is too large for a float has none.
fn has_value(alloc: Global, item: &json::Value<'_>) -> Result<bool, NoMemory>
    requires numbers { HasNumbers (value_view item.now) }
    requires nests { nesting (value_view item.now) ≤ max_depth }
    ensures { IfOk result (λ has. MatchBool has
        ((d : Data) × (of_json (value_view item.now) ≡ Some d))
        (of_json (value_view item.now) ≡ None)) }
{
    let text = text_of(alloc, item)?;
    match parse(alloc, text.as_str()) {
        Ok(_) => Ok(true),
        Err(Failed::Because(Damaged)) => Ok(false),
        Err(Failed::NoMemory) => Err(NoMemory),
    }
}

/// Reads the next item of a list. Returns whether there is one that has a value; see [`has_value`].
fn skip_item(alloc: Global, reader: &mut Reader<'_>) -> Result<bool, NoMemory>
    ensures item { IfOk result (λ is. MatchBool is
        (IsItem reader.old reader.new) (IsNoItem reader.old)) }
    ensures shorter { IfOk result (λ is. IsTrue is → length reader.new < length reader.old) }
{
    match next_item(alloc, reader) {
        Ok(item) => has_value(alloc, &item),
        Err(Failed::Because(Damaged)) => Ok(false),
        Err(Failed::NoMemory) => Err(NoMemory),
    }
}

/// Whether the tokens that are left are items of a list, its end and nothing else.
fn is_rest_of_list(alloc: Global, reader: &mut Reader<'_>) -> Result<bool, NoMemory>
    ensures { IfOk result (λ is. (turns : ℕ) → length reader.old ≤ turns → MatchBool is
        ((ds : Items) × (rest_of_list turns reader.old ≡ Some ds))
        (rest_of_list turns reader.old ≡ None)) }
{
    'items: while !reader.take_end_array() {
        if !skip_item(alloc, reader)? {
            return Ok(false);
        }
    }
    Ok(is_at_end(reader))
}

/// Returns the number of a damaged item, or 0 if the text isn't a JSON list. `reader` has the tokens behind
/// the item.
fn damaged_item(
    alloc: Global,
    number: usize,
    item: &json::Value<'_>,
    reader: &mut Reader<'_>,
) -> Result<DamagedItem, NoMemory>
    requires numbers { HasNumbers (value_view item.now) }
    requires nests { nesting (value_view item.now) ≤ max_depth }
    ensures { IfOk result (λ damaged.
        ((damaged.0 ≡ number) × IsInList (value_view item.now) reader.old)
        ⊎ ((damaged.0 ≡ 0) × IsInNoList (value_view item.now) reader.old)) }
{
    if has_value(alloc, item)? && is_rest_of_list(alloc, reader)? {
        Ok(DamagedItem(number))
    } else {
        Ok(DamagedItem(0))
    }
}

/// Reads a users file. Returns the resources in the order of the list.
///
/// Fails with [`DamagedItem`]: the number, from 1, of the first item that isn't the stored document of a
/// resource below `base` or repeats the id or a unique name of an earlier item. The number is 0 if the
/// text isn't a JSON list.
pub fn read_documents(
    alloc: Global,
    base: &str,
    text: &str,
) -> Result<Vec<Resource>, Failed<DamagedItem>>
    ensures documents { IfOk result (λ v. IsDocumentsText base.now text.now v.items) }
    ensures damaged { IfFault result (λ item. IsDamagedAt base.now text.now item.0) }
{
    let mut scratch = Scratch::new(alloc);
    let mut documents = DocumentReader::new(alloc, base, text, &mut scratch)?;
    let mut resources = Vec::new(alloc);
    'items: while let Some(resource) = documents.next(alloc)? {
        push(&mut resources, resource)?;
    }
    Ok(resources)
}

/// Checks a users file. One resource at a time is in memory.
///
/// Fails with the same errors as [`read_documents`].
pub fn check_documents(alloc: Global, base: &str, text: &str) -> Result<(), Failed<DamagedItem>>
    ensures valid { OnOk result ((cs : List Content) × IsDocumentsText base.now text.now cs) }
    ensures damaged { IfFault result (λ item. IsDamagedAt base.now text.now item.0) }
{
    let mut scratch = Scratch::new(alloc);
    let mut documents = DocumentReader::new(alloc, base, text, &mut scratch)?;
    'items: while let Some(_resource) = documents.next(alloc)? {}
    Ok(())
}

impl Taken {
    /// Returns a record without ids and names.
    fn new(alloc: Global) -> Taken
        ensures { Records result [] }
    {
        Taken {
            ids: BTreeSet::new(alloc),
            names: BTreeSet::new(alloc),
        }
    }

    /// Returns the resource below the base whose stored document is this item, and adds its id and unique
    /// names. Returns `None` if there is no such resource, or if it repeats an id or a unique name.
    fn accept(
        &mut self,
        alloc: Global,
        base: &str,
        item: &json::Value<'_>,
    ) -> Result<Option<Resource>, NoMemory>
        requires numbers { HasNumbers (value_view item.now) }
        requires nests { nesting (value_view item.now) ≤ max_depth }
        ensures some { (cs : List Content) → Records self.old cs
            → IfOk result (λ found. IfSome found (λ r. IsResourceBelow base.now r
            × (of_json (value_view item.now) ≡ Some (stored_data r))
            × Records self.new (cs ++ r ∷ []) × All (λ b. AreApart b r) cs)) }
        ensures none { (cs : List Content) (d : Data) → Records self.old cs
            → of_json (value_view item.now) ≡ Some d
            → result ≡ Ok None → IsDamagedBeside base.now cs d }
    {
        let text = text_of(alloc, item)?;
        let Some(resource) = read_printed(alloc, base, item, text.as_str())? else {
            return Ok(None);
        };
        if self.add(alloc, &resource)? {
            Ok(Some(resource))
        } else {
            Ok(None)
        }
    }

    /// Adds the id and the unique names of a resource. Returns whether all of them were new.
    ///
    /// If this function returns `false` or memory runs out, some of them may have been added, so the
    /// record must not be used again.
    fn add(&mut self, alloc: Global, resource: &Resource) -> Result<bool, NoMemory>
        ensures free { (cs : List Content) → Records self.old cs → IfOk result (λ free. IsTrue free
            → Records self.new (cs ++ resource.now ∷ []) × All (λ b. AreApart b resource.now) cs) }
        ensures clash { (cs : List Content) → Records self.old cs
            → IfOk result (λ free. IsFalse free
            → ¬ All (λ b. AreApart b resource.now) cs) }
    {
        let names = unique_names(alloc, resource)?;
        if names.iter().any(|name| self.names.contains(name)) {
            return Ok(false);
        }
        self.names.extend(names)?;
        Ok(self.ids.insert(resource.id())?)
    }
}
