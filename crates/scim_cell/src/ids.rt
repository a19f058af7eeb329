//! Ids of resources (RFC 7643 section 3.1, RFC 9562 section 4).
ghost use Rattle.std.specs.Prelude.{◌≡◌, ◌≤◌, ◌↔◌, length, IsSome, IfSome, IfOk};
ghost use Rattle.scim_cell.specs.Ids.{IsId, IsIdText, id_text, IdTextsHaveTheForm, IdTextsAreApart, OrdersIdsAsTexts};

use crate::atoms::Text;
use scim_text::NoMemory;
use std::alloc::Global;
use std::marker::Model;
use uuid::Uuid;

/// The id of a resource: a UUID, printed in the hyphenated form with lower-case letters (RFC 9562
/// section 4).
///
/// In contracts, an id is the list of its sixteen bytes. Ids are ordered by their bytes, first byte
/// first. Their texts have the same order.
#[derive(Clone, Copy, Debug, PartialEq, Eq, PartialOrd, Ord, Hash)]
pub struct Id {
    bytes: [u8; 16],
}

impl Model for Id {
    ghost use Rattle.std.specs.Prelude.{List, ℕ};
    ghost use Rattle.scim_cell.specs.Ids.{IsId};

    ghost Value = { List ℕ };

    ghost view = { λ i. i.bytes };

    ghost invariant = { λ i. IsId i.bytes };

    ghost inverse = { λ bytes. record { bytes = bytes } };
}

impl Id {
    /// The length of the text of an id, in bytes.
    pub const TEXT_LENGTH: usize = 36;

    /// Reads the text of an id: the hyphenated form with lower-case letters.
    ///
    /// Returns `None` for any other text, such as one in upper case, in braces, with the prefix
    /// `urn:uuid:` or without hyphens.
    pub fn read(text: &str) -> Option<Id>
        ensures form { IsSome result ↔ IsIdText text.now }
        ensures value { IfSome result (λ id. text.now ≡ id_text id) }
        ensures id { IfSome result IsId }
    {
        let id = id_of(Uuid::try_parse(text).ok()?);
        let mut buffer = [0; Id::TEXT_LENGTH];
        (id.write(&mut buffer) == text).then_some(id)
    }

    /// Returns the text of this id.
    pub fn text(self, alloc: Global) -> Result<Text, NoMemory>
        ensures value { IfOk result (λ t. t ≡ id_text self) }
        ensures id { IsId self }
    {
        let mut buffer = [0; Id::TEXT_LENGTH];
        Text::copy_of(alloc, self.write(&mut buffer))
    }

    /// Writes the text of this id to the start of `buffer`, and returns the text.
    ///
    /// `buffer` must have at least `TEXT_LENGTH` bytes.
    #[tactic(auto, unfolding(crate::specs::Ids::id_text))]
    pub fn write<'b>(self, buffer: &'b mut [u8]) -> &'b str
        requires { Self.TEXT_LENGTH ≤ length buffer.old }
        ensures value { result.now ≡ id_text self }
        ensures id { IsId self }
    {
        Uuid::from_bytes(self.bytes)
            .hyphenated()
            .encode_lower(buffer)
    }
}

/// The id with the bytes of a UUID.
///
/// This function and `uuid_of` aren't methods of `Id`, so that users of `Id` don't depend on the
/// contracts of `Uuid`.
pub fn id_of(uuid: Uuid) -> Id
    ensures value { result ≡ uuid }
    ensures id { IsId result }
{
    bytes_fit(uuid.as_bytes());
    Id {
        bytes: uuid.into_bytes(),
    }
}

/// The UUID with the bytes of an id.
pub fn uuid_of(id: Id) -> Uuid
    ensures value { result ≡ id }
    ensures id { IsId result }
{
    Uuid::from_bytes(id.bytes)
}

/// Lemma: each byte of a slice is below 256. Proofs know this fact for slices, but not for arrays.
fn bytes_fit(bytes: &[u8])
    requires { length bytes.now ≡ 16 }
    ensures { IsId bytes.now }
{}

/// Lemma: the text of an id has the form that [`Id::read`] accepts, and different ids have
/// different texts. So [`Id::read`] reads back the text of each id.
pub fn ids_read_back()
    ensures form { IdTextsHaveTheForm }
    ensures apart { IdTextsAreApart }
{}

/// Lemma: the order of ids is the byte order of their texts.
pub fn ids_ordered_as_texts()
    ensures { OrdersIdsAsTexts ⟦<Id as Ord>⟧.cmp }
{}
