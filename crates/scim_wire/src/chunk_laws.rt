//! Proof that a chunked body can be read in only one way.
ghost use Rattle.std.specs.Prelude.{◌≡◌, ℕ, List, ◌++◌};
ghost use Rattle.scim_wire.specs.declared.chunk_faults.BadChunks.{BadChunks};
ghost use Rattle.scim_wire.specs.declared.chunked.ChunkedPart.{ChunkedPart};
ghost use Rattle.scim_wire.specs.Chunked.{IsChunked, IsChunkedPart, IsBadChunked};
ghost use Rattle.scim_wire.specs.ChunkParts.{StandsFor};

/// States that bytes are read as a chunked body in at most one way.
///
/// At most one prefix of the bytes is a whole body or an invalid body. This prefix has one content or one
/// fault, never both. If an unfinished [`ChunkedPart`] has read the bytes, no prefix of them is a whole or an
/// invalid body.
pub fn chunked_bodies_are_read_in_one_way()
    ensures part { (part : ChunkedPart) (bytes : List ℕ) → StandsFor part bytes
        → IsChunkedPart bytes }
    ensures one { (a b x y p q : List ℕ) → IsChunked a p → IsChunked b q → a ++ x ≡ b ++ y → (a ≡ b)
        × (p ≡ q) }
    ensures one_fault { (a b x y : List ℕ) (f g : BadChunks) → IsBadChunked a f → IsBadChunked b g
        → a ++ x ≡ b ++ y
        → (a ≡ b) × (f ≡ g) }
    ensures not_bad { (a b x y p : List ℕ) (f : BadChunks) → IsChunked a p → IsBadChunked b f
        → ¬ (a ++ x ≡ b ++ y) }
    ensures not_part { (a x p : List ℕ) → IsChunked a p → ¬ (IsChunkedPart (a ++ x)) }
    ensures bad_not_part { (a x : List ℕ) (f : BadChunks) → IsBadChunked a f
        → ¬ (IsChunkedPart (a ++ x)) }
{}
