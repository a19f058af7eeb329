//! Finds the end of a head.
ghost use Rattle.std.specs.Prelude.{◌↔◌, IsTrue};
ghost use Rattle.scim_wire.specs.Parts.{EndsHead, IsEmptyLine};

/// Whether the bytes are an empty line: LF or CR LF.
pub fn is_empty_line(bytes: &[u8]) -> bool
    ensures { IsTrue result ↔ IsEmptyLine bytes.now }
{
    bytes == b"\n".as_slice() || bytes == b"\r\n".as_slice()
}

/// Whether the bytes end with a line feed and an empty line.
pub fn ends_head(bytes: &[u8]) -> bool
    ensures { IsTrue result ↔ EndsHead bytes.now }
{
    bytes.ends_with(b"\n\n") || bytes.ends_with(b"\n\r\n")
}
