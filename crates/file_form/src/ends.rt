//! The ends of the lines of a CWR file.

ghost use Rattle.std.specs.Prelude.{◌≡◌};
ghost use Rattle.file_form.specs.Ends.{has_returns_alone};

/// Whether there are carriage returns and no line feed, so that all of a file reads as one line.
pub fn has_returns_alone(bytes: &[u8]) -> bool
    ensures { result ≡ has_returns_alone bytes.now }
{
    bytes.contains(&b'\r') && !bytes.contains(&b'\n')
}
