ghost use Rattle.std.specs.Prelude.{◌≡◌};
ghost use Rattle.input_lines.specs.Lines.{without_cr};

/// The text of a line without the carriage return that may stand before its end.
pub fn without_cr(text: &[u8]) -> &[u8]
    ensures { result.now ≡ without_cr text.now }
{
    text.strip_suffix(b"\r").unwrap_or(text)
}
