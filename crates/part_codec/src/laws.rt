// Laws of the definitions, for what is built on formats. A call does nothing, and a proof after it knows the law.

ghost use Rattle.std.specs.Prelude.{◌≡◌, ℕ, ◌<◌, List, ◌++◌, slice_index, Ok, Err};
ghost use Rattle.part_codec.specs.Format.{IsFormatValue, FormatValue, IsFormatBadAt, AllFitSizes, Part, format_bytes, format_at};

/// Of a format that is a list of parts: what is read is what stands there, and what stands there is read, whatever follows it. Where
/// nothing is read the first bad place is told. No two values have the same bytes.
pub const fn formats_are_exact()
    ensures read { (parts : List Part) (bytes rest : List ℕ) (value : FormatValue parts) → AllFitSizes parts → ((i : ℕ) → slice_index bytes i < 256)
        → format_at parts bytes ≡ Ok (value, rest) → IsFormatValue parts value × (bytes ≡ format_bytes parts value ++ rest) }
    ensures again { (parts : List Part) (rest : List ℕ) (value : FormatValue parts) → AllFitSizes parts → IsFormatValue parts value
        → format_at parts (format_bytes parts value ++ rest) ≡ Ok (value, rest) }
    ensures bad { (parts : List Part) (bytes : List ℕ) (left : ℕ) → AllFitSizes parts → ((i : ℕ) → slice_index bytes i < 256)
        → format_at parts bytes ≡ Err left → IsFormatBadAt parts bytes left }
    ensures one { (parts : List Part) (value other : FormatValue parts) → AllFitSizes parts → IsFormatValue parts value → IsFormatValue parts other
        → format_bytes parts value ≡ format_bytes parts other → value ≡ other }
{}
