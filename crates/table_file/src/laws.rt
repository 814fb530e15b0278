// Laws of the definitions, for what is built on tables, and those from below on which tables stand. A call does nothing, and a proof
// behind it knows the law.

ghost use Rattle.std.specs.Prelude.{◌≡◌, ◌^◌, ◌<◌, ◌++◌, List, true};
ghost use Rattle.page_store.specs.declared.pages.Sizes.{Sizes};
ghost use Rattle.qsr_value.specs.declared.row.Value.{Value};
ghost use Rattle.qsr_value.specs.declared.schema.Column.{Column};
ghost use Rattle.table_file.specs.CatalogueBytes.{AreWords, IsCatalogue, catalogue_bytes};
ghost use Rattle.table_file.specs.Refusals.{exceeds};
ghost use Rattle.table_file.specs.declared.catalogue.Catalogue.{Catalogue};

pub(crate) use qsr_value::laws::encodings_are_exact;

/// No two catalogues have the same bytes.
pub fn catalogues_are_exact()
    ensures { (sizes others : Sizes) (catalogue other : Catalogue) → AreWords sizes → AreWords others
        → IsCatalogue sizes catalogue → IsCatalogue others other → catalogue_bytes catalogue ≡ catalogue_bytes other → catalogue ≡ other }
{}

/// A table that has no room for some rows has none for more of them.
pub fn more_rows_exceed()
    ensures { (sizes : Sizes) (columns : List Column) (rows more : List (List Value)) → exceeds sizes columns rows ≡ true → exceeds sizes columns (rows ++ more) ≡ true }
{}

/// The numbers of pages of a store are of four bytes.
pub(crate) fn are_words(table: u32, index: u32)
    ensures table { table < 2 ^ 32 }
    ensures index { index < 2 ^ 32 }
{}
