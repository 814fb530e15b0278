// The body of the catalogue: its bytes from a catalogue, and a catalogue from its bytes.

ghost use Rattle.std.specs.Prelude.{◌≡◌, ◌≤◌, length, take, IfOk, MatchOption};
ghost use Rattle.table_file.specs.CatalogueBytes.{IsCatalogueOf, IsNoCatalogue, IsOfStore, catalogue_bytes};

use crate::catalogue::Catalogue;
use crate::entry_bytes::{put_indexes, put_tables};
use crate::laws;
use crate::reading::all_of;
use page_store::Sizes;
use part_codec::Unread;
use qsr_value::Memory;
use std::alloc::Global;

/// How many bytes a body of the catalogue may have, and some more.
pub(crate) const BODY_BYTES: usize = 8192;

/// The catalogue of a store of these sizes that these bytes are. None where they are none.
pub(crate) fn read_catalogue(
    alloc: Global,
    sizes: &Sizes,
    body: &[u8],
) -> Result<Option<Catalogue>, Memory>
    ensures { IfOk result (λ found. MatchOption found (IsNoCatalogue sizes.now body.now) (IsCatalogueOf sizes.now body.now)) }
{
    // For the proof: a number of pages that is written is read back, since it is one of four bytes.
    laws::are_words(sizes.table, sizes.index);
    match all_of(alloc, sizes, body) {
        Ok(catalogue) => Ok(Some(catalogue)),
        Err(Unread::Bad { .. }) => Ok(None),
        Err(Unread::Memory) => Err(Memory),
    }
}

/// Writes the bytes of a catalogue to the front of a buffer, and answers how many they are.
pub(crate) fn put_catalogue(catalogue: &Catalogue, body: &mut [u8; BODY_BYTES]) -> usize
    requires { IsOfStore catalogue.now }
    ensures bytes { take result body.new ≡ catalogue_bytes catalogue.now }
    ensures most { result ≤ 8184 }
{
    let at = put_tables(catalogue.tables.as_slice(), body, 0);
    put_indexes(catalogue.indexes.as_slice(), body, at)
}
