//! The fields of a record.
ghost use Rattle.std.specs.Prelude.{◌≡◌, ◌≢◌, ◌∷◌, [], get_or, length, IfSome, IfNone};
ghost use Rattle.csv.specs.Records.{fields_of};

use csv::ByteRecord;

/// The four fields of a record. They borrow from it.
#[derive(Clone, Copy, Debug)]
pub(crate) struct Fields<'a> {
    pub word: &'a [u8],
    pub address: &'a [u8],
    pub name: &'a [u8],
    pub sha256: &'a [u8],
}

/// The fields, where there are four.
pub(crate) fn four_fields(row: &ByteRecord) -> Option<Fields<'_>>
    ensures some { IfSome result (λ four. fields_of row.now ≡ four.word.now ∷ four.address.now ∷ four.name.now ∷ four.sha256.now ∷ []) }
    ensures none { IfNone result (length (fields_of row.now) ≢ 4) }
{
    if row.len() != 4 {
        return None;
    }
    Some(Fields {
        word: field(row, 0),
        address: field(row, 1),
        name: field(row, 2),
        sha256: field(row, 3),
    })
}

/// The field at a place, or nothing.
fn field(row: &ByteRecord, place: usize) -> &[u8]
    ensures { result.now ≡ get_or (fields_of row.now) place [] }
{
    match row.get(place) {
        Some(field) => field,
        None => b"",
    }
}
