//! The values of a row that a query showed.
ghost use Rattle.std.specs.Prelude.{◌≡◌, ◌≢◌, ◌↔◌, ℤ, pos, IsTrue, MatchOption};
ghost use Rattle.sqlite_value.specs.Order.{column};
ghost use Rattle.sqlite_value.specs.Value.{owned};
ghost use Rattle.sqlite_value.specs.declared.value.Value.TheVariants.{Int, Blob};

use sqlite::types::ValueRef;

/// The integer in the first column of a row, if it is one.
pub fn id_of(row: &sqlite::Row) -> Option<i64>
    ensures { MatchOption result ((id : ℤ) → column row.now 0 ≢ Int id)
        (λ id. column row.now 0 ≡ Int id) }
{
    match value_at(row, 0) {
        ValueRef::Int(id) => Some(id),
        _ => None,
    }
}

/// The value of a column, NULL past the last one.
pub fn value_at(row: &sqlite::Row, at: usize) -> ValueRef<'_>
    ensures { owned result ≡ column row.now at }
{
    match row.get_ref(at) {
        Ok(value) => value,
        Err(_) => ValueRef::Null,
    }
}

/// Whether the first column of a row is these octets.
pub fn has_blob(row: &sqlite::Row, octets: &[u8]) -> bool
    ensures { IsTrue result ↔ (column row.now 0 ≡ Blob octets.now) }
{
    match value_at(row, 0) {
        ValueRef::Blob(blob) => blob == octets,
        _ => false,
    }
}

/// Whether a column of a row is this count.
pub fn has_count(row: &sqlite::Row, at: usize, count: u64) -> bool
    ensures { IsTrue result ↔ (column row.now at ≡ Int (pos count)) }
{
    match value_at(row, at) {
        ValueRef::Int(kept) => kept >= 0 && kept as u64 == count,
        _ => false,
    }
}
