//! Whether two lists of rows are the same.
ghost use Rattle.std.specs.Prelude.{◌≡◌, ◌↔◌, IsTrue};

use crate::row::Row;

/// Whether the rows are the same, one by one.
pub fn same_rows(a: &[Row], b: &[Row]) -> bool
    ensures { IsTrue result ↔ (a.now ≡ b.now) }
{
    if a.len() != b.len() {
        return false;
    }
    for (p, q) in a.iter().zip(b) {
        if !p.is_same(q) {
            return false;
        }
    }
    true
}
