//! Whether two texts are the same.

ghost use Rattle.std.specs.Prelude.{◌≡◌, ◌↔◌, IsTrue};

/// Whether what was found is what was wanted, byte by byte.
pub fn is_same(want: &[u8], got: &[u8]) -> bool
    ensures { IsTrue result ↔ (want.now ≡ got.now) }
{
    want == got
}
