ghost use Rattle.std.specs.Prelude.{◌≡◌, ◌↔◌, IsTrue};
ghost use Rattle.bsdl_lexicon.specs.Names as names;

/// The byte in lower case.
pub fn lower(b: u8) -> u8
    ensures { result ≡ names.lower b }
{
    if b'A' <= b && b <= b'Z' { b + 32 } else { b }
}

/// Whether two identifiers are one: the same bytes, but for the case of ASCII letters.
pub fn same_name(a: &[u8], b: &[u8]) -> bool
    ensures test { result ≡ names.is_same_name a.now b.now }
    ensures same { IsTrue result ↔ names.same_name a.now b.now }
{
    if a.len() != b.len() {
        return false;
    }
    for i in 0..a.len() {
        if lower(a[i]) != lower(b[i]) {
            return false;
        }
    }
    true
}
