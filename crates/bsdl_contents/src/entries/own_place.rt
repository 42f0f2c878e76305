ghost use Rattle.std.specs.Prelude.{◌≡◌, ◌<◌, length, None, IfSome};
ghost use Rattle.bsdl_contents.specs.OwnPlaces.{place_from};

/// The place of the last comma before the first `[`.
#[tactic(auto, using(crate::proofs::OwnPlaces::place_here, crate::proofs::OwnPlaces::place_comma, crate::proofs::OwnPlaces::place_other, crate::proofs::OwnPlaces::place_past))]
pub fn own_place(bytes: &[u8]) -> Option<usize>
    ensures place { result ≡ place_from None 0 bytes.now }
    ensures within { IfSome result (λ at. at < length bytes.now) }
{
    let mut comma = None;
    for i in 0..bytes.len() {
        if bytes[i] == b'[' {
            return comma;
        }
        if bytes[i] == b',' {
            comma = Some(i);
        }
    }
    None
}
