ghost use Rattle.std.specs.Prelude.{◌≡◌, ◌==◌, ℕ, Bool, not};
ghost use Rattle.std.specs.List.{prefix_len};

/// A class of bytes.
pub trait ByteClass {
    ghost holds: { ℕ → Bool };

    fn holds(byte: u8) -> bool
        ensures { result ≡ holds byte };
}

/// Bytes that don't end a line.
pub struct LineBytes;

impl ByteClass for LineBytes {
    ghost holds = { λ b. not (b == 10) };

    fn holds(byte: u8) -> bool {
        byte != b'\n'
    }
}

/// How many bytes at the front of the piece are of the class.
pub fn run_len<C: ByteClass>(piece: &[u8]) -> usize
    ensures { result ≡ prefix_len C.holds piece.now }
{
    let mut count = 0;
    while count < piece.len() && C::holds(piece[count]) {
        count += 1;
    }
    count
}
