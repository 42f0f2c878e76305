// A library that is read, and printed in its canonical text.
use cell_text::{print_library, read_library};
use std::test::Fail;

const READ: &[u8] = b"cells 1
 gate AOI21 Y A B C : A B and C or not

flop F DFFNS Q D C S";

const PRINTED: &[u8] = b"cells 1
gate AOI21 Y A B C : A B and C or not
flop F DFFNS Q D C S
";

#[test]
fn a_library_is_printed(rt: HostRuntime) -> Result<(), Fail> {
    let library = read_library(rt.alloc(), READ)?;
    let printed = print_library(rt.alloc(), &library)?;
    assert!(rt; printed.as_bytes() == PRINTED);
    Ok(())
}
