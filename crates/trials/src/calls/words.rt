// The words of a text that comes in two pieces, and the modules that words give.
use hier_flatten::parse_hier;
use std::alloc::Global;
use std::test::Fail;
use verilog_lexicon::Words;
use verilog_words::Cutter;

// A text, and the same cut inside its escaped name.
const WHOLE: &[u8] = br"module m(input \a+b , output y); buf(y,\a+b ); endmodule";

const FRONT: &[u8] = br"module m(input \a+b";

const REST: &[u8] = br" , output y); buf(y,\a+b ); endmodule";

const MODULES: &[u8] = b"module half(input a, output b); not(b, a); endmodule
module whole(input a, output c); wire b; half u(.a(a), .b(b)); half v(.a(b), .b(c)); endmodule
";

fn words_of(alloc: Global, pieces: &[&[u8]]) -> Result<Words, Fail> {
    let mut cutter = Cutter::new(alloc);
    for piece in pieces {
        cutter.feed(piece)?;
    }
    Ok(cutter.finish()?)
}

// Of words that are no numbers and no constants.
fn are_same_words(one: &Words, other: &Words) -> bool {
    for number in 0..one.len() {
        if one.place_of(number) != other.place_of(number)
            || one.reserved_at(number) != other.reserved_at(number)
            || one.symbol_at(number) != other.symbol_at(number)
            || one.name_at(number) != other.name_at(number)
        {
            return false;
        }
    }
    one.len() == other.len() && one.end() == other.end()
}

#[test]
fn a_text_in_two_pieces_has_the_words_of_the_whole(rt: HostRuntime) -> Result<(), Fail> {
    let whole = words_of(rt.alloc(), &[WHOLE])?;
    let pieces = words_of(rt.alloc(), &[FRONT, REST])?;
    assert_eq!(rt; pieces.len(), 18);
    assert!(rt; pieces.name_at(4) == Some(br"a+b".as_slice()));
    assert!(rt; are_same_words(&whole, &pieces));
    Ok(())
}

#[test]
fn words_give_their_modules(rt: HostRuntime) -> Result<(), Fail> {
    let words = words_of(rt.alloc(), &[MODULES])?;
    let hier = parse_hier(rt.alloc(), &words)?;
    let modules = hier.modules.as_slice();
    assert_eq!(rt; modules.len(), 2);
    assert!(rt; modules[1].name.as_bytes() == b"whole".as_slice());
    assert_eq!(rt; modules[1].items.len(), 2);
    Ok(())
}
