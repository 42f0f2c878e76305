ghost use Rattle.std.specs.Prelude.{◌≡◌, map};
ghost use Rattle.std.specs.List.{list_any};
ghost use Rattle.bsdl_lexicon.specs.Names.{is_same_name};
ghost use Rattle.bsdl_lexicon.specs.Reserved as reserved;
ghost use Rattle.bsdl_lexicon.specs.ByLetter as letters;

use crate::names::{lower, same_name};

const WITH_A: [&[u8]; 10] = [
    b"abs",
    b"access",
    b"after",
    b"alias",
    b"all",
    b"and",
    b"architecture",
    b"array",
    b"assert",
    b"attribute",
];

const WITH_B: [&[u8]; 5] = [b"begin", b"block", b"body", b"buffer", b"bus"];

const WITH_C: [&[u8]; 4] = [b"case", b"component", b"configuration", b"constant"];

const WITH_D: [&[u8]; 2] = [b"disconnect", b"downto"];

const WITH_E: [&[u8]; 5] = [b"else", b"elsif", b"end", b"entity", b"exit"];

const WITH_F: [&[u8]; 3] = [b"file", b"for", b"function"];

const WITH_G: [&[u8]; 4] = [b"generate", b"generic", b"group", b"guarded"];

const WITH_I: [&[u8]; 6] = [b"if", b"impure", b"in", b"inertial", b"inout", b"is"];

const WITH_L: [&[u8]; 5] = [b"label", b"library", b"linkage", b"literal", b"loop"];

const WITH_M: [&[u8]; 2] = [b"map", b"mod"];

const WITH_N: [&[u8]; 6] = [b"nand", b"new", b"next", b"nor", b"not", b"null"];

const WITH_O: [&[u8]; 6] = [b"of", b"on", b"open", b"or", b"others", b"out"];

const WITH_P: [&[u8]; 6] = [
    b"package",
    b"port",
    b"postponed",
    b"procedure",
    b"process",
    b"pure",
];

const WITH_R: [&[u8]; 9] = [
    b"range",
    b"record",
    b"register",
    b"reject",
    b"rem",
    b"report",
    b"return",
    b"rol",
    b"ror",
];

const WITH_S: [&[u8]; 9] = [
    b"select",
    b"severity",
    b"shared",
    b"signal",
    b"sla",
    b"sll",
    b"sra",
    b"srl",
    b"subtype",
];

const WITH_T: [&[u8]; 4] = [b"then", b"to", b"transport", b"type"];

const WITH_U: [&[u8]; 4] = [b"unaffected", b"units", b"until", b"use"];

const WITH_V: [&[u8]; 1] = [b"variable"];

const WITH_W: [&[u8]; 4] = [b"wait", b"when", b"while", b"with"];

const WITH_X: [&[u8]; 2] = [b"xnor", b"xor"];

// The reserved words that begin by this letter, which is in lower case.
fn words_with(first: u8) -> &'static [&'static [u8]]
    ensures { map (λ w. w.now) result.now ≡ letters.reserved_with first }
{
    match first {
        b'a' => WITH_A.as_slice(),
        b'b' => WITH_B.as_slice(),
        b'c' => WITH_C.as_slice(),
        b'd' => WITH_D.as_slice(),
        b'e' => WITH_E.as_slice(),
        b'f' => WITH_F.as_slice(),
        b'g' => WITH_G.as_slice(),
        b'i' => WITH_I.as_slice(),
        b'l' => WITH_L.as_slice(),
        b'm' => WITH_M.as_slice(),
        b'n' => WITH_N.as_slice(),
        b'o' => WITH_O.as_slice(),
        b'p' => WITH_P.as_slice(),
        b'r' => WITH_R.as_slice(),
        b's' => WITH_S.as_slice(),
        b't' => WITH_T.as_slice(),
        b'u' => WITH_U.as_slice(),
        b'v' => WITH_V.as_slice(),
        b'w' => WITH_W.as_slice(),
        b'x' => WITH_X.as_slice(),
        _ => &[],
    }
}

// Whether the name is one of these words.
fn is_among(name: &[u8], words: &[&[u8]]) -> bool
    ensures { result ≡ list_any (λ w. is_same_name name.now w.now) words.now }
{
    words.iter().any(|word| same_name(name, word))
}

// Whether the name is a reserved word that begins by this letter.
fn is_reserved_with(first: u8, name: &[u8]) -> bool
    ensures { result ≡ letters.is_among (letters.reserved_with first) name.now }
{
    is_among(name, words_with(first))
}

/// Whether the identifier is a reserved word of VHDL-93, in any case of its letters: one that is can't be a name.
pub fn is_reserved(name: &[u8]) -> bool
    ensures { result ≡ reserved.is_reserved name.now }
{
    let [first, ..] = name else {
        return false;
    };
    is_reserved_with(lower(*first), name)
}
