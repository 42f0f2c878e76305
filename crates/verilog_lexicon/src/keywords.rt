ghost use Rattle.std.specs.Prelude.{◌≡◌};
ghost use Rattle.std.specs.List.{list_all};
ghost use Rattle.verilog_lexicon.specs.Keywords as keys;
ghost use Rattle.verilog_lexicon.specs.ByLetter as letters;
ghost use Rattle.verilog_lexicon.specs.Bytes as bytes;

use crate::reserved::Reserved;

const WITH_A: [Reserved; 4] = [
    Reserved::Always,
    Reserved::And,
    Reserved::Assign,
    Reserved::Automatic,
];

const WITH_B: [Reserved; 4] = [
    Reserved::Begin,
    Reserved::Buf,
    Reserved::Bufif0,
    Reserved::Bufif1,
];

const WITH_C: [Reserved; 6] = [
    Reserved::Case,
    Reserved::Casex,
    Reserved::Casez,
    Reserved::Cell,
    Reserved::Cmos,
    Reserved::Config,
];

const WITH_D: [Reserved; 5] = [
    Reserved::Deassign,
    Reserved::Default,
    Reserved::Defparam,
    Reserved::Design,
    Reserved::Disable,
];

const WITH_E: [Reserved; 13] = [
    Reserved::Edge,
    Reserved::Else,
    Reserved::End,
    Reserved::Endcase,
    Reserved::Endconfig,
    Reserved::Endfunction,
    Reserved::Endgenerate,
    Reserved::Endmodule,
    Reserved::Endprimitive,
    Reserved::Endspecify,
    Reserved::Endtable,
    Reserved::Endtask,
    Reserved::Event,
];

const WITH_F: [Reserved; 5] = [
    Reserved::For,
    Reserved::Force,
    Reserved::Forever,
    Reserved::Fork,
    Reserved::Function,
];

const WITH_G: [Reserved; 2] = [Reserved::Generate, Reserved::Genvar];

const WITH_H: [Reserved; 2] = [Reserved::Highz0, Reserved::Highz1];

const WITH_I: [Reserved; 9] = [
    Reserved::If,
    Reserved::Ifnone,
    Reserved::Incdir,
    Reserved::Include,
    Reserved::Initial,
    Reserved::Inout,
    Reserved::Input,
    Reserved::Instance,
    Reserved::Integer,
];

const WITH_J: [Reserved; 1] = [Reserved::Join];

const WITH_L: [Reserved; 4] = [
    Reserved::Large,
    Reserved::Liblist,
    Reserved::Library,
    Reserved::Localparam,
];

const WITH_M: [Reserved; 3] = [Reserved::Macromodule, Reserved::Medium, Reserved::Module];

const WITH_N: [Reserved; 8] = [
    Reserved::Nand,
    Reserved::Negedge,
    Reserved::Nmos,
    Reserved::Nor,
    Reserved::Noshowcancelled,
    Reserved::Not,
    Reserved::Notif0,
    Reserved::Notif1,
];

const WITH_O: [Reserved; 2] = [Reserved::Or, Reserved::Output];

const WITH_P: [Reserved; 10] = [
    Reserved::Parameter,
    Reserved::Pmos,
    Reserved::Posedge,
    Reserved::Primitive,
    Reserved::Pull0,
    Reserved::Pull1,
    Reserved::Pulldown,
    Reserved::Pullup,
    Reserved::PulsestyleOndetect,
    Reserved::PulsestyleOnevent,
];

const WITH_R: [Reserved; 11] = [
    Reserved::Rcmos,
    Reserved::Real,
    Reserved::Realtime,
    Reserved::Reg,
    Reserved::Release,
    Reserved::Repeat,
    Reserved::Rnmos,
    Reserved::Rpmos,
    Reserved::Rtran,
    Reserved::Rtranif0,
    Reserved::Rtranif1,
];

const WITH_S: [Reserved; 10] = [
    Reserved::Scalared,
    Reserved::Showcancelled,
    Reserved::Signed,
    Reserved::Small,
    Reserved::Specify,
    Reserved::Specparam,
    Reserved::Strong0,
    Reserved::Strong1,
    Reserved::Supply0,
    Reserved::Supply1,
];

const WITH_T: [Reserved; 12] = [
    Reserved::Table,
    Reserved::Task,
    Reserved::Time,
    Reserved::Tran,
    Reserved::Tranif0,
    Reserved::Tranif1,
    Reserved::Tri,
    Reserved::Tri0,
    Reserved::Tri1,
    Reserved::Triand,
    Reserved::Trior,
    Reserved::Trireg,
];

const WITH_U: [Reserved; 2] = [Reserved::Unsigned, Reserved::Use];

const WITH_V: [Reserved; 1] = [Reserved::Vectored];

const WITH_W: [Reserved; 7] = [
    Reserved::Wait,
    Reserved::Wand,
    Reserved::Weak0,
    Reserved::Weak1,
    Reserved::While,
    Reserved::Wire,
    Reserved::Wor,
];

const WITH_X: [Reserved; 2] = [Reserved::Xnor, Reserved::Xor];

// The reserved words that begin with this byte.
fn words_with(first: u8) -> &'static [Reserved]
    ensures { result.now ≡ letters.words_with first }
{
    match first {
        b'a' => WITH_A.as_slice(),
        b'b' => WITH_B.as_slice(),
        b'c' => WITH_C.as_slice(),
        b'd' => WITH_D.as_slice(),
        b'e' => WITH_E.as_slice(),
        b'f' => WITH_F.as_slice(),
        b'g' => WITH_G.as_slice(),
        b'h' => WITH_H.as_slice(),
        b'i' => WITH_I.as_slice(),
        b'j' => WITH_J.as_slice(),
        b'l' => WITH_L.as_slice(),
        b'm' => WITH_M.as_slice(),
        b'n' => WITH_N.as_slice(),
        b'o' => WITH_O.as_slice(),
        b'p' => WITH_P.as_slice(),
        b'r' => WITH_R.as_slice(),
        b's' => WITH_S.as_slice(),
        b't' => WITH_T.as_slice(),
        b'u' => WITH_U.as_slice(),
        b'v' => WITH_V.as_slice(),
        b'w' => WITH_W.as_slice(),
        b'x' => WITH_X.as_slice(),
        _ => &[],
    }
}

// The one of these words that has these bytes.
fn spelled_by(name: &[u8], words: &[Reserved]) -> Option<Reserved>
    ensures { result ≡ letters.spelled_by name.now words.now }
{
    words.iter().copied().find(|word| name == word.spelling())
}

/// The reserved word with these bytes, if there is one.
pub fn reserved_of(name: &[u8]) -> Option<Reserved>
    ensures { result ≡ keys.reserved_of name.now }
{
    let [first, second, ..] = name else {
        return None;
    };
    // The second byte of each is a small letter.
    if *second < b'a' {
        return None;
    }
    spelled_by(name, words_with(*first))
}

/// Whether the byte is a letter or `_`.
pub fn is_letter(b: u8) -> bool
    ensures { result ≡ bytes.is_letter b }
{
    (b'A' <= b && b <= b'Z') || (b'a' <= b && b <= b'z') || b == b'_'
}

/// Whether the byte goes on in a name: a letter, a digit, `_` or `$`.
pub fn is_name_byte(b: u8) -> bool
    ensures { result ≡ bytes.is_name_byte b }
{
    is_letter(b) || (b'0' <= b && b <= b'9') || b == b'$'
}

fn are_name_bytes(name: &[u8]) -> bool
    ensures { result ≡ list_all bytes.is_name_byte name.now }
{
    name.iter().all(|b| is_name_byte(*b))
}

/// Whether the bytes are letters, digits, `_` and `$`, of which the first is a letter or `_`; as many as there are.
pub fn is_simple_name(name: &[u8]) -> bool
    ensures { result ≡ bytes.is_simple_name name.now }
{
    let [first, ..] = name else {
        return false;
    };
    is_letter(*first) && are_name_bytes(name)
}
