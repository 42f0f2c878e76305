// The bits of a number as constants that a shift stage captures, and those of two numbers by which of them it captures.

ghost use Rattle.std.specs.Prelude.{◌≡◌};
ghost use Rattle.register_gates.specs.Choices as choices;
ghost use Rattle.register_gates.specs.Constants.{constant_bits};

use netlist_model::{Feed, NetId};

/// The 32 bits of a number as constants, bit 0 first.
pub fn constants_of(value: u32) -> [Feed; 32]
    ensures { result ≡ constant_bits 32 value }
{
    let mut constants = [Feed::Const(false); 32];
    let mut rest = value;
    for place in 0..32 {
        constants[place] = Feed::Const(rest % 2 == 1);
        rest /= 2;
    }
    constants
}

// A bit that is the usercode's while the first net is 1, and the code's while the second is.
fn choice(code: bool, user: bool, on: NetId, off: NetId) -> Feed
    ensures { result ≡ choices.choice code user on off }
{
    match (code, user) {
        (false, true) => Feed::Net(on),
        (true, false) => Feed::Net(off),
        _ => Feed::Const(code),
    }
}

/// The 32 bits that are the usercode's while the first net is 1, and the code's while the second is, bit 0 first.
pub fn choices_of(code: u32, user: u32, on: NetId, off: NetId) -> [Feed; 32]
    ensures { result ≡ choices.choice_bits 32 code user on off }
{
    let mut chosen = [Feed::Const(false); 32];
    let mut code_rest = code;
    let mut user_rest = user;
    for place in 0..32 {
        chosen[place] = choice(code_rest % 2 == 1, user_rest % 2 == 1, on, off);
        code_rest /= 2;
        user_rest /= 2;
    }
    chosen
}
