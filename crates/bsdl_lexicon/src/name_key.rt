// Names as keys of tables.
ghost use Rattle.std.specs.Prelude.{◌≡◌, fold, nat_eq, map};
ghost use Rattle.std.proofs.Common.{rules};
ghost use Rattle.std.specs.Hash as fed;
ghost use Rattle.std.specs.Cmp.Lexicographic.{pointwise};
ghost use Rattle.std.specs.Cmp.Rules.{comparing, hashing};
ghost use Rattle.std.specs.Ordering.{on};
ghost use Rattle.bsdl_lexicon.specs.Names as spelled;

use crate::names::{lower, same_name};
use std::hash::{Hash, Hasher};

/// A name: two that differ only in the case of letters are one key.
#[derive(Clone, Copy)]
pub struct NameKey<'a>(pub &'a [u8]);

impl<'a> PartialEq for NameKey<'a> {
    ghost eq = { on (λ k. map spelled.lower k.0.now) (pointwise nat_eq) };

    ghost laws = { Prim.search (comparing, rules) };

    fn eq(&self, other: &NameKey<'a>) -> bool {
        same_name(self.0, other.0)
    }
}

impl<'a> Eq for NameKey<'a> {
    ghost laws = { Prim.search (comparing, rules) };
}

impl<'a> Hash for NameKey<'a> {
    ghost hash_input = { λ k. fed.slice fed.u8 (map spelled.lower k.0.now) };

    ghost respects_eq = { Prim.search (hashing, rules) };

    fn hash<H: Hasher>(&self, state: &mut H) {
        hash_lowered(self.0, state);
    }
}

fn hash_lowered<H: Hasher>(name: &[u8], state: &mut H)
    ensures { state.new ≡ fold H.write state.old (fed.slice fed.u8 (map spelled.lower name.now)) }
{
    state.write_usize(name.len());
    for byte in name {
        state.write_u8(lower(*byte));
    }
}
