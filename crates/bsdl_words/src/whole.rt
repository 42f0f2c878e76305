ghost use Rattle.std.specs.Prelude.{◌≡◌, List, length, IfErr, IfOk};
ghost use Rattle.bsdl_lexicon.specs.Pieces.{words_of};
ghost use Rattle.bsdl_lexicon.specs.declared.token.BsdlSpanned.{BsdlSpanned};
ghost use Rattle.bsdl_words.specs.Fed.{IsEndFault};

use crate::cutter::BsdlCutter;
use crate::fault::BsdlWordFault;
use bsdl_lexicon::BsdlWords;
use std::alloc::Global;

/// The words of a whole text, and its length.
pub fn cut(alloc: Global, text: &[u8]) -> Result<BsdlWords, BsdlWordFault>
    ensures words { IfOk result (λ w. words_of text.now w.list) }
    ensures only { IfOk result (λ w. (words : List BsdlSpanned) → words_of text.now words
        → words ≡ w.list) }
    ensures end { IfOk result (λ w. w.end ≡ length text.now) }
    ensures fault { IfErr result (λ e. IsEndFault e text.now) }
{
    let mut cutter = BsdlCutter::new(alloc);
    cutter.feed(text)?;
    cutter.finish()
}
