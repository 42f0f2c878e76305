ghost use Rattle.std.specs.Prelude.{◌≡◌, ℕ, List, [], ◌++◌, length, Some, OnOk, IfErr, IfOk, IfSome, Err};

use crate::fault::BsdlWordFault;
use crate::machine::BsdlMachine;
use bsdl_lexicon::BsdlWords;
use std::alloc::Global;

/// Cuts a BSDL text into words as its bytes come.
#[derive(Drop)]
pub struct BsdlCutter {
    cutter: word_cutter::Cutter<BsdlMachine>,
}

impl BsdlCutter {
    ghost use Rattle.bsdl_words.specs.Fed.{refusal_of, Fed, IsFault, IsEndFault};
    ghost use Rattle.bsdl_lexicon.specs.Pieces.{Begins, words_of};
    ghost use Rattle.bsdl_lexicon.specs.declared.token.BsdlSpanned.{BsdlSpanned};

    /// A cutter that was fed nothing; it takes no memory.
    pub fn new(alloc: Global) -> BsdlCutter
        ensures { Fed result [] }
    {
        BsdlCutter {
            cutter: word_cutter::Cutter::new(BsdlMachine::new(alloc)),
        }
    }

    /// Takes the next piece of the text, cut anywhere. After a refusal every call answers that same refusal.
    pub fn feed(&mut self, piece: &[u8]) -> Result<(), BsdlWordFault>
        ensures fed { OnOk result ((bytes : List ℕ) → Fed self.old bytes
            → Fed self.new (bytes ++ piece.now)) }
        ensures begins { OnOk result ((bytes : List ℕ) → Fed self.old bytes
            → Begins (bytes ++ piece.now)) }
        ensures fault { IfErr result (λ e. (bytes : List ℕ) → Fed self.old bytes
            → IsFault e (bytes ++ piece.now)) }
        ensures kept { IfErr result (λ e. refusal_of self.new ≡ Some e) }
        ensures again { IfSome (refusal_of self.old) (λ e. result ≡ Err e) }
    {
        if let Err(e) = self.cutter.feed(piece) {
            return Err(BsdlWordFault::from(e));
        }
        Ok(())
    }

    /// The words of the whole text, and its length.
    pub fn finish(self) -> Result<BsdlWords, BsdlWordFault>
        ensures words { IfOk result (λ w. (bytes : List ℕ) → Fed self bytes → words_of bytes w.list) }
        ensures only { IfOk result (λ w. (bytes : List ℕ) → Fed self bytes
            → (words : List BsdlSpanned) → words_of bytes words → words ≡ w.list) }
        ensures end { IfOk result (λ w. (bytes : List ℕ) → Fed self bytes → w.end ≡ length bytes) }
        ensures fault { IfErr result (λ e. (bytes : List ℕ) → Fed self bytes → IsEndFault e bytes) }
        ensures again { IfSome (refusal_of self) (λ e. result ≡ Err e) }
    {
        let BsdlCutter { cutter } = self;
        let words = match cutter.finish() {
            Ok(words) => words,
            Err(e) => return Err(BsdlWordFault::from(e)),
        };
        Ok(words)
    }
}
