ghost use Rattle.std.specs.Prelude.{◌≡◌, ℕ, List, [], ◌++◌, length, Some, OnOk, IfErr, IfOk, IfSome, Err};

use crate::fault::WordFault;
use crate::machine::WordMachine;
use std::alloc::Global;
use verilog_lexicon::Words;

/// Cuts a text into words as its bytes come.
#[derive(Drop)]
pub struct Cutter {
    cutter: word_cutter::Cutter<WordMachine>,
}

impl Cutter {
    ghost use Rattle.verilog_words.specs.Fed.{refusal_of, Fed, IsFault, IsEndFault};
    ghost use Rattle.verilog_lexicon.specs.Pieces.{Begins, words_of};
    ghost use Rattle.verilog_lexicon.specs.declared.word.Spanned.{Spanned};

    /// A cutter that was fed nothing; it takes no memory.
    pub fn new(alloc: Global) -> Cutter
        ensures { Fed result [] }
    {
        Cutter::with_room(alloc, 0)
    }

    /// A cutter that was fed nothing, with room for the words of a text of so many bytes, where memory is given. A word
    /// takes two bytes of a text or more as a rule; where they take fewer the room grows.
    pub fn with_room(alloc: Global, bytes: usize) -> Cutter
        ensures { Fed result [] }
    {
        Cutter {
            cutter: word_cutter::Cutter::new(WordMachine::new(alloc, bytes / 2)),
        }
    }

    /// Takes the next piece of the text, cut anywhere. After a refusal every call answers that same refusal.
    pub fn feed(&mut self, piece: &[u8]) -> Result<(), WordFault>
        ensures fed { OnOk result ((bytes : List ℕ) → Fed self.old bytes
            → Fed self.new (bytes ++ piece.now)) }
        ensures begins { OnOk result ((bytes : List ℕ) → Fed self.old bytes
            → Begins (bytes ++ piece.now)) }
        ensures fault { IfErr result (λ e. (bytes : List ℕ) → Fed self.old bytes
            → IsFault e (bytes ++ piece.now)) }
        ensures kept { IfErr result (λ e. refusal_of self.new ≡ Some e) }
        ensures again { IfSome (refusal_of self.old) (λ e. result ≡ Err e) }
    {
        if let Err(e) = self.cutter.feed(piece) {
            return Err(WordFault::from(e));
        }
        Ok(())
    }

    /// The words of the whole text, and its length.
    pub fn finish(self) -> Result<Words, WordFault>
        ensures words { IfOk result (λ w. (bytes : List ℕ) → Fed self bytes → words_of bytes w.list) }
        ensures only { IfOk result (λ w. (bytes : List ℕ) → Fed self bytes
            → (words : List Spanned) → words_of bytes words → words ≡ w.list) }
        ensures end { IfOk result (λ w. (bytes : List ℕ) → Fed self bytes → w.end ≡ length bytes) }
        ensures fault { IfErr result (λ e. (bytes : List ℕ) → Fed self bytes → IsEndFault e bytes) }
        ensures again { IfSome (refusal_of self) (λ e. result ≡ Err e) }
    {
        let Cutter { cutter } = self;
        let words = match cutter.finish() {
            Ok(words) => words,
            Err(e) => return Err(WordFault::from(e)),
        };
        Ok(words)
    }
}
