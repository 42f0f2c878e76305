ghost use Rattle.std.specs.Prelude.{◌≡◌, ◌↔◌, ℕ, List, Some};
ghost use Rattle.verilog_lexicon.specs.declared.reserved.Reserved.{Reserved};
ghost use Rattle.verilog_lexicon.specs.Keywords.{reserved_of, spelling_of};

/// A law: a reserved word is found for its own bytes, and for no others.
pub fn key_words_are_found_by_their_bytes()
    ensures { (bytes : List ℕ) (r : Reserved) → (reserved_of bytes ≡ Some r) ↔ (bytes ≡ spelling_of r) }
{}
