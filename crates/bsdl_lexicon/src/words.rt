ghost use Rattle.std.specs.Prelude.{◌≡◌, length, slice_get};

use crate::token::BsdlSpanned;
use texts::Row;

/// The words of a text in order, with their places, and the text's length.
#[derive(Drop)]
pub struct BsdlWords {
    pub list: Row<BsdlSpanned>,
    pub end: u64,
}

impl BsdlWords {
    ghost use Rattle.bsdl_lexicon.specs.Words.{place_in};

    /// The count of words.
    pub fn len(&self) -> usize
        ensures { result ≡ length self.now.list }
    {
        self.list.len()
    }

    /// The offset of the word of this number; the text's length where there is none, as for the count of words.
    pub fn place_of(&self, number: usize) -> u64
        ensures { result ≡ place_in self.now.list self.now.end number }
    {
        match self.list.as_slice().get(number) {
            Some(spanned) => spanned.at,
            None => self.end,
        }
    }
}
