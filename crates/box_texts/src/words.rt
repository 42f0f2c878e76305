// The words of a line.
ghost use Rattle.std.specs.Prelude.{◌≡◌, IfOk};
ghost use Rattle.word_cutter.specs.LinesWords.{words_of};
ghost use Rattle.texts.specs.Repeated.{texts};
ghost use Rattle.cell_text.specs.Words.{is_colon};

use texts::OutOfMemory;
use word_cutter::lines::next_word;

/// All words of a line.
pub(crate) fn gather_words<'a>(line: &'a [u8], words: &mut Vec<&'a [u8]>) -> Result<(), OutOfMemory>
    ensures { IfOk result (λ _. texts words.new.items ≡ words_of line.now) }
{
    words.clear();
    let mut left = line;
    loop {
        let (word, rest) = next_word(left);
        if word.is_empty() {
            return Ok(());
        }
        words.push(word)?;
        left = rest;
    }
}

pub(crate) fn is_colon(word: &[u8]) -> bool
    ensures { result ≡ is_colon word.now }
{
    word == b":".as_slice()
}
