// Lines by their words. Of a line no more words are read than are needed.
ghost use Rattle.std.specs.Prelude.{◌≡◌, Some, None, MatchOption};
ghost use Rattle.word_cutter.specs.LinesWords.{words_of};
ghost use Rattle.word_cutter.specs.Forms as forms;

use crate::lines::words::next_word;

/// What follows the first word of a line, where that is the key.
pub fn after_key<'a>(key: &[u8], line: &'a [u8]) -> Option<&'a [u8]>
    ensures { MatchOption result (forms.after_key key.now (words_of line.now)
        ≡ None) (λ rest. forms.after_key key.now (words_of line.now) ≡ Some (words_of rest.now)) }
{
    let (first, rest) = next_word(line);
    if !first.is_empty() && first == key {
        Some(rest)
    } else {
        None
    }
}

/// The word of a line that has no other.
pub fn one_word(line: &[u8]) -> Option<&[u8]>
    ensures { MatchOption result (forms.one_of (words_of line.now)
        ≡ None) (λ a. forms.one_of (words_of line.now) ≡ Some a.now) }
{
    let (a, rest) = next_word(line);
    let (more, _) = next_word(rest);
    if a.is_empty() || !more.is_empty() {
        return None;
    }
    Some(a)
}

/// The words of a line of two.
pub fn two_words(line: &[u8]) -> Option<(&[u8], &[u8])>
    ensures { MatchOption result (forms.two_of (words_of line.now)
        ≡ None) (λ (a, b). forms.two_of (words_of line.now) ≡ Some (a.now, b.now)) }
{
    let (a, rest) = next_word(line);
    let (b, rest) = next_word(rest);
    let (more, _) = next_word(rest);
    if b.is_empty() || !more.is_empty() {
        return None;
    }
    Some((a, b))
}

/// The words of a line of three.
pub fn three_words(line: &[u8]) -> Option<(&[u8], &[u8], &[u8])>
    ensures { MatchOption result (forms.three_of (words_of line.now)
        ≡ None) (λ (a, b, c). forms.three_of (words_of line.now) ≡ Some (a.now, b.now, c.now)) }
{
    let (a, rest) = next_word(line);
    let (b, rest) = next_word(rest);
    let (c, rest) = next_word(rest);
    let (more, _) = next_word(rest);
    if c.is_empty() || !more.is_empty() {
        return None;
    }
    Some((a, b, c))
}

/// The words of a line of four.
pub fn four_words(line: &[u8]) -> Option<(&[u8], &[u8], &[u8], &[u8])>
    ensures { MatchOption result (forms.four_of (words_of line.now)
        ≡ None) (λ (a, b, c, d). forms.four_of (words_of line.now) ≡ Some (a.now, b.now, c.now, d.now)) }
{
    let (a, rest) = next_word(line);
    let (b, rest) = next_word(rest);
    let (c, rest) = next_word(rest);
    let (d, rest) = next_word(rest);
    let (more, _) = next_word(rest);
    if d.is_empty() || !more.is_empty() {
        return None;
    }
    Some((a, b, c, d))
}
