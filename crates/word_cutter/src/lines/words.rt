// Lines of a text and words of a line, from the front.
ghost use Rattle.std.specs.Prelude.{◌≡◌, ◌<◌, ◌≤◌, ◌∷◌, [], length, false};
ghost use Rattle.std.specs.List.{prefix_len, position_or_len};
ghost use Rattle.word_cutter.specs.LinesWords.{is_line_end, is_blank_byte, is_remark, lines_of, words_of};
ghost use Rattle.word_cutter.specs.Cut.{after_word, begins_blank};

fn is_blank(b: u8) -> bool
    ensures { result ≡ is_blank_byte b }
{
    b == b' ' || b == b'\t' || b == b'\r'
}

#[tactic(auto, using(crate::proofs::Cut::passed_len, crate::proofs::Cut::passed_within))]
fn line_len(text: &[u8]) -> usize
    ensures count { result ≡ position_or_len is_line_end text.now }
    ensures within { result ≤ length text.now }
{
    text.iter().take_while(|b| **b != b'\n').count()
}

#[tactic(auto, using(crate::proofs::Cut::passed_len, crate::proofs::Cut::passed_within))]
fn blanks_len(line: &[u8]) -> usize
    ensures count { result ≡ prefix_len is_blank_byte line.now }
    ensures within { result ≤ length line.now }
{
    line.iter().take_while(|b| is_blank(**b)).count()
}

#[tactic(auto, using(crate::proofs::Cut::passed_len, crate::proofs::Cut::passed_within))]
fn word_len(line: &[u8]) -> usize
    ensures count { result ≡ position_or_len is_blank_byte line.now }
    ensures within { result ≤ length line.now }
{
    line.iter().take_while(|b| !is_blank(**b)).count()
}

/// The first line, without its end, and the text that follows it.
pub fn split_line(text: &[u8]) -> (&[u8], &[u8])
    requires { 0 < length text.now }
    ensures lines { lines_of text.now ≡ result.0.now ∷ lines_of result.1.now }
    ensures shorter { length result.1.now < length text.now }
{
    let end = line_len(text);
    if end < text.len() {
        (&text[..end], &text[end + 1..])
    } else {
        (text, &text[text.len()..])
    }
}

fn without_blanks(line: &[u8]) -> &[u8]
    ensures words { words_of result.now ≡ words_of line.now }
    ensures begins { begins_blank result.now ≡ false }
{
    &line[blanks_len(line)..]
}

/// The first word, and the line that follows it; no bytes where the line has no word.
pub fn next_word(line: &[u8]) -> (&[u8], &[u8])
    ensures words { words_of line.now ≡ after_word result.0.now (words_of result.1.now) }
    ensures none { result.0.now ≡ [] → words_of result.1.now ≡ [] }
{
    let line = without_blanks(line);
    let end = word_len(line);
    (&line[..end], &line[end..])
}

/// Whether a line with this first word is a remark.
pub fn is_remark(word: &[u8]) -> bool
    ensures { result ≡ is_remark word.now }
{
    match word {
        [first, ..] => *first == b'#',
        [] => false,
    }
}
