// The kept lines of a text, one after the other.
ghost use Rattle.std.specs.Prelude.{◌≡◌, ◌∷◌, ◌+◌, ◌<◌, ◌^◌, [], length, MatchOption};
ghost use Rattle.word_cutter.specs.LinesWords.{lines_of, words_of, is_kept, kept_lines};
ghost use Rattle.word_cutter.specs.Ahead.{ahead_of, first_number, rest_of};

use crate::lines::words::{is_remark, next_word, split_line};
use std::marker::Model;

/// Stands at a kept line of a text, or behind its last.
#[derive(Drop)]
pub struct LineReader<'a> {
    /// The text from this line on.
    text: &'a [u8],
    /// The number of this line, or of the line after the text's last; lines are counted from 1, those that
    /// are skipped too.
    number: u64,
}

impl<'a> Model for LineReader<'a> {
    ghost use Rattle.word_cutter.specs.Ahead.{Ahead, StandsAt, ahead_of};

    ghost Value = { Ahead };

    ghost view = { λ r. ahead_of r.number r.text.now };

    ghost invariant = { λ r. StandsAt r.number r.text.now };
}

// The line has a word, and the first is no remark.
fn is_kept(line: &[u8]) -> bool
    ensures { result ≡ is_kept (words_of line.now) }
{
    let (first, _) = next_word(line);
    !first.is_empty() && !is_remark(first)
}

// From a line with this number to the first that is kept.
fn at_kept(text: &[u8], number: u64) -> LineReader<'_>
    requires { number + length text.now < 2 ^ 64 }
    ensures { result ≡ ahead_of number text.now }
{
    let mut text = text;
    let mut number = number;
    while !text.is_empty() {
        let (line, rest) = split_line(text);
        if is_kept(line) {
            break;
        }
        text = rest;
        number += 1;
    }
    LineReader { text, number }
}

impl<'a> LineReader<'a> {
    /// At the first kept line.
    pub fn new(text: &'a [u8]) -> LineReader<'a>
        ensures rows { result.rows ≡ kept_lines text.now }
        ensures end { result.end ≡ length (lines_of text.now) + 1 }
    {
        at_kept(text, 1)
    }

    /// The number of this line, or of the line after the text's last.
    pub fn number(&self) -> u64
        ensures { result ≡ first_number self.now.end self.now.rows }
    {
        self.number
    }

    /// This line.
    pub fn line(&self) -> Option<&'a [u8]>
        ensures { MatchOption result (self.now.rows ≡ []) (λ line. self.now.rows
            ≡ (first_number self.now.end self.now.rows, words_of line.now) ∷ rest_of self.now.rows) }
    {
        if self.text.is_empty() {
            return None;
        }
        let (line, _) = split_line(self.text);
        Some(line)
    }

    /// Goes on to the next kept line; behind the last it stays.
    pub fn pass(&mut self)
        ensures rows { self.new.rows ≡ rest_of self.old.rows }
        ensures end { self.new.end ≡ self.old.end }
    {
        if self.text.is_empty() {
            return;
        }
        let (_, rest) = split_line(self.text);
        let next = at_kept(rest, self.number + 1);
        self.text = next.text;
        self.number = next.number;
    }
}
