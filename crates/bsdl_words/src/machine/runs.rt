// Runs of bytes that are taken at once.

ghost use Rattle.std.specs.Prelude.{◌≡◌, ◌+◌, ◌^◌, ◌<◌, ◌≤◌, length};
ghost use Rattle.std.specs.List.{prefix_len};
ghost use Rattle.bsdl_lexicon.specs.Bytes.{is_letter_or_digit};
ghost use Rattle.bsdl_words.specs.declared.mode.Mode.{Mode};

use super::BsdlMachine;
use crate::classes::{BlankBytes, LetterBytes, QuotableBytes};
use crate::mode::Mode;
use word_cutter::{CutFault, LineBytes, run_len};

impl BsdlMachine {
    ghost use Rattle.bsdl_words.specs.Steps.{state_of, Takes};

    // One byte.
    fn take_byte(&mut self, at: u64, piece: &[u8]) -> Result<usize, CutFault>
        requires { 0 < length piece.now }
        ensures { Takes self.new (state_of self.old) at piece.now result }
    {
        if let Err(e) = self.step(at, piece[0]) {
            return Err(e);
        }
        Ok(1)
    }

    // Blanks, or one byte that begins another piece.
    fn take_between(&mut self, at: u64, piece: &[u8]) -> Result<usize, CutFault>
        requires between { self.old.mode ≡ Mode.Between }
        requires some { 0 < length piece.now }
        ensures { Takes self.new (state_of self.old) at piece.now result }
    {
        let count = run_len::<BlankBytes>(piece);
        if count == 0 {
            return self.take_byte(at, piece);
        }
        Ok(count)
    }

    // The bytes up to the end of a line, or the one that ends it.
    fn take_in_comment(&mut self, at: u64, piece: &[u8]) -> Result<usize, CutFault>
        requires comment { self.old.mode ≡ Mode.Comment }
        requires some { 0 < length piece.now }
        ensures { Takes self.new (state_of self.old) at piece.now result }
    {
        let count = run_len::<LineBytes>(piece);
        if count == 0 {
            return self.take_byte(at, piece);
        }
        Ok(count)
    }

    fn keep_letters(&mut self, at: u64, piece: &[u8], count: usize) -> Result<usize, CutFault>
        requires name { self.old.mode ≡ Mode.Name }
        requires some { 0 < count }
        requires all { prefix_len is_letter_or_digit piece.now ≡ count }
        requires short { length self.old.pending + count ≤ 255 }
        ensures { Takes self.new (state_of self.old) at piece.now result }
    {
        let Ok(()) = self.pending.append(&piece[..count]) else {
            return Err(CutFault::OutOfMemory);
        };
        Ok(count)
    }

    // Letters and digits of a name that has begun, or another byte.
    fn take_in_name(&mut self, at: u64, piece: &[u8]) -> Result<usize, CutFault>
        requires name { self.old.mode ≡ Mode.Name }
        requires some { 0 < length piece.now }
        requires room { at + length piece.now < 2 ^ 64 }
        ensures { Takes self.new (state_of self.old) at piece.now result }
    {
        let count = run_len::<LetterBytes>(piece);
        let had = self.pending.len();
        if count == 0 || had > 255 {
            return self.take_byte(at, piece);
        }
        let room = 255 - had;
        if count <= room {
            return self.keep_letters(at, piece, count);
        }
        Err(CutFault::BadByte {
            place: at + room as u64,
        })
    }

    // Bytes of a string that has begun, or the quote that ends it.
    fn take_in_quoted(&mut self, at: u64, piece: &[u8]) -> Result<usize, CutFault>
        requires quoted { self.old.mode ≡ Mode.Quoted }
        requires some { 0 < length piece.now }
        ensures { Takes self.new (state_of self.old) at piece.now result }
    {
        let count = run_len::<QuotableBytes>(piece);
        if count == 0 {
            return self.take_byte(at, piece);
        }
        let Ok(()) = self.pending.append(&piece[..count]) else {
            return Err(CutFault::OutOfMemory);
        };
        Ok(count)
    }

    pub(super) fn take(&mut self, at: u64, piece: &[u8]) -> Result<usize, CutFault>
        requires some { 0 < length piece.now }
        requires room { at + length piece.now < 2 ^ 64 }
        ensures { Takes self.new (state_of self.old) at piece.now result }
    {
        match self.mode {
            Mode::Between => self.take_between(at, piece),
            Mode::Comment => self.take_in_comment(at, piece),
            Mode::Name => self.take_in_name(at, piece),
            Mode::Quoted => self.take_in_quoted(at, piece),
            Mode::Dash
            | Mode::Colon
            | Mode::Underscore
            | Mode::Digits
            | Mode::Point
            | Mode::Fraction
            | Mode::Exponent
            | Mode::Sign
            | Mode::Power => self.take_byte(at, piece),
        }
    }
}
