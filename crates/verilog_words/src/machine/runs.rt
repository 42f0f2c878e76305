// Runs of bytes that are taken at once.

ghost use Rattle.std.specs.Prelude.{◌≡◌, ◌↔◌, ℕ, ◌+◌, ◌^◌, ◌<◌, ◌≤◌, ◌++◌, length, take, Some, OnOk, IfErr, IsTrue, slice_index};
ghost use Rattle.std.specs.List.{prefix_len};
ghost use Rattle.verilog_lexicon.specs.Bytes.{is_digit, is_letter, is_name_byte, clings};
ghost use Rattle.std.specs.Bool.{IsFalse};
ghost use Rattle.word_cutter.specs.Run.{run};
ghost use Rattle.verilog_lexicon.specs.Pieces.{value_from};
ghost use Rattle.verilog_words.specs.declared.mode.Mode.{Mode};

use super::WordMachine;
use crate::classes::{BlankBytes, EscapedBytes, NameBytes, StarlessBytes, clings, is_digit};
use crate::mode::{Enclosure, Mode};
use verilog_lexicon::keywords::is_letter;
use word_cutter::{CutFault, LineBytes, run_len, with_digit};

// How many digits stand at the front of a piece, of which up to nine are counted, and their value.
fn digits_of(piece: &[u8]) -> (usize, u32)
    ensures all { result.0 ≤ prefix_len is_digit piece.now }
    ensures few { result.0 ≤ 9 }
    ensures value { result.1 ≡ value_from 0 (take result.0 piece.now) }
{
    let mut count = 0;
    let mut value = 0;
    while count < piece.len() && count < 9 && is_digit(piece[count]) {
        value = with_digit(value, count, piece[count]);
        count += 1;
    }
    (count, value)
}

impl WordMachine {
    ghost use Rattle.verilog_words.specs.Machine.{State, begin, enclosed, step, end};
    ghost use Rattle.verilog_words.specs.Steps.{state_of, Takes, IsTooLong};

    // One byte.
    fn take_byte(&mut self, at: u64, piece: &[u8]) -> Result<usize, CutFault>
        requires { 0 < length piece.now }
        ensures { Takes self.new (state_of self.old) at piece.now result }
    {
        if let Err(e) = self.step(at, piece[0]) {
            return Err(e);
        }
        Ok(1)
    }

    // Some bytes more of what is kept: at most 255 are.
    fn keep_run(&mut self, at: u64, front: &[u8]) -> Result<(), CutFault>
        requires no_number { self.old.mode ≡ Mode.Number → ⊥ }
        requires room { at + length front.now < 2 ^ 64 }
        ensures kept { OnOk result (self.new.pending ≡ self.old.pending ++ front.now) }
        ensures short { OnOk result (length self.old.pending + length front.now ≤ 255) }
        ensures others { OnOk result ((self.new.words ≡ self.old.words) × (self.new.mode ≡ self.old.mode)
            × (self.new.from ≡ self.old.from)) }
        ensures err { IfErr result (IsTooLong at (length self.old.pending) (length front.now)) }
    {
        let room = 255 - self.pending.len();
        if front.len() > room {
            return Err(CutFault::BadByte {
                place: at + room as u64,
            });
        }
        self.pending.append(front)?;
        Ok(())
    }

    // The bytes of a name that has begun, or what ends it.
    fn take_in_name(&mut self, at: u64, piece: &[u8]) -> Result<usize, CutFault>
        requires name { self.old.mode ≡ Mode.Name }
        requires some { 0 < length piece.now }
        requires room { at + length piece.now < 2 ^ 64 }
        ensures { Takes self.new (state_of self.old) at piece.now result }
    {
        let count = run_len::<NameBytes>(piece);
        if count == 0 {
            return self.take_byte(at, piece);
        }
        if let Err(e) = self.keep_run(at, &piece[..count]) {
            return Err(e);
        }
        Ok(count)
    }

    // The bytes of an escaped name that has begun, or what ends it.
    fn take_in_escaped_name(&mut self, at: u64, piece: &[u8]) -> Result<usize, CutFault>
        requires escaped { self.old.mode ≡ Mode.Escaped }
        requires some { 0 < length piece.now }
        requires room { at + length piece.now < 2 ^ 64 }
        ensures { Takes self.new (state_of self.old) at piece.now result }
    {
        let count = run_len::<EscapedBytes>(piece);
        if count == 0 {
            return self.take_byte(at, piece);
        }
        if let Err(e) = self.keep_run(at, &piece[..count]) {
            return Err(e);
        }
        Ok(count)
    }

    // The bytes of a name that the piece ends with: the name may go on in the next one.
    fn begin_name(&mut self, at: u64, piece: &[u8]) -> Result<usize, CutFault>
        requires between { self.old.mode ≡ Mode.Between }
        requires some { 0 < length piece.now }
        requires letter { IsTrue (is_letter (slice_index piece.now 0)) }
        requires all { prefix_len is_name_byte piece.now ≡ length piece.now }
        requires short { length piece.now ≤ 255 }
        ensures { Takes self.new (state_of self.old) at piece.now result }
    {
        self.pending.clear();
        let Ok(()) = self.pending.append(piece) else {
            return Err(CutFault::OutOfMemory);
        };
        self.from = at;
        self.mode = Mode::Name;
        Ok(piece.len())
    }

    // A name that ends within the piece goes to the words as it stands, and the byte after it begins what follows.
    fn take_name(&mut self, at: u64, piece: &[u8], count: usize) -> Result<usize, CutFault>
        requires between { self.old.mode ≡ Mode.Between }
        requires letter { IsTrue (is_letter (slice_index piece.now 0)) }
        requires some { 0 < count }
        requires all { prefix_len is_name_byte piece.now ≡ count }
        requires within { count < length piece.now }
        requires short { count ≤ 255 }
        requires room { at + length piece.now < 2 ^ 64 }
        ensures { Takes self.new (state_of self.old) at piece.now result }
    {
        let Ok(()) = self.words.push_name(&piece[..count], at) else {
            return Err(CutFault::OutOfMemory);
        };
        if let Err(e) = self.begin(at + count as u64, piece[count]) {
            return Err(e);
        }
        Ok(count + 1)
    }

    // A name of at most 255 bytes, or as much of it as there is.
    fn take_short_name(&mut self, at: u64, piece: &[u8], count: usize) -> Result<usize, CutFault>
        requires between { self.old.mode ≡ Mode.Between }
        requires letter { IsTrue (is_letter (slice_index piece.now 0)) }
        requires some { 0 < count }
        requires all { prefix_len is_name_byte piece.now ≡ count }
        requires within { count ≤ length piece.now }
        requires short { count ≤ 255 }
        requires room { at + length piece.now < 2 ^ 64 }
        ensures { Takes self.new (state_of self.old) at piece.now result }
    {
        if count == piece.len() {
            return self.begin_name(at, piece);
        }
        self.take_name(at, piece, count)
    }

    fn take_letters(&mut self, at: u64, piece: &[u8]) -> Result<usize, CutFault>
        requires between { self.old.mode ≡ Mode.Between }
        requires some { 0 < length piece.now }
        requires letter { IsTrue (is_letter (slice_index piece.now 0)) }
        requires room { at + length piece.now < 2 ^ 64 }
        ensures { Takes self.new (state_of self.old) at piece.now result }
    {
        let count = run_len::<NameBytes>(piece);
        if count == 0 {
            return self.take_byte(at, piece);
        }
        if count <= 255 {
            return self.take_short_name(at, piece, count);
        }
        Err(CutFault::BadByte { place: at + 255 })
    }

    // A number that ends within the piece goes to the words as it stands, and the byte after it begins what follows.
    fn take_number(
        &mut self,
        at: u64,
        piece: &[u8],
        count: usize,
        value: u32,
    ) -> Result<usize, CutFault>
        requires between { self.old.mode ≡ Mode.Between }
        requires some { 0 < count }
        requires all { count ≤ prefix_len is_digit piece.now }
        requires within { count < length piece.now }
        requires few { count ≤ 9 }
        requires free { IsFalse (clings (slice_index piece.now count)) }
        requires value { value ≡ value_from 0 (take count piece.now) }
        requires room { at + length piece.now < 2 ^ 64 }
        ensures { Takes self.new (state_of self.old) at piece.now result }
    {
        let Ok(()) = self.words.push_number(value, at, count as u32) else {
            return Err(CutFault::OutOfMemory);
        };
        if let Err(e) = self.begin(at + count as u64, piece[count]) {
            return Err(e);
        }
        Ok(count + 1)
    }

    // A number; byte by byte where it doesn't end within the piece, or not as a number does.
    fn take_digits(&mut self, at: u64, piece: &[u8]) -> Result<usize, CutFault>
        requires between { self.old.mode ≡ Mode.Between }
        requires some { 0 < length piece.now }
        requires room { at + length piece.now < 2 ^ 64 }
        ensures { Takes self.new (state_of self.old) at piece.now result }
    {
        let (count, value) = digits_of(piece);
        if count == 0 || count >= piece.len() || clings(piece[count]) {
            return self.take_byte(at, piece);
        }
        self.take_number(at, piece, count, value)
    }

    // One byte that begins a piece.
    fn take_first(&mut self, at: u64, piece: &[u8]) -> Result<usize, CutFault>
        requires between { self.old.mode ≡ Mode.Between }
        requires some { 0 < length piece.now }
        ensures { Takes self.new (state_of self.old) at piece.now result }
    {
        if let Err(e) = self.begin(at, piece[0]) {
            return Err(e);
        }
        Ok(1)
    }

    // A name, a number, or one byte that begins another piece.
    fn take_piece(&mut self, at: u64, piece: &[u8]) -> Result<usize, CutFault>
        requires between { self.old.mode ≡ Mode.Between }
        requires some { 0 < length piece.now }
        requires room { at + length piece.now < 2 ^ 64 }
        ensures { Takes self.new (state_of self.old) at piece.now result }
    {
        if is_letter(piece[0]) {
            return self.take_letters(at, piece);
        }
        if is_digit(piece[0]) {
            return self.take_digits(at, piece);
        }
        self.take_first(at, piece)
    }

    // How many bytes so many are with the blanks after them, which begin nothing.
    fn with_blanks(&self, piece: &[u8], count: usize) -> usize
        requires within { count ≤ length piece.now }
        requires room { length piece.now < 2 ^ 64 }
        ensures least { count ≤ result }
        ensures most { result ≤ length piece.now }
        ensures stays { (s : State) (at : ℕ)
            → run step at s (take count piece.now) ≡ Some (state_of self.now)
            → run step at s (take result piece.now) ≡ Some (state_of self.now) }
    {
        let Mode::Between = self.mode else {
            return count;
        };
        let blanks = run_len::<BlankBytes>(&piece[count..]);
        count + blanks
    }

    // Whether nothing was begun.
    fn is_between(&self) -> bool
        ensures { IsTrue result ↔ (self.now.mode ≡ Mode.Between) }
    {
        matches!(self.mode, Mode::Between)
    }

    // Names, numbers and bytes that begin other pieces, each with the blanks after it, as long as nothing else is begun.
    fn take_between(&mut self, at: u64, piece: &[u8]) -> Result<usize, CutFault>
        requires between { self.old.mode ≡ Mode.Between }
        requires some { 0 < length piece.now }
        requires room { at + length piece.now < 2 ^ 64 }
        ensures { Takes self.new (state_of self.old) at piece.now result }
    {
        let mut done = 0;
        while done < piece.len() && self.is_between() {
            match self.take_piece(at + done as u64, &piece[done..]) {
                Ok(count) => done = self.with_blanks(piece, done + count),
                Err(e) => return Err(e),
            }
        }
        Ok(done)
    }

    // What comes after `(`.
    fn take_after_parenthesis(&mut self, at: u64, piece: &[u8]) -> Result<usize, CutFault>
        requires open { self.old.mode ≡ Mode.Open }
        requires some { 0 < length piece.now }
        requires room { at + length piece.now < 2 ^ 64 }
        ensures { Takes self.new (state_of self.old) at piece.now result }
    {
        if piece[0] == b'*' {
            return self.take_byte(at, piece);
        }
        let Ok(()) = self.parenthesis_ends() else {
            return Err(CutFault::OutOfMemory);
        };
        self.take_between(at, piece)
    }

    // The bytes up to the end of a line, or the one that ends it.
    fn take_in_line(&mut self, at: u64, piece: &[u8]) -> Result<usize, CutFault>
        requires line { self.old.mode ≡ Mode.Line }
        requires some { 0 < length piece.now }
        ensures { Takes self.new (state_of self.old) at piece.now result }
    {
        let count = run_len::<LineBytes>(piece);
        if count == 0 {
            return self.take_byte(at, piece);
        }
        Ok(count)
    }

    // The bytes up to a star, or the star.
    fn take_in_enclosure(
        &mut self,
        at: u64,
        enclosure: Enclosure,
        piece: &[u8],
    ) -> Result<usize, CutFault>
        requires enclosed { self.old.mode ≡ Mode.Enclosed enclosure }
        requires some { 0 < length piece.now }
        ensures { Takes self.new (state_of self.old) at piece.now result }
    {
        let count = run_len::<StarlessBytes>(piece);
        if count == 0 {
            return self.take_byte(at, piece);
        }
        Ok(count)
    }

    pub(super) fn take(&mut self, at: u64, piece: &[u8]) -> Result<usize, CutFault>
        requires some { 0 < length piece.now }
        requires room { at + length piece.now < 2 ^ 64 }
        ensures { Takes self.new (state_of self.old) at piece.now result }
    {
        match self.mode {
            Mode::Between => self.take_between(at, piece),
            Mode::Open => self.take_after_parenthesis(at, piece),
            Mode::Name => self.take_in_name(at, piece),
            Mode::Escaped => self.take_in_escaped_name(at, piece),
            Mode::Line => self.take_in_line(at, piece),
            Mode::Enclosed(enclosure) => self.take_in_enclosure(at, enclosure, piece),
            Mode::Slash
            | Mode::EnclosedStar(_)
            | Mode::Backquote
            | Mode::Directive(_)
            | Mode::Number
            | Mode::Quote
            | Mode::Base
            | Mode::Constant(_) => self.take_byte(at, piece),
        }
    }
}
