ghost use Rattle.std.specs.Prelude.{◌≡◌, ℕ, ◌+◌, ◌^◌, ◌<◌, ◌≤◌, [], ◌∷◌, ◌++◌, length, Some, OnOk, IfErr, IsTrue};
ghost use Rattle.verilog_lexicon.specs.Bytes.{is_digit, is_letter, is_name_byte, is_escaped_byte, clings};
ghost use Rattle.verilog_lexicon.specs.Pieces.{value_from};
ghost use Rattle.verilog_words.specs.declared.mode.Mode.{Mode};

use crate::classes::{
    clings, directive_with, goes_on, is_base, is_blank, is_digit, is_escaped_byte, is_whole,
    symbol_with,
};
use crate::mode::{Directive, Enclosure, Mode};
use std::alloc::Global;
use texts::Text;
use verilog_lexicon::keywords::{is_letter, is_name_byte};
use verilog_lexicon::{Symbol, Words};
use word_cutter::{CutFault, Machine, with_digit};

mod runs;

/// Takes a text byte by byte, and keeps its words.
#[derive(Drop)]
pub struct WordMachine {
    words: Words,
    mode: Mode,
    from: u64,
    pending: Text,
    value: u32,
    ghost short: { length pending ≤ 255 },
    ghost number: { mode ≡ Mode.Number
        → (value ≡ value_from 0 pending) × (value < 10 ^ length pending) × (length pending ≤ 9) },
}

impl WordMachine {
    ghost use Rattle.verilog_words.specs.Machine.{State, state, start, begin, in_line, enclosed, step, end, with_name, with_number, with_constant, with_parenthesis};
    ghost use Rattle.verilog_words.specs.Steps.{state_of, Steps, Closes, EndsAs, Takes};

    /// A machine before its first byte, with room for so many words, where memory is given.
    pub fn new(alloc: Global, room: usize) -> WordMachine
        ensures { state_of result ≡ start }
    {
        let mut words = Words::new(alloc);
        words.make_room(room);
        WordMachine {
            words,
            mode: Mode::Between,
            from: 0,
            pending: Text::new(alloc),
            value: 0,
        }
    }

    // The next byte is the first of a word's bytes that are kept.
    fn keep_first(&mut self, at: u64, byte: u8) -> Result<(), CutFault>
        requires between { self.old.mode ≡ Mode.Between }
        ensures kept { OnOk result (self.new.pending ≡ byte ∷ []) }
        ensures from { OnOk result (self.new.from ≡ at) }
        ensures others { OnOk result ((self.new.words ≡ self.old.words)
            × (self.new.mode ≡ self.old.mode)) }
        ensures err { IfErr result (λ e. e ≡ CutFault.OutOfMemory) }
    {
        self.from = at;
        self.pending.clear();
        self.pending.push(byte)?;
        Ok(())
    }

    fn begin_number(&mut self, at: u64, byte: u8) -> Result<(), CutFault>
        requires between { self.old.mode ≡ Mode.Between }
        requires digit { IsTrue (is_digit byte) }
        ensures ok { OnOk result (state_of self.new
            ≡ state self.old.words.list Mode.Number at (byte ∷ [])) }
        ensures err { IfErr result (λ e. e ≡ CutFault.OutOfMemory) }
    {
        self.keep_first(at, byte)?;
        self.value = with_digit(0, 0, byte);
        self.mode = Mode::Number;
        Ok(())
    }

    fn begin(&mut self, at: u64, byte: u8) -> Result<(), CutFault>
        requires between { self.old.mode ≡ Mode.Between }
        ensures { Steps self.new at (begin at self.old.words.list byte) result }
    {
        if let Some(symbol) = symbol_with(byte) {
            self.words.push_symbol(symbol, at)?;
        } else if is_blank(byte) {} else if is_letter(byte) {
            self.keep_first(at, byte)?;
            self.mode = Mode::Name;
        } else if is_digit(byte) {
            self.begin_number(at, byte)?;
        } else if byte == b'(' {
            self.from = at;
            self.mode = Mode::Open;
        } else if byte == b'/' {
            self.mode = Mode::Slash;
        } else if byte == b'`' {
            self.mode = Mode::Backquote;
        } else if byte == b'\\' {
            self.from = at;
            self.pending.clear();
            self.mode = Mode::Escaped;
        } else {
            return Err(CutFault::BadByte { place: at });
        }
        Ok(())
    }

    // What was begun is a whole name.
    fn name_ends(&mut self) -> Result<(), CutFault>
        requires { self.old.mode ≡ Mode.Name }
        ensures { Closes self.new (with_name self.old.words.list self.old.from self.old.pending) result }
    {
        self.words.push_name(self.pending.as_bytes(), self.from)?;
        self.mode = Mode::Between;
        Ok(())
    }

    // What was begun is a whole number.
    fn number_ends(&mut self) -> Result<(), CutFault>
        requires { self.old.mode ≡ Mode.Number }
        ensures { Closes self.new (with_number self.old.words.list self.old.from self.old.pending)
            result }
    {
        let len = self.pending.len() as u32;
        self.words.push_number(self.value, self.from, len)?;
        self.mode = Mode::Between;
        Ok(())
    }

    // What was begun is a whole constant.
    fn constant_ends(&mut self, value: bool) -> Result<(), CutFault>
        requires { self.old.mode ≡ Mode.Constant value }
        ensures { Closes self.new (with_constant self.old.words.list self.old.from value) result }
    {
        self.words.push_constant(value, self.from)?;
        self.mode = Mode::Between;
        Ok(())
    }

    // What was begun is a parenthesis.
    fn parenthesis_ends(&mut self) -> Result<(), CutFault>
        requires { self.old.mode ≡ Mode.Open }
        ensures { Closes self.new (with_parenthesis self.old.words.list self.old.from) result }
    {
        self.words.push_symbol(Symbol::LeftParenthesis, self.from)?;
        self.mode = Mode::Between;
        Ok(())
    }

    // One byte more of what is kept.
    fn keep(&mut self, byte: u8) -> Result<(), CutFault>
        requires no_number { self.old.mode ≡ Mode.Number → ⊥ }
        requires short { length self.old.pending < 255 }
        ensures kept { OnOk result (self.new.pending ≡ self.old.pending ++ byte ∷ []) }
        ensures others { OnOk result ((self.new.words ≡ self.old.words) × (self.new.mode ≡ self.old.mode)
            × (self.new.from ≡ self.old.from)) }
        ensures err { IfErr result (λ e. e ≡ CutFault.OutOfMemory) }
    {
        self.pending.push(byte)?;
        Ok(())
    }

    fn after_slash(&mut self, at: u64, byte: u8) -> Result<(), CutFault>
        requires slash { self.old.mode ≡ Mode.Slash }
        ensures { Steps self.new at (step at (state_of self.old) byte) result }
    {
        self.mode = match byte {
            b'/' => Mode::Line,
            b'*' => Mode::Enclosed(Enclosure::BlockComment),
            _ => return Err(CutFault::BadByte { place: at }),
        };
        Ok(())
    }

    // A byte of what goes up to the end of its line.
    fn in_line(&mut self, byte: u8)
        ensures line { in_line self.old.words.list byte ≡ Some (state_of self.new) }
    {
        self.mode = if byte == b'\n' {
            Mode::Between
        } else {
            Mode::Line
        };
    }

    // A byte that doesn't close its enclosure.
    fn in_enclosure(&mut self, enclosure: Enclosure, byte: u8)
        ensures enclosed { enclosed enclosure self.old.words.list byte ≡ Some (state_of self.new) }
    {
        self.mode = if byte == b'*' {
            Mode::EnclosedStar(enclosure)
        } else {
            Mode::Enclosed(enclosure)
        };
    }

    fn after_star(&mut self, enclosure: Enclosure, byte: u8)
        requires star { self.old.mode ≡ Mode.EnclosedStar enclosure }
        ensures star { (at : ℕ) → step at (state_of self.old) byte ≡ Some (state_of self.new) }
    {
        if byte == enclosure.closer() {
            self.mode = Mode::Between;
        } else {
            self.in_enclosure(enclosure, byte);
        }
    }

    fn after_parenthesis(&mut self, at: u64, byte: u8) -> Result<(), CutFault>
        requires open { self.old.mode ≡ Mode.Open }
        ensures { Steps self.new at (step at (state_of self.old) byte) result }
    {
        if byte == b'*' {
            self.mode = Mode::Enclosed(Enclosure::Attribute);
            return Ok(());
        }
        self.parenthesis_ends()?;
        self.begin(at, byte)
    }

    fn after_backquote(&mut self, at: u64, byte: u8) -> Result<(), CutFault>
        requires backquote { self.old.mode ≡ Mode.Backquote }
        ensures { Steps self.new at (step at (state_of self.old) byte) result }
    {
        let Some(directive) = directive_with(byte) else {
            return Err(CutFault::BadByte { place: at });
        };
        self.pending.clear();
        self.pending.push(byte)?;
        self.mode = Mode::Directive(directive);
        Ok(())
    }

    fn in_directive(&mut self, at: u64, directive: Directive, byte: u8) -> Result<(), CutFault>
        requires directive { self.old.mode ≡ Mode.Directive directive }
        ensures { Steps self.new at (step at (state_of self.old) byte) result }
    {
        if is_name_byte(byte) {
            // No directive is so long as the second test: it bounds what is kept.
            if !goes_on(directive, self.pending.as_bytes(), byte) || self.pending.len() >= 255 {
                return Err(CutFault::BadByte { place: at });
            }
            return self.keep(byte);
        }
        if !is_whole(directive, self.pending.as_bytes()) {
            return Err(CutFault::BadByte { place: at });
        }
        if directive.takes_line() {
            self.in_line(byte);
            return Ok(());
        }
        self.mode = Mode::Between;
        self.begin(at, byte)
    }

    fn in_name(&mut self, at: u64, byte: u8) -> Result<(), CutFault>
        requires name { self.old.mode ≡ Mode.Name }
        ensures { Steps self.new at (step at (state_of self.old) byte) result }
    {
        if !is_name_byte(byte) {
            self.name_ends()?;
            return self.begin(at, byte);
        }
        if self.pending.len() >= 255 {
            return Err(CutFault::BadByte { place: at });
        }
        self.keep(byte)
    }

    fn in_escaped_name(&mut self, at: u64, byte: u8) -> Result<(), CutFault>
        requires escaped { self.old.mode ≡ Mode.Escaped }
        ensures { Steps self.new at (step at (state_of self.old) byte) result }
    {
        if is_escaped_byte(byte) && self.pending.len() < 255 {
            return self.keep(byte);
        }
        if is_escaped_byte(byte) || !is_blank(byte) || self.pending.is_empty() {
            return Err(CutFault::BadByte { place: at });
        }
        self.words
            .push_escaped_name(self.pending.as_bytes(), self.from)?;
        self.mode = Mode::Between;
        Ok(())
    }

    #[tactic(auto, using(crate::proofs::Values::value_push))]
    fn number_goes(&mut self, at: u64, byte: u8) -> Result<(), CutFault>
        requires number { self.old.mode ≡ Mode.Number }
        requires goes { IsTrue (is_digit byte) }
        ensures { Steps self.new at (step at (state_of self.old) byte) result }
    {
        let count = self.pending.len();
        if count >= 9 {
            return Err(CutFault::BadByte { place: at });
        }
        let value = with_digit(self.value, count, byte);
        let Ok(()) = self.pending.push(byte) else {
            return Err(CutFault::OutOfMemory);
        };
        self.value = value;
        Ok(())
    }

    fn in_number(&mut self, at: u64, byte: u8) -> Result<(), CutFault>
        requires number { self.old.mode ≡ Mode.Number }
        ensures { Steps self.new at (step at (state_of self.old) byte) result }
    {
        if is_digit(byte) {
            return self.number_goes(at, byte);
        }
        if byte == b'\'' {
            if self.pending.as_bytes() != b"1".as_slice() {
                return Err(CutFault::BadByte { place: at });
            }
            self.mode = Mode::Quote;
            return Ok(());
        }
        if clings(byte) {
            return Err(CutFault::BadByte { place: at });
        }
        self.number_ends()?;
        self.begin(at, byte)
    }

    fn after_quote(&mut self, at: u64, byte: u8) -> Result<(), CutFault>
        requires quote { self.old.mode ≡ Mode.Quote }
        ensures { Steps self.new at (step at (state_of self.old) byte) result }
    {
        if !is_base(byte) {
            return Err(CutFault::BadByte { place: at });
        }
        self.mode = Mode::Base;
        Ok(())
    }

    fn after_base(&mut self, at: u64, byte: u8) -> Result<(), CutFault>
        requires base { self.old.mode ≡ Mode.Base }
        ensures { Steps self.new at (step at (state_of self.old) byte) result }
    {
        self.mode = match byte {
            b'0' => Mode::Constant(false),
            b'1' => Mode::Constant(true),
            _ => return Err(CutFault::BadByte { place: at }),
        };
        Ok(())
    }

    fn after_constant(&mut self, at: u64, value: bool, byte: u8) -> Result<(), CutFault>
        requires constant { self.old.mode ≡ Mode.Constant value }
        ensures { Steps self.new at (step at (state_of self.old) byte) result }
    {
        if clings(byte) {
            return Err(CutFault::BadByte { place: at });
        }
        self.constant_ends(value)?;
        self.begin(at, byte)
    }

    fn step(&mut self, at: u64, byte: u8) -> Result<(), CutFault>
        ensures { Steps self.new at (step at (state_of self.old) byte) result }
    {
        match self.mode {
            Mode::Between => self.begin(at, byte),
            Mode::Slash => self.after_slash(at, byte),
            Mode::Line => {
                self.in_line(byte);
                Ok(())
            }
            Mode::Open => self.after_parenthesis(at, byte),
            Mode::Enclosed(enclosure) => {
                self.in_enclosure(enclosure, byte);
                Ok(())
            }
            Mode::EnclosedStar(enclosure) => {
                self.after_star(enclosure, byte);
                Ok(())
            }
            Mode::Backquote => self.after_backquote(at, byte),
            Mode::Directive(directive) => self.in_directive(at, directive, byte),
            Mode::Name => self.in_name(at, byte),
            Mode::Escaped => self.in_escaped_name(at, byte),
            Mode::Number => self.in_number(at, byte),
            Mode::Quote => self.after_quote(at, byte),
            Mode::Base => self.after_base(at, byte),
            Mode::Constant(value) => self.after_constant(at, value, byte),
        }
    }

    // The text ends here.
    fn close(&mut self, at: u64) -> Result<(), CutFault>
        ensures { EndsAs self.new at (end (state_of self.old)) result }
    {
        match self.mode {
            Mode::Between | Mode::Line => Ok(()),
            Mode::Open => self.parenthesis_ends(),
            Mode::Name => self.name_ends(),
            Mode::Number => self.number_ends(),
            Mode::Constant(value) => self.constant_ends(value),
            Mode::Directive(directive) => {
                if is_whole(directive, self.pending.as_bytes()) {
                    Ok(())
                } else {
                    Err(CutFault::BadByte { place: at })
                }
            }
            Mode::Slash
            | Mode::Enclosed(_)
            | Mode::EnclosedStar(_)
            | Mode::Backquote
            | Mode::Escaped
            | Mode::Quote
            | Mode::Base => Err(CutFault::BadByte { place: at }),
        }
    }
}

impl Machine for WordMachine {
    ghost use Rattle.verilog_words.specs.Machine as machine;
    ghost use Rattle.verilog_words.specs.Steps as steps;

    type Words = Words;

    ghost State = { machine.State };

    ghost state = { steps.state_of };

    ghost start = { machine.start };

    ghost step = { machine.step };

    ghost words = { machine.text_at };

    fn take_run(&mut self, at: u64, piece: &[u8]) -> Result<usize, CutFault> {
        self.take(at, piece)
    }

    fn end(mut self, at: u64) -> Result<Words, CutFault> {
        if let Err(e) = self.close(at) {
            return Err(e);
        }
        let WordMachine {
            mut words,
            mode: _,
            from: _,
            pending: _,
            value: _,
        } = self;
        words.set_end(at);
        Ok(words)
    }
}
