ghost use Rattle.std.specs.Prelude.{◌≡◌, ◌+◌, ◌<◌, ◌≤◌, [], ◌∷◌, ◌++◌, length, Ok, Some, OnOk, IfErr, IsTrue};
ghost use Rattle.std.specs.List.{list_all};
ghost use Rattle.bsdl_lexicon.specs.Bytes.{is_digit, is_letter_or_digit};
ghost use Rattle.bsdl_words.specs.declared.mode.Mode.{Mode};

use crate::classes::{
    is_blank, is_digit, is_exponent_mark, is_letter, is_letter_or_digit, is_name_byte, is_quotable,
    is_sign, symbol_with,
};
use crate::integers::{value_of, word_len};
use crate::mode::Mode;
use bsdl_lexicon::{BsdlSpanned, BsdlSymbol, BsdlToken, BsdlWords};
use std::alloc::Global;
use texts::{Row, Text};
use word_cutter::{CutFault, Machine};

mod runs;

/// Takes a BSDL text byte by byte, and keeps its words.
#[derive(Drop)]
pub struct BsdlMachine {
    words: Row<BsdlSpanned>,
    mode: Mode,
    from: u64,
    pending: Text,
    alloc: Global,
    ghost digits: { mode ≡ Mode.Digits → IsTrue (list_all is_digit pending) },
}

impl BsdlMachine {
    ghost use Rattle.bsdl_words.specs.Machine.{start, begin, in_comment, name_goes, real_ends, step, end, with_name, with_integer, with_real, with_quoted, with_colon, with_becomes};
    ghost use Rattle.bsdl_words.specs.Steps.{state_of, Steps, Closes, EndsAs, Takes};
    ghost use Rattle.bsdl_lexicon.specs.Words.{spanned};

    /// A machine before its first byte; it takes no memory.
    pub fn new(alloc: Global) -> BsdlMachine
        ensures { state_of result ≡ start }
    {
        BsdlMachine {
            words: Row::new(alloc),
            mode: Mode::Between,
            from: 0,
            pending: Text::new(alloc),
            alloc,
        }
    }

    // The next byte is the first of a word's bytes that are kept.
    fn keep_first(&mut self, at: u64, byte: u8) -> Result<(), CutFault>
        requires between { self.old.mode ≡ Mode.Between }
        ensures kept { OnOk result (self.new.pending ≡ byte ∷ []) }
        ensures from { OnOk result (self.new.from ≡ at) }
        ensures others { OnOk result ((self.new.words ≡ self.old.words)
            × (self.new.mode ≡ self.old.mode)) }
        ensures err { IfErr result (λ e. e ≡ CutFault.OutOfMemory) }
    {
        self.from = at;
        self.pending.clear();
        self.pending.push(byte)?;
        Ok(())
    }

    // Adds a symbol of one byte.
    fn put_symbol(&mut self, symbol: BsdlSymbol, at: u64) -> Result<(), CutFault>
        requires no_digits { self.old.mode ≡ Mode.Digits → ⊥ }
        ensures ok { OnOk result (self.new.words ≡ self.old.words
            ++ spanned (BsdlToken.Symbol symbol) at 1 ∷ []) }
        ensures others { OnOk result (self.new.mode ≡ self.old.mode) }
        ensures err { IfErr result (λ e. e ≡ CutFault.OutOfMemory) }
    {
        self.words.push(BsdlSpanned {
            word: BsdlToken::Symbol(symbol),
            at,
            len: 1,
        })?;
        Ok(())
    }

    fn begin(&mut self, at: u64, byte: u8) -> Result<(), CutFault>
        requires between { self.old.mode ≡ Mode.Between }
        ensures { Steps self.new at (begin at self.old.words byte) result }
    {
        if is_blank(byte) {} else if is_letter(byte) {
            self.keep_first(at, byte)?;
            self.mode = Mode::Name;
        } else if is_digit(byte) {
            self.keep_first(at, byte)?;
            self.mode = Mode::Digits;
        } else if byte == b'"' {
            self.from = at;
            self.pending.clear();
            self.mode = Mode::Quoted;
        } else if byte == b'-' {
            self.mode = Mode::Dash;
        } else if byte == b':' {
            self.from = at;
            self.mode = Mode::Colon;
        } else if let Some(symbol) = symbol_with(byte) {
            self.put_symbol(symbol, at)?;
        } else {
            return Err(CutFault::BadByte { place: at });
        }
        Ok(())
    }

    // What was begun is a whole identifier.
    fn name_ends(&mut self) -> Result<(), CutFault>
        requires { self.old.mode ≡ Mode.Name }
        ensures { Closes self.new (with_name self.old.words self.old.from self.old.pending) result }
    {
        let len = word_len(self.pending.len(), 0)?;
        let name = Text::from_bytes(self.alloc, self.pending.as_bytes())?;
        self.words.push(BsdlSpanned {
            word: BsdlToken::Name(name),
            at: self.from,
            len,
        })?;
        self.mode = Mode::Between;
        Ok(())
    }

    // What was begun is a whole integer.
    fn integer_ends(&mut self) -> Result<(), CutFault>
        requires digits { self.old.mode ≡ Mode.Digits }
        requires few { length self.old.pending ≤ 9 }
        ensures { Closes self.new (with_integer self.old.words self.old.from self.old.pending) result }
    {
        let len = word_len(self.pending.len(), 0)?;
        let value = value_of(self.pending.as_bytes());
        self.words.push(BsdlSpanned {
            word: BsdlToken::Integer(value),
            at: self.from,
            len,
        })?;
        self.mode = Mode::Between;
        Ok(())
    }

    // What was begun is a whole real number.
    fn real_ends(&mut self) -> Result<(), CutFault>
        requires { self.old.mode ≡ Mode.Digits → ⊥ }
        ensures { Closes self.new (with_real self.old.words self.old.from self.old.pending) result }
    {
        let len = word_len(self.pending.len(), 0)?;
        let real = Text::from_bytes(self.alloc, self.pending.as_bytes())?;
        self.words.push(BsdlSpanned {
            word: BsdlToken::Real(real),
            at: self.from,
            len,
        })?;
        self.mode = Mode::Between;
        Ok(())
    }

    // What was begun is a whole string, but for the quote that ends it.
    fn quoted_ends(&mut self) -> Result<(), CutFault>
        requires { self.old.mode ≡ Mode.Quoted }
        ensures { Closes self.new (with_quoted self.old.words self.old.from self.old.pending) result }
    {
        let len = word_len(self.pending.len(), 2)?;
        let contents = Text::from_bytes(self.alloc, self.pending.as_bytes())?;
        self.words.push(BsdlSpanned {
            word: BsdlToken::Quoted(contents),
            at: self.from,
            len,
        })?;
        self.mode = Mode::Between;
        Ok(())
    }

    // What was begun is `:` alone.
    fn colon_ends(&mut self) -> Result<(), CutFault>
        requires { self.old.mode ≡ Mode.Colon }
        ensures { Closes self.new (with_colon self.old.words self.old.from) result }
    {
        self.put_symbol(BsdlSymbol::Colon, self.from)?;
        self.mode = Mode::Between;
        Ok(())
    }

    // What was begun is `:=`.
    fn becomes_ends(&mut self) -> Result<(), CutFault>
        requires { self.old.mode ≡ Mode.Colon }
        ensures { Closes self.new (with_becomes self.old.words self.old.from) result }
    {
        self.words.push(BsdlSpanned {
            word: BsdlToken::Becomes,
            at: self.from,
            len: 2,
        })?;
        self.mode = Mode::Between;
        Ok(())
    }

    // One byte more of what is kept, which is in this mode then.
    fn keep(&mut self, byte: u8, mode: Mode) -> Result<(), CutFault>
        requires no_digits { mode ≡ Mode.Digits → ⊥ }
        ensures kept { OnOk result (self.new.pending ≡ self.old.pending ++ byte ∷ []) }
        ensures mode { OnOk result (self.new.mode ≡ mode) }
        ensures others { OnOk result ((self.new.words ≡ self.old.words)
            × (self.new.from ≡ self.old.from)) }
        ensures err { IfErr result (λ e. e ≡ CutFault.OutOfMemory) }
    {
        self.mode = mode;
        self.pending.push(byte)?;
        Ok(())
    }

    fn after_dash(&mut self, at: u64, byte: u8) -> Result<(), CutFault>
        requires dash { self.old.mode ≡ Mode.Dash }
        ensures { Steps self.new at (step at (state_of self.old) byte) result }
    {
        if byte != b'-' {
            return Err(CutFault::BadByte { place: at });
        }
        self.mode = Mode::Comment;
        Ok(())
    }

    fn in_comment(&mut self, byte: u8)
        ensures comment { in_comment self.old.words byte ≡ Some (state_of self.new) }
    {
        self.mode = if byte == b'\n' {
            Mode::Between
        } else {
            Mode::Comment
        };
    }

    fn after_colon(&mut self, at: u64, byte: u8) -> Result<(), CutFault>
        requires colon { self.old.mode ≡ Mode.Colon }
        ensures { Steps self.new at (step at (state_of self.old) byte) result }
    {
        if byte == b'=' {
            self.becomes_ends()?;
            return Ok(());
        }
        self.colon_ends()?;
        self.begin(at, byte)
    }

    fn in_name(&mut self, at: u64, byte: u8) -> Result<(), CutFault>
        requires name { self.old.mode ≡ Mode.Name }
        ensures { Steps self.new at (step at (state_of self.old) byte) result }
    {
        if !is_name_byte(byte) {
            self.name_ends()?;
            return self.begin(at, byte);
        }
        self.name_goes(at, byte)
    }

    // A byte that may go on in a name: `_` needs room for one byte more.
    fn name_goes(&mut self, at: u64, byte: u8) -> Result<(), CutFault>
        requires name { self.old.mode ≡ Mode.Name }
        ensures { Steps self.new at (name_goes self.old.words self.old.from self.old.pending byte)
            result }
    {
        let count = self.pending.len();
        if byte == b'_' {
            if count >= 254 {
                return Err(CutFault::BadByte { place: at });
            }
            return self.keep(byte, Mode::Underscore);
        }
        if count >= 255 {
            return Err(CutFault::BadByte { place: at });
        }
        self.keep(byte, Mode::Name)
    }

    fn after_underscore(&mut self, at: u64, byte: u8) -> Result<(), CutFault>
        requires underscore { self.old.mode ≡ Mode.Underscore }
        ensures { Steps self.new at (step at (state_of self.old) byte) result }
    {
        if !is_letter_or_digit(byte) {
            return Err(CutFault::BadByte { place: at });
        }
        self.keep(byte, Mode::Name)
    }

    // A digit more of those that an integer or a real number begins with: 30 of them leave room for a
    // point and a digit.
    #[tactic(auto, using(list_laws::proofs::Lists::push_all))]
    fn digits_go(&mut self, at: u64, byte: u8) -> Result<(), CutFault>
        requires digits { self.old.mode ≡ Mode.Digits }
        requires goes { IsTrue (is_digit byte) }
        ensures { Steps self.new at (step at (state_of self.old) byte) result }
    {
        if self.pending.len() >= 30 {
            return Err(CutFault::BadByte { place: at });
        }
        let Ok(()) = self.pending.push(byte) else {
            return Err(CutFault::OutOfMemory);
        };
        Ok(())
    }

    fn in_digits(&mut self, at: u64, byte: u8) -> Result<(), CutFault>
        requires digits { self.old.mode ≡ Mode.Digits }
        ensures { Steps self.new at (step at (state_of self.old) byte) result }
    {
        if is_digit(byte) {
            return self.digits_go(at, byte);
        }
        if byte == b'.' {
            return self.keep(byte, Mode::Point);
        }
        if is_name_byte(byte) || self.pending.len() > 9 {
            return Err(CutFault::BadByte { place: at });
        }
        self.integer_ends()?;
        self.begin(at, byte)
    }

    fn after_point(&mut self, at: u64, byte: u8) -> Result<(), CutFault>
        requires point { self.old.mode ≡ Mode.Point }
        ensures { Steps self.new at (step at (state_of self.old) byte) result }
    {
        if !is_digit(byte) {
            return Err(CutFault::BadByte { place: at });
        }
        self.keep(byte, Mode::Fraction)
    }

    // A byte after the digits of a real number, which may end here.
    fn after_real(&mut self, at: u64, byte: u8) -> Result<(), CutFault>
        requires no_digits { self.old.mode ≡ Mode.Digits → ⊥ }
        ensures { Steps self.new at (real_ends at self.old.words self.old.from self.old.pending byte)
            result }
    {
        if is_name_byte(byte) {
            return Err(CutFault::BadByte { place: at });
        }
        self.real_ends()?;
        self.begin(at, byte)
    }

    fn in_fraction(&mut self, at: u64, byte: u8) -> Result<(), CutFault>
        requires fraction { self.old.mode ≡ Mode.Fraction }
        ensures { Steps self.new at (step at (state_of self.old) byte) result }
    {
        let count = self.pending.len();
        if is_digit(byte) {
            if count >= 32 {
                return Err(CutFault::BadByte { place: at });
            }
            return self.keep(byte, Mode::Fraction);
        }
        if is_exponent_mark(byte) {
            if count >= 31 {
                return Err(CutFault::BadByte { place: at });
            }
            return self.keep(byte, Mode::Exponent);
        }
        self.after_real(at, byte)
    }

    fn in_exponent(&mut self, at: u64, byte: u8) -> Result<(), CutFault>
        requires exponent { self.old.mode ≡ Mode.Exponent }
        ensures { Steps self.new at (step at (state_of self.old) byte) result }
    {
        if is_digit(byte) {
            return self.keep(byte, Mode::Power);
        }
        if !is_sign(byte) || self.pending.len() >= 31 {
            return Err(CutFault::BadByte { place: at });
        }
        self.keep(byte, Mode::Sign)
    }

    fn after_sign(&mut self, at: u64, byte: u8) -> Result<(), CutFault>
        requires sign { self.old.mode ≡ Mode.Sign }
        ensures { Steps self.new at (step at (state_of self.old) byte) result }
    {
        if !is_digit(byte) {
            return Err(CutFault::BadByte { place: at });
        }
        self.keep(byte, Mode::Power)
    }

    fn in_power(&mut self, at: u64, byte: u8) -> Result<(), CutFault>
        requires power { self.old.mode ≡ Mode.Power }
        ensures { Steps self.new at (step at (state_of self.old) byte) result }
    {
        if !is_digit(byte) {
            return self.after_real(at, byte);
        }
        if self.pending.len() >= 32 {
            return Err(CutFault::BadByte { place: at });
        }
        self.keep(byte, Mode::Power)
    }

    fn in_quoted(&mut self, at: u64, byte: u8) -> Result<(), CutFault>
        requires quoted { self.old.mode ≡ Mode.Quoted }
        ensures { Steps self.new at (step at (state_of self.old) byte) result }
    {
        if byte == b'"' {
            self.quoted_ends()?;
            return Ok(());
        }
        if !is_quotable(byte) {
            return Err(CutFault::BadByte { place: at });
        }
        self.keep(byte, Mode::Quoted)
    }

    fn step(&mut self, at: u64, byte: u8) -> Result<(), CutFault>
        ensures { Steps self.new at (step at (state_of self.old) byte) result }
    {
        match self.mode {
            Mode::Between => self.begin(at, byte),
            Mode::Dash => self.after_dash(at, byte),
            Mode::Comment => {
                self.in_comment(byte);
                Ok(())
            }
            Mode::Colon => self.after_colon(at, byte),
            Mode::Name => self.in_name(at, byte),
            Mode::Underscore => self.after_underscore(at, byte),
            Mode::Digits => self.in_digits(at, byte),
            Mode::Point => self.after_point(at, byte),
            Mode::Fraction => self.in_fraction(at, byte),
            Mode::Exponent => self.in_exponent(at, byte),
            Mode::Sign => self.after_sign(at, byte),
            Mode::Power => self.in_power(at, byte),
            Mode::Quoted => self.in_quoted(at, byte),
        }
    }

    // The text ends here.
    fn close(&mut self, at: u64) -> Result<(), CutFault>
        ensures { EndsAs self.new at (end (state_of self.old)) result }
    {
        match self.mode {
            Mode::Between | Mode::Comment => Ok(()),
            Mode::Colon => self.colon_ends(),
            Mode::Name => self.name_ends(),
            Mode::Digits => {
                if self.pending.len() > 9 {
                    return Err(CutFault::BadByte { place: at });
                }
                self.integer_ends()
            }
            Mode::Fraction | Mode::Power => self.real_ends(),
            Mode::Dash
            | Mode::Underscore
            | Mode::Point
            | Mode::Exponent
            | Mode::Sign
            | Mode::Quoted => Err(CutFault::BadByte { place: at }),
        }
    }
}

impl Machine for BsdlMachine {
    ghost use Rattle.bsdl_words.specs.Machine as machine;
    ghost use Rattle.bsdl_words.specs.Steps as steps;

    type Words = BsdlWords;

    ghost State = { machine.State };

    ghost state = { steps.state_of };

    ghost start = { machine.start };

    ghost step = { machine.step };

    ghost words = { machine.text_at };

    fn take_run(&mut self, at: u64, piece: &[u8]) -> Result<usize, CutFault> {
        self.take(at, piece)
    }

    fn end(mut self, at: u64) -> Result<BsdlWords, CutFault> {
        if let Err(e) = self.close(at) {
            return Err(e);
        }
        let BsdlMachine {
            words,
            mode: _,
            from: _,
            pending: _,
            alloc: _,
        } = self;
        Ok(BsdlWords {
            list: words,
            end: at,
        })
    }
}
