use std::alloc::AllocFailed;
use texts::OutOfMemory;

/// Why a line can't stand where it does.
#[derive(Clone, Copy, Drop)]
pub(crate) enum LineFault {
    /// It is no line of a table, or another has to come before it.
    BadLine,
    OutOfMemory,
}

impl From<OutOfMemory> for LineFault {
    fn from(_error: OutOfMemory) -> LineFault {
        LineFault::OutOfMemory
    }
}

impl<T: Drop> From<AllocFailed<T>> for LineFault {
    fn from(_error: AllocFailed<T>) -> LineFault {
        LineFault::OutOfMemory
    }
}

/// A line of a table.
#[derive(Clone, Copy)]
pub(crate) enum Line<'a> {
    /// Empty, or a comment.
    Empty,
    /// A row begins.
    Row,
    /// The words of the command.
    Words(&'a str),
    /// A text is held under this name.
    Held(&'a str),
    /// The shelf's call of this number fails.
    Fail(u64),
    /// The sink's call of this number fails.
    FailPut(u64),
    /// The output of this name has room for so many bytes.
    Room(&'a str, u64),
    /// The sink has room for so many bytes.
    SinkRoom(u64),
    /// A run ends with this status.
    Ends(u8),
    /// The sink is given a text.
    Gives,
    /// The sink is given a text whose last line is this one.
    GivesLast(&'a str),
    /// A text is written under this name.
    Writes(&'a str),
    /// Some text is written under this name.
    WritesAny(&'a str),
    /// Under the first name the text is written that is held under the second.
    Same(&'a str, &'a str),
    /// Under the first name so many bytes are written: the front of the text that is held under the second.
    Front(&'a str, &'a str, usize),
    /// What was written under this name is held from then on.
    Keep(&'a str),
    /// A piece of a text.
    Piece(Piece<'a>),
}

/// A piece of a text, which is added so many times, and may end a line.
#[derive(Clone, Copy)]
pub(crate) struct Piece<'a> {
    pub(crate) count: u32,
    pub(crate) coded: &'a str,
    pub(crate) ends_line: bool,
}

impl<'a> Line<'a> {
    /// The line that a text is, or `None` where it is none.
    pub(crate) fn of(text: &'a str) -> Option<Line<'a>> {
        if text.is_empty() || text.starts_with('#') {
            return Some(Line::Empty);
        }
        match Piece::of(text) {
            Some(piece) => Some(Line::Piece(piece)),
            None => Line::of_key(text),
        }
    }

    // A line that begins with a key word.
    fn of_key(text: &'a str) -> Option<Line<'a>> {
        let (key, rest) = text.split_once(' ').unwrap_or((text, ""));
        match key {
            "row" => Some(Line::Row),
            "words" => Some(Line::Words(rest)),
            "held" => Some(Line::Held(rest)),
            "fail" => Some(Line::Fail(rest.parse().ok()?)),
            "fail-put" => Some(Line::FailPut(rest.parse().ok()?)),
            "room" => Line::of_room(rest),
            "sink-room" => Some(Line::SinkRoom(rest.parse().ok()?)),
            "ends" => Some(Line::Ends(rest.parse().ok()?)),
            _ => Line::of_end(key, rest),
        }
    }

    // A line on what a run comes to.
    fn of_end(key: &str, rest: &'a str) -> Option<Line<'a>> {
        match key {
            "gives" => Some(Line::Gives),
            "gives-last" => Some(Line::GivesLast(rest)),
            "writes" => Some(Line::Writes(rest)),
            "writes-any" => Some(Line::WritesAny(rest)),
            "same" => Line::of_same(rest),
            "front" => Line::of_front(rest),
            "keep" => Some(Line::Keep(rest)),
            _ => None,
        }
    }

    fn of_room(text: &'a str) -> Option<Line<'a>> {
        let (name, bytes) = text.rsplit_once(' ')?;
        Some(Line::Room(name, bytes.parse().ok()?))
    }

    fn of_same(text: &'a str) -> Option<Line<'a>> {
        let (name, held) = text.split_once(' ')?;
        Some(Line::Same(name, held))
    }

    fn of_front(text: &'a str) -> Option<Line<'a>> {
        let (names, bytes) = text.rsplit_once(' ')?;
        let (name, held) = names.split_once(' ')?;
        Some(Line::Front(name, held, bytes.parse().ok()?))
    }
}

impl<'a> Piece<'a> {
    fn of(text: &'a str) -> Option<Piece<'a>> {
        if let Some(coded) = text.strip_prefix('|') {
            return Some(Piece {
                count: 1,
                coded,
                ends_line: true,
            });
        }
        let (digits, coded) = text.split_once('+')?;
        let count = if digits.is_empty() {
            1
        } else {
            digits.parse().ok()?
        };
        Some(Piece {
            count,
            coded,
            ends_line: false,
        })
    }
}
