ghost use Rattle.word_cutter.specs.LinesLaws.{KeptAreRows, RowsReadBack};

/// A law: the kept lines of any text are rows of words.
pub fn rows_of_texts_are_rows()
    ensures { KeptAreRows }
{}

/// A law: rows of words are the kept lines of the text that is written of them.
pub fn texts_of_rows_read_back()
    ensures { RowsReadBack }
{}
