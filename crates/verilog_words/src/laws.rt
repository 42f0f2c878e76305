ghost use Rattle.verilog_words.specs.Laws.{BytesHaveOneList};

/// A law: bytes have at most one list of words.
pub fn bytes_have_one_list_of_words()
    ensures { BytesHaveOneList }
{}
