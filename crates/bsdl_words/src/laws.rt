ghost use Rattle.bsdl_words.specs.Laws.{AreOneList};

/// A text is never cut into two different lists of words.
pub fn texts_are_one_list_of_words()
    ensures { AreOneList }
{}
