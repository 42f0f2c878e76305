ghost use Rattle.default_starts.specs.Laws.{EachHasNumber, IllegalWithStarts, LegalWithStarts, NoneHiddenNoneAdded, NoneHiddenSameRules, OneWithStarts, OthersBreakAsBefore, StartsAreHidden, StartsBreakNoRule};

/// A law: lines have their starts in one way at most, and each line has its number.
pub fn starts_are_added_in_one_way()
    ensures once { OneWithStarts }
    ensures numbered { EachHasNumber }
{}

/// A law: where no port is hidden the lines and the rules stay as they are.
pub fn nothing_hidden_changes_nothing()
    ensures lines { NoneHiddenNoneAdded }
    ensures rules { NoneHiddenSameRules }
{}

/// A law: where the word of each hidden bit names it, no added line breaks a rule, and each other line breaks one where
/// it did, but that hidden input bits begin by themselves. So the lines with their starts are legal just where they are,
/// or illegal at the same line.
pub fn starts_keep_the_rules()
    ensures added { StartsBreakNoRule }
    ensures others { OthersBreakAsBefore }
    ensures legal { LegalWithStarts }
    ensures illegal { IllegalWithStarts }
{}

/// A law: what is added are starts of hidden bits, one for each that no line starts.
pub fn starts_are_of_hidden_bits()
    ensures { StartsAreHidden }
{}
