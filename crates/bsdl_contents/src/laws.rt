ghost use Rattle.bsdl_contents.specs.Laws.{HoldOneContents};

/// The strings of a file never hold two different contents.
pub fn strings_hold_one_contents()
    ensures { HoldOneContents }
{}
