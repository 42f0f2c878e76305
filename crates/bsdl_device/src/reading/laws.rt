ghost use Rattle.bsdl_device.specs.ReadingLaws.{ReadsEachFile, ReadsOnlyFiles, SpellsOneFile, FaultsSpellNothing, FaultsAtFaultWord, DeclarationsLeaveNoMore};

/// The words of each written file that keeps the rules are read as it.
pub fn reads_each_file()
    ensures { ReadsEachFile }
{}

/// Reading finds nothing but such files, each from its own words.
pub fn reads_only_files()
    ensures { ReadsOnlyFiles }
{}

/// Two different files of that kind never have the same words.
pub fn spells_one_file()
    ensures { SpellsOneFile }
{}

/// Where reading finds a fault, the words are those of no file.
pub fn faults_spell_nothing()
    ensures { FaultsSpellNothing }
{}

/// Where reading finds a fault, it stands at the word with which no file goes on.
pub fn faults_at_fault_word()
    ensures { FaultsAtFaultWord }
{}

/// Reading a declaration of ports goes forward.
pub fn declarations_leave_no_more()
    ensures { DeclarationsLeaveNoMore }
{}
