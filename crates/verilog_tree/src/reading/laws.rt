ghost use Rattle.verilog_tree.specs.Conditions.{SpelledModulesKeepConditions, SpelledTreesKeepConditions};
ghost use Rattle.verilog_tree.specs.ReadingLaws.{ReadsEachSource, ReadsOnlySources, SpellsOneSource, FaultsSpellNothing, FaultsAtFaultWord, ReadsEachText, ReadsOnlyTexts, FaultsAtTextFaultWord};

/// The words of each written module that keeps the rules are read as it.
pub fn reads_each_source()
    ensures { ReadsEachSource }
{}

/// Reading finds nothing but such modules, each from its own words.
pub fn reads_only_sources()
    ensures { ReadsOnlySources }
{}

/// Two different modules of that kind never have the same words.
pub fn spells_one_source()
    ensures { SpellsOneSource }
{}

/// Where reading finds a fault, the words are those of no module.
pub fn faults_spell_nothing()
    ensures { FaultsSpellNothing }
{}

/// Reading stops at the least word with which no module's words go on.
pub fn faults_at_fault_word()
    ensures { FaultsAtFaultWord }
{}

/// The words of modules that keep the rules, one after another, are read as them.
pub fn reads_each_text()
    ensures { ReadsEachText }
{}

/// Reading finds nothing but such modules, from their own words.
pub fn reads_only_texts()
    ensures { ReadsOnlyTexts }
{}

/// Reading of several modules stops at the least word with which no such text goes on.
pub fn faults_at_text_fault_word()
    ensures { FaultsAtTextFaultWord }
{}

/// Each tree that some text spells keeps the conditions on names, numbers and kinds.
pub fn spelled_trees_keep_the_conditions()
    ensures { SpelledTreesKeepConditions }
{}

/// So do the trees of modules that a text spells, one after another.
pub fn spelled_modules_keep_the_conditions()
    ensures { SpelledModulesKeepConditions }
{}
