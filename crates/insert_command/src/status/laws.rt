ghost use Rattle.netlist_link.specs.Laws.{FaultsForbidLinks};
ghost use Rattle.cell_text.specs.Laws as libraries;
ghost use Rattle.plan_texts.specs.Exactly.{SpelledOnce, SpelledIsFaultless};
ghost use Rattle.status_fitting.specs.Exactly as registers;
ghost use Rattle.insert_command.specs.StatusFree.{FreeStatusTextsWantMemory};

use cell_text::texts_of_libraries_are_spelled_or_at_fault;
use netlist_link::faults_forbid_links;
use plan_texts::texts_of_plans_are_spelled_or_at_fault;
use status_fitting::register_texts::texts_of_registers_are_spelled_or_at_fault;

/// A law: no fault stands in texts that are free of faults.
pub fn status_faults_stand_apart()
    ensures links { FaultsForbidLinks }
    ensures once { SpelledOnce }
    ensures faultless { SpelledIsFaultless }
    ensures registers_once { registers.SpelledOnce }
    ensures registers_faultless { registers.SpelledIsFaultless }
    ensures one_library { libraries.SpelledOnce }
    ensures no_library_fault { libraries.SpelledIsFaultless }
{
    faults_forbid_links();
    texts_of_plans_are_spelled_or_at_fault();
    texts_of_registers_are_spelled_or_at_fault();
    texts_of_libraries_are_spelled_or_at_fault();
}

/// A law: what is told of texts that are free of faults is want of memory.
pub fn free_status_texts_want_memory()
    ensures { FreeStatusTextsWantMemory }
{
    status_faults_stand_apart();
}
