ghost use Rattle.netlist_link.specs.Laws.{FaultsForbidLinks};
ghost use Rattle.cell_text.specs.Laws as libraries;

use cell_text::texts_of_libraries_are_spelled_or_at_fault;
use netlist_link::faults_forbid_links;

/// A law: no fault stands in texts that are free of faults.
pub fn stripping_faults_stand_apart()
    ensures links { FaultsForbidLinks }
    ensures one_library { libraries.SpelledOnce }
    ensures no_library_fault { libraries.SpelledIsFaultless }
{
    faults_forbid_links();
    texts_of_libraries_are_spelled_or_at_fault();
}
