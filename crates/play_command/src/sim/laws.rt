ghost use Rattle.netlist_link.specs.Laws.{FaultsForbidLinks};
ghost use Rattle.box_links.specs.Laws.{FaultsForbidBoxLinks};
ghost use Rattle.box_texts.specs.Laws as libraries;
ghost use Rattle.scan_vectors.specs.Exactly.{SpelledIsFaultless, SpelledOnce};
ghost use Rattle.scan_vectors.specs.ScriptsLaws.{LegalIsNotIllegal};

use box_links::box_faults_forbid_box_links;
use box_texts::texts_of_boxes_are_spelled_or_at_fault;
use netlist_link::faults_forbid_links;
use scan_vectors::scripts::legal_lines_are_not_illegal;
use scan_vectors::texts_of_events_are_spelled_or_at_fault;

/// A law: no fault stands in texts that are free of faults.
pub fn simulation_faults_stand_apart()
    ensures links { FaultsForbidLinks }
    ensures box_links { FaultsForbidBoxLinks }
    ensures once { SpelledOnce }
    ensures faultless { SpelledIsFaultless }
    ensures legal { LegalIsNotIllegal }
    ensures one_library { libraries.SpelledOnce }
    ensures no_library_fault { libraries.SpelledIsFaultless }
{
    faults_forbid_links();
    box_faults_forbid_box_links();
    texts_of_events_are_spelled_or_at_fault();
    legal_lines_are_not_illegal();
    texts_of_boxes_are_spelled_or_at_fault();
}
