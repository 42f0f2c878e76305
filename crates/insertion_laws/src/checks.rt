// A netlist that keeps another's ports and cells and realises its chip, checked by the program of the device: no
// expectation is missed.
// specs/ChecksLaws.antt has the statements, specs/ChecksTexts.antt what they speak of. Its functions are laws.
// IEEE Std 1149.1-2001: test access port, the annex on BSDL; plans and programs are own.
//
// - Laws over texts in any spelling: the netlist's text spells a netlist that keeps the ports and cells of one
//   that a plan fits, with the plan's test access port behind the ports, and that behaves as that one wrapped in
//   the plan's device; the BSDL text spells that device (`BelongTogether`).
// - `netlists_have_chips`: a link view that keeps and realises has the device's ports, and the chip that the
//   device makes of the core.
// - `program_texts_spell_programs`: the text that `vectors` writes spells the device's program.
// - `texts_have_chips`: whatever is read of such texts has that chip. `texts_agree`: its ports agree with the
//   device's.
// - `programs_are_legal_there`: the lines of the device's program are legal for it.
// - `texts_miss_nothing`, `written_programs_miss_nothing`: the verdict on the script of that program misses no
//   expectation; nor does that on the script of any text of events that spells the program.
// By the contract of its law functions.

ghost use Rattle.insertion_laws.specs.ChecksLaws.{NetlistsHaveChips, ProgramTextsSpellPrograms, TextsHaveChips};
ghost use Rattle.insertion_laws.specs.ChecksLaws.{TextsAgree, ProgramsAreLegalThere, TextsMissNothing, WrittenProgramsMissNothing};

use bsdl_device::round_trip::spelled_devices_keep_the_conditions;
use bsdl_values::spells_one_device;
use netlist_link::{link_view_is_formed, link_view_is_named, link_views_agree};
use netlist_model::laws::direction_of_a_bit;
use plan_fitting::devices::{devices_have_ports, hidden_bits_have_none, plans_suit_netlists};
use program_runs::plans_stand_around;
use program_runs::scripts::{programs_are_legal, scripts_are_met};
use scan_vectors::texts_of_events_are_spelled_or_at_fault;
use verilog_texts::bytes_spell_one_tree;
use verilog_tree::reading::spelled_trees_keep_the_conditions;
use wrapped_chip::copies::same_realises;

/// A link view that keeps another netlist's ports and cells and realises it has the chip that its device makes
/// of that netlist.
pub fn netlists_have_chips()
    ensures { NetlistsHaveChips }
{
    direction_of_a_bit();
    link_view_is_named();
    link_view_is_formed();
    plans_suit_netlists();
    devices_have_ports();
    hidden_bits_have_none();
    plans_stand_around();
    same_realises();
}

/// What `vectors` writes of a device is that device's program.
pub fn program_texts_spell_programs()
    ensures { ProgramTextsSpellPrograms }
{}

/// Whatever is read of texts that belong together has the chip that the described device makes of the core.
pub fn texts_have_chips()
    ensures { TextsHaveChips }
{
    direction_of_a_bit();
    spelled_trees_keep_the_conditions();
    spelled_devices_keep_the_conditions();
    bytes_spell_one_tree();
    spells_one_device();
    link_views_agree();
    link_view_is_named();
    link_view_is_formed();
    plans_suit_netlists();
    devices_have_ports();
    hidden_bits_have_none();
    plans_stand_around();
    same_realises();
}

/// Its ports are those that are described.
pub fn texts_agree()
    ensures { TextsAgree }
{
    spelled_trees_keep_the_conditions();
    bytes_spell_one_tree();
    spells_one_device();
    link_views_agree();
    link_view_is_named();
    link_view_is_formed();
    devices_have_ports();
}

/// The lines of the described device's program are legal for it.
pub fn programs_are_legal_there()
    ensures { ProgramsAreLegalThere }
{
    texts_have_chips();
    programs_are_legal();
}

/// No expectation of the described device's program is missed on it.
pub fn texts_miss_nothing()
    ensures { TextsMissNothing }
{
    texts_have_chips();
    scripts_are_met();
}

/// Nor is one of any text of that program.
pub fn written_programs_miss_nothing()
    ensures { WrittenProgramsMissNothing }
{
    texts_miss_nothing();
    texts_of_events_are_spelled_or_at_fault();
}
