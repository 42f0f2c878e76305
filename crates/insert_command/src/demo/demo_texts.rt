// From the number to the texts.
ghost use Rattle.std.specs.Prelude.{◌≡◌, ◌<◌, ◌++◌, [], IfErr, IfOk, OnOk};
ghost use Rattle.std.specs.Fmt.{decimal};
ghost use Rattle.verilog_tree.specs.Canonical.{canonical};
ghost use Rattle.verilog_tree.specs.IsTree.{IsTree};
ghost use Rattle.link_model.specs.Late.{IsLinkable};
ghost use Rattle.output_lines.specs.Lines.{blank_word};
ghost use Rattle.plan_texts.specs.Canonical.{canonical_plan};
ghost use Rattle.status_insertions.specs.insertion_inputs.Faults.{StandsInTexts};
ghost use Rattle.status_insertions.specs.insertions.Insertions.{IsInsertionText};
ghost use Rattle.command_faults.specs.Statuses.{status_of};
ghost use Rattle.command_faults.specs.declared.status.Status.{Status};
ghost use Rattle.demo_chips.specs.Netlists.{demo_module};
ghost use Rattle.demo_chips.specs.Plans.{demo_plan};
ghost use Rattle.insert_command.specs.Demonstrations.{IsDemo, demo_line};

use crate::demo::laws::demo_texts_are_insertable;
use crate::{fault_of, free_texts_want_memory};
use cell_library::Library;
use command_faults::Fault;
use demo_chips::netlists::demo_has_its_cells;
use demo_chips::plans::{demo_chips_are_counted, demo_plan_is_spelled};
use demo_chips::{demo_module, demo_plan};
use itoa::Buffer;
use output_lines::add_word;
use plan_texts::print_plan;
use status_insertions::lower_insertion_inputs::InsertFault;
use status_insertions::lower_insertions::{Inserted, insert_texts};
use std::alloc::Global;
use texts::{OutOfMemory, Text};
use verilog_texts::printing::{canonical_texts_spell_their_trees, print_module};

// The canonical text of the netlist of a number.
fn netlist_text(alloc: Global, number: u32) -> Result<Text, OutOfMemory>
    requires { number < 10000 }
    ensures { IfOk result (λ text. text ≡ canonical (demo_module number)) }
{
    let tree = demo_module(alloc, number)?;
    print_module(alloc, &tree)
}

// The canonical text of the plan.
fn plan_text(alloc: Global) -> Result<Text, OutOfMemory>
    ensures { IfOk result (λ text. text ≡ canonical_plan demo_plan) }
{
    // A law that the proof uses.
    demo_plan_is_spelled();
    let plan = demo_plan(alloc)?;
    print_plan(alloc, &plan)
}

// Inserts into the netlist of a number.
fn insert_demo(alloc: Global, number: u32) -> Result<Inserted, InsertFault>
    requires { number < 10000 }
    ensures inserted { IfOk result (λ made. IsInsertionText [] (canonical (demo_module number))
        (canonical_plan demo_plan) made.verilog made.bsdl made.report) }
    ensures fault { IfErr result (StandsInTexts [] (canonical (demo_module number))
        (canonical_plan demo_plan)) }
{
    let net = netlist_text(alloc, number)?;
    let plan = plan_text(alloc)?;
    insert_texts(alloc, net, plan.as_bytes(), Library::new(alloc))
}

/// What comes of inserting into the netlist of a number. It is refused only where memory is short.
pub fn inserted_demo<'a>(alloc: Global, number: u32) -> Result<Inserted, Fault<'a>>
    requires number { number < 10000 }
    requires tree { IsTree (demo_module number) }
    requires linkable { IsLinkable [] (demo_module number) }
    ensures made { IfOk result (λ made. IsDemo number made.verilog made.bsdl) }
    ensures fault { IfErr result (λ fault. status_of fault ≡ Status.Memory) }
{
    // Laws that the proof uses.
    canonical_texts_spell_their_trees();
    free_texts_want_memory();
    demo_plan_is_spelled();
    demo_has_its_cells();
    demo_chips_are_counted();
    demo_texts_are_insertable();
    match insert_demo(alloc, number) {
        Ok(inserted) => Ok(inserted),
        Err(fault) => Err(fault_of(fault)),
    }
}

// A number's digits behind a blank.
fn put_number(text: &mut Text, number: u32) -> Result<(), OutOfMemory>
    ensures { OnOk result (text.new ≡ text.old ++ blank_word (decimal number)) }
{
    let mut digits = Buffer::new();
    add_word(text, digits.format(number).as_bytes())
}

/// The line of a number.
#[tactic(auto, unfolding(output_lines::specs::Lines::words_line))]
pub fn line_text(alloc: Global, number: u32) -> Result<Text, OutOfMemory>
    requires { number < 10000 }
    ensures { IfOk result (λ text. text ≡ demo_line number) }
{
    let mut text = Text::from_bytes(alloc, b"demo")?;
    put_number(&mut text, number)?;
    add_word(&mut text, b"kept")?;
    put_number(&mut text, 148 + 10 * number)?;
    add_word(&mut text, b"boundary")?;
    put_number(&mut text, 35)?;
    text.append(b"\n")?;
    Ok(text)
}
