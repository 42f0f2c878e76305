ghost use Rattle.std.specs.Prelude.{◌≡◌, ◌++◌, ℕ, List, IfOk, OnOk};
ghost use Rattle.verilog_tree.specs.Canonical.{canonical};
ghost use Rattle.verilog_tree.specs.IsTree.{IsTree};
ghost use Rattle.verilog_tree.specs.Texts.{SpellsText};

use crate::printing::items::put_items;
use crate::printing::names::put_name;
use crate::printing::ports::{put_ports, put_wires};
use std::alloc::Global;
use texts::{OutOfMemory, Text};
use verilog_tree::Module;
use verilog_tree::reading::spelled_trees_keep_the_conditions;

// As many bytes as an item takes as a rule; where items take more, the text's room grows.
const ITEM_BYTES: usize = 64;

fn put_module(text: &mut Text, tree: &Module) -> Result<(), OutOfMemory>
    ensures { OnOk result (text.new ≡ text.old ++ canonical tree.now) }
{
    text.append(b"module ")?;
    put_name(text, tree.name.as_bytes())?;
    text.push(b' ')?;
    put_ports(text, tree.ports.as_slice())?;
    put_wires(text, tree.wires.as_slice())?;
    put_items(text, tree.items.as_slice())?;
    text.append(b"endmodule\n")
}

/// The canonical text of a module. A tree that some text spells is spelled by its canonical text too.
pub fn print_module(alloc: Global, tree: &Module) -> Result<Text, OutOfMemory>
    ensures text { IfOk result (λ text. text ≡ canonical tree.now) }
    ensures spells { IsTree tree.now → IfOk result (λ text. SpellsText text tree.now) }

    // Just the trees that keep the conditions are spelled by a text.
    ensures spelled { (bytes : List ℕ) → SpellsText bytes tree.now → IsTree tree.now }
{
    // A law that the proof uses.
    spelled_trees_keep_the_conditions();
    let mut text = Text::new(alloc);
    text.make_room(tree.items.len().saturating_mul(ITEM_BYTES));
    put_module(&mut text, tree)?;
    Ok(text)
}
