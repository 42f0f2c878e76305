// From the text that is read to the text of the flat module.
ghost use Rattle.std.specs.Prelude.{IfErr, IfOk};
ghost use Rattle.verilog_texts.specs.TextOutcome.{AreReadAs};
ghost use Rattle.verilog_texts.specs.TextFaults.{IsModulesTextFault};
ghost use Rattle.text_command.specs.FlatTexts.{IsFlatOfText, IsFlattened, StandsInModules};

use cell_library::Library;
use command_faults::Fault;
use hier_flatten::{Hier, flatten};
use hier_laws::solutions::flat_modules_keep_the_conditions;
use std::alloc::Global;
use texts::Text;
use verilog_texts::printing::print_module;
use verilog_texts::{TextFault, bytes_spell_one_tree, read_modules};
use verilog_tree::Module;

// The modules that a text spells.
fn hier_of(alloc: Global, text: Text) -> Result<Hier, TextFault>
    ensures modules { IfOk result (λ hier. AreReadAs text hier.modules) }
    ensures fault { IfErr result (IsModulesTextFault text) }
{
    let modules = read_modules(alloc, text)?;
    Ok(Hier { modules })
}

// The flat module of one of the modules that a text spells, which are let go.
fn flat_of<'a>(alloc: Global, text: Text, top: &str, library: &Library) -> Result<Module, Fault<'a>>
    ensures found { IfOk result (IsFlatOfText library.now top.now text) }
    ensures fault { IfErr result (StandsInModules library.now top.now text) }
{
    // A law that the proof uses.
    flat_modules_keep_the_conditions();
    let hier = hier_of(alloc, text)?;
    Ok(flatten(alloc, &hier, top.as_bytes(), library)?)
}

/// The canonical text of the flat module of one of the modules that a text spells, by its name.
pub fn flattened<'a>(
    alloc: Global,
    text: Text,
    top: &str,
    library: &Library,
) -> Result<Text, Fault<'a>>
    ensures found { IfOk result (IsFlattened library.now top.now text) }
    ensures fault { IfErr result (StandsInModules library.now top.now text) }
{
    // A law that the proof uses.
    bytes_spell_one_tree();
    let tree = flat_of(alloc, text, top, library)?;
    Ok(print_module(alloc, &tree)?)
}
