ghost use Rattle.std.specs.Prelude.{◌≡◌, List, filter, ◌-◌, ◌<◌, length, not, IfOk};
ghost use Rattle.verilog_lexicon.specs.Words.{place_in};
ghost use Rattle.verilog_tree.specs.declared.tree.Module.{Module as ModuleTree};
ghost use Rattle.verilog_tree.specs.Texts.{SpellsModule};
ghost use Rattle.verilog_tree.specs.Trees.{is_port_net, tree_of};
ghost use Rattle.verilog_tree.specs.Reader.{end_at, items_at, module_at, modules_at, source_at};
ghost use Rattle.verilog_modules.specs.Texts.{trees_of, SpellsModules, RefusesText};
ghost use Rattle.verilog_modules.specs.Parsed.{Gives, GivesSeen};
ghost use Rattle.verilog_modules.specs.Headers.{texts};
ghost use Rattle.verilog_modules.specs.Modules.{GivesModuleBody, ports_in};
ghost use Rattle.verilog_modules.specs.Faults.{Refuses};
ghost use Rattle.verilog_modules.specs.Laws.{WordsSpellOneList, WordsSpellOneModule};
ghost use Rattle.verilog_modules.specs.declared.fault.SyntaxFault.TheVariants as fault;

use crate::declarations::Declarations;
use crate::fault::{ParseFault, SyntaxFault};
use crate::header::{Header, module_header};
use crate::items::{Body, items};
use crate::nets::own_wires;
use crate::parts::{expect, module, text};
use std::alloc::Global;
use texts::{OutOfMemory, Row, Text};
use verilog_lexicon::reader::WordReader;
use verilog_lexicon::symbol::Symbol;
use verilog_lexicon::words::Words;
use verilog_tree::reading::{
    faults_at_fault_word, faults_at_text_fault_word, faults_spell_nothing, reads_each_text,
    reads_only_sources, reads_only_texts, spells_one_source,
};
use verilog_tree::{Module, Port};

// No word may follow the module.
fn end(reader: &WordReader) -> Result<(), ParseFault>
    ensures { Gives result reader.now (end_at reader.now) }
{
    if reader.is_empty() {
        Ok(())
    } else {
        Err(ParseFault::Syntax)
    }
}

// As few words as an item takes as a rule; where items take fewer, their room grows.
const ITEM_WORDS: usize = 10;

// What the items give, where these names are to be declared, with room for so many items at first.
fn module_body<'a>(
    alloc: Global,
    names: &[&'a [u8]],
    room: usize,
    reader: &mut WordReader<'a>,
) -> Result<Body<'a>, ParseFault>
    ensures { GivesModuleBody (texts names.now) result reader.new
        (items_at (texts names.now) reader.old) }
{
    let mut body = Body {
        declarations: Declarations::new(alloc, names)?,
        wires: Row::new(alloc),
        items: Row::new(alloc),
    };
    body.items.make_room(room);
    items(alloc, reader, &mut body)?;
    Ok(body)
}

// The ports of a header, by the declarations.
fn header_ports(
    alloc: Global,
    header: Header,
    declarations: &Declarations,
) -> Result<Row<Port>, OutOfMemory>
    ensures { IfOk result (λ ports. ports ≡ ports_in header.entry declarations.now) }
{
    match header {
        Header::Ports(ports) => Ok(ports),
        Header::Names(names) => declarations.ports(alloc, names.as_slice()),
    }
}

// The tree, once all is read.
fn tree(alloc: Global, name: Text, header: Header, body: Body) -> Result<Module, OutOfMemory>
    ensures { IfOk result (λ tree. tree ≡ record {
      name = name;
      ports = ports_in header.entry body.entry.declarations;
      wires = filter (λ wire. not (is_port_net (ports_in header.entry body.entry.declarations) wire)) body.entry.wires;
      items = body.entry.items;
    }) }
{
    let ports = header_ports(alloc, header, &body.declarations)?;
    let Body { wires, items, .. } = body;
    let wires = own_wires(alloc, ports.as_slice(), wires)?;
    Ok(Module {
        name,
        ports,
        wires,
        items,
    })
}

// The tree of a module's words, whatever follows them; the reader then stands behind them, or where the fault is.
#[tactic(auto, unfolding(verilog_tree::specs::Reader::module_at))]
fn module_tree(alloc: Global, room: usize, reader: &mut WordReader) -> Result<Module, ParseFault>
    ensures gives { GivesSeen tree_of result reader.new (module_at reader.old) }
    ensures shorter { IfOk result (λ _. length reader.new < length reader.old) }
{
    module(reader)?;
    let name = text(alloc, reader)?;
    let header = module_header(alloc, reader)?;
    expect(reader, Symbol::Semicolon)?;
    let body = module_body(alloc, header.names(), room, reader)?;
    Ok(tree(alloc, name, header, body)?)
}

// The tree of a module's words, behind which none stands.
fn whole_tree(alloc: Global, reader: &mut WordReader) -> Result<Module, ParseFault>
    ensures { GivesSeen tree_of result reader.new (source_at reader.old) }
{
    let room = reader.len() / ITEM_WORDS;
    let tree = module_tree(alloc, room, reader)?;
    end(reader)?;
    Ok(tree)
}

// The trees of modules one after another, of which there is one at least.
fn module_trees(alloc: Global, reader: &mut WordReader) -> Result<Row<Module>, ParseFault>
    ensures { GivesSeen trees_of result reader.new (modules_at reader.old) }
{
    let mut trees = Row::new(alloc);
    trees.push(module_tree(alloc, 0, reader)?)?;
    while !reader.is_empty() {
        trees.push(module_tree(alloc, 0, reader)?)?;
    }
    Ok(trees)
}

// The fault of the words at which a reader stands.
fn fault_at(words: &Words, reader: &WordReader) -> SyntaxFault
    ensures { let word = length words.now.list - length reader.now in result
        ≡ fault.BadSyntax (place_in words.now word) word }
{
    let word = words.len().saturating_sub(reader.len());
    SyntaxFault::BadSyntax {
        place: words.place_of(word),
        word: word as u64,
    }
}

/// The tree that the words spell. It is refused exactly where they spell none, or memory is.
pub fn parse_module(alloc: Global, words: &Words) -> Result<Module, SyntaxFault>
    ensures spelled { IfOk result (λ tree. SpellsModule words.now.list tree) }
    ensures only { IfOk result (λ tree. (other : ModuleTree) → SpellsModule words.now.list other
        → other ≡ tree) }
    ensures refused { Refuses words.now result }
{
    // Laws of reading that the proof uses.
    reads_only_sources();
    spells_one_source();
    faults_spell_nothing();
    faults_at_fault_word();
    let mut reader = WordReader::new(words);
    match whole_tree(alloc, &mut reader) {
        Ok(tree) => Ok(tree),
        Err(ParseFault::Syntax) => Err(fault_at(words, &reader)),
        Err(ParseFault::OutOfMemory) => Err(SyntaxFault::OutOfMemory),
    }
}

/// A law: words spell at most one module.
pub fn words_spell_one_module()
    ensures { WordsSpellOneModule }
{
    spells_one_source();
}

/// The trees of the modules that the words spell, one after another. The words are refused exactly where they spell
/// none, or memory is.
pub fn parse_modules(alloc: Global, words: &Words) -> Result<Row<Module>, SyntaxFault>
    ensures spelled { IfOk result (λ trees. SpellsModules words.now.list trees) }
    ensures only { IfOk result (λ trees. (others : List ModuleTree)
        → SpellsModules words.now.list others → others ≡ trees) }
    ensures refused { RefusesText words.now result }
{
    // Laws of reading that the proof uses.
    reads_only_texts();
    reads_each_text();
    faults_at_text_fault_word();
    let mut reader = WordReader::new(words);
    match module_trees(alloc, &mut reader) {
        Ok(trees) => Ok(trees),
        Err(ParseFault::Syntax) => Err(fault_at(words, &reader)),
        Err(ParseFault::OutOfMemory) => Err(SyntaxFault::OutOfMemory),
    }
}

/// A law: words spell at most one list of modules.
pub fn words_spell_one_list()
    ensures { WordsSpellOneList }
{
    reads_each_text();
}
