// The rules on names: of cells and boxes, and of instances that are cut.
ghost use Rattle.std.specs.Prelude.{◌≡◌, ◌≤◌, ◌++◌, [], length, map, IfOk};
ghost use Rattle.std.specs.List.{prefix_len, list_all};
ghost use Rattle.verilog_lexicon.specs.Bytes.{is_escaped_byte};
ghost use Rattle.list_laws.specs.Options.{or_else};
ghost use Rattle.texts.specs.Repeated.{bytes_of, texts};
ghost use Rattle.cell_text.specs.Reader.{rows_of};
ghost use Rattle.cell_text.specs.Rules.{name_in, barred_after};
ghost use Rattle.box_texts.specs.Rules as rules;

use cell_text::find_barred;
use std::alloc::Global;
use texts::OutOfMemory;
use texts::first_faults::first_repeated;

fn all_print(name: &[u8]) -> bool
    ensures { result ≡ list_all is_escaped_byte name.now }
{
    name.iter().all(|byte| 33 <= *byte && *byte <= 126)
}

// 1 to 255 bytes that print, and no blank.
fn is_instance_name(name: &[u8]) -> bool
    ensures { result ≡ rules.is_instance_name name.now }
{
    1 <= name.len() && name.len() <= 255 && all_print(name)
}

// How many names stand before the first that no instance has.
fn fit_count(names: &[&[u8]]) -> usize
    ensures count { result ≡ prefix_len (λ name. rules.is_instance_name name.now) names.now }
    ensures within { result ≤ length names.now }
{
    names
        .iter()
        .take_while(|name| is_instance_name(**name))
        .count()
}

// The first name that no instance has, or that came before.
#[tactic(auto, using(crate::proofs::Named::cut_again, crate::proofs::Named::cut_unfit, crate::proofs::Named::no_cut_barred))]
fn find_barred_cut<'a>(alloc: Global, names: &[&'a [u8]]) -> Result<Option<&'a [u8]>, OutOfMemory>
    ensures { IfOk result (λ found. bytes_of found ≡ rules.barred_cut [] (texts names.now)) }
{
    let count = fit_count(names);
    match first_repeated(alloc, &names[..count])? {
        Some(name) => Ok(Some(name)),
        None if count < names.len() => Ok(Some(names[count])),
        None => Ok(None),
    }
}

// The lines of cells, and those of boxes behind them.
fn named_lines<'a>(
    alloc: Global,
    cells: &[&'a [u8]],
    boxes: &[&'a [u8]],
) -> Result<Vec<&'a [u8]>, OutOfMemory>
    ensures { IfOk result (λ lines. lines.items ≡ cells.now ++ boxes.now) }
{
    let mut lines = Vec::new(alloc);
    lines.extend_from_slice(cells)?;
    lines.extend_from_slice(boxes)?;
    Ok(lines)
}

/// The first name that no cell, box or instance can have, or that came before; of cells and boxes lines are given, of
/// instances their names.
pub(crate) fn find_barred_name<'a>(
    alloc: Global,
    cells: &[&'a [u8]],
    boxes: &[&'a [u8]],
    cuts: &[&'a [u8]],
) -> Result<Option<&'a [u8]>, OutOfMemory>
    ensures { IfOk result (λ found. bytes_of found
        ≡ or_else (barred_after [] (map name_in (rows_of cells.now ++ rows_of boxes.now))) (rules.barred_cut [] (texts cuts.now))) }
{
    let lines = named_lines(alloc, cells, boxes)?;
    match find_barred(alloc, lines.as_slice())? {
        Some(name) => Ok(Some(name)),
        None => find_barred_cut(alloc, cuts),
    }
}
