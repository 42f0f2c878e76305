// The rule on the names of cells.
ghost use Rattle.std.specs.Prelude.{◌≡◌, ◌≤◌, [], length, map, IfOk};
ghost use Rattle.texts.specs.Repeated.{bytes_of, texts};
ghost use Rattle.cell_text.specs.Rules as rules;
ghost use Rattle.cell_text.specs.Reader.{rows_of, fit_count};

use crate::cells::is_cell_name;
use crate::words::name_in;
use cell_library::own_kind_of;
use std::alloc::Global;
use texts::OutOfMemory;
use texts::first_faults::first_repeated;

// The name can't be a cell's, or is one of the seven.
fn is_unfit(name: &[u8]) -> bool
    ensures { result ≡ rules.is_unfit name.now }
{
    !is_cell_name(name) || own_kind_of(name).is_some()
}

fn gather_names<'a>(alloc: Global, lines: &[&'a [u8]]) -> Result<Vec<&'a [u8]>, OutOfMemory>
    ensures { IfOk result (λ names. texts names.items ≡ map rules.name_in (rows_of lines.now)) }
{
    let mut names = Vec::new(alloc);
    for line in lines {
        names.push(name_in(*line))?;
    }
    Ok(names)
}

// How many names stand before the first that is unfit.
fn fit_count(names: &[&[u8]]) -> usize
    ensures count { result ≡ fit_count (texts names.now) }
    ensures within { result ≤ length names.now }
{
    let mut count = 0;
    while count < names.len() && !is_unfit(names[count]) {
        count += 1;
    }
    count
}

#[tactic(auto, using(crate::proofs::Barred::barred_again, crate::proofs::Barred::barred_unfit, crate::proofs::Barred::none_is_barred))]
fn barred<'a>(alloc: Global, names: &[&'a [u8]]) -> Result<Option<&'a [u8]>, OutOfMemory>
    ensures { IfOk result (λ found. bytes_of found ≡ rules.barred_after [] (texts names.now)) }
{
    let count = fit_count(names);
    match first_repeated(alloc, &names[..count])? {
        Some(name) => Ok(Some(name)),
        None if count < names.len() => Ok(Some(names[count])),
        None => Ok(None),
    }
}

/// The first name that is unfit or came before, where these are the lines of cells.
pub fn find_barred<'a>(alloc: Global, lines: &[&'a [u8]]) -> Result<Option<&'a [u8]>, OutOfMemory>
    ensures { IfOk result (λ found. bytes_of found
        ≡ rules.barred_after [] (map rules.name_in (rows_of lines.now))) }
{
    let names = gather_names(alloc, lines)?;
    barred(alloc, names.as_slice())
}
