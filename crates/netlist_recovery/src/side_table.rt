// The nets between the core and its boundary cells, found by their names.
ghost use Rattle.std.specs.Prelude.{◌≡◌, IfOk, map, position};
ghost use Rattle.std.specs.Option.{option_copied};
ghost use Rattle.std.specs.Str.{bytes_eq};
ghost use Rattle.texts.specs.Repeated.{texts};
ghost use Rattle.strip_model.specs.Core as model;

use crate::copies::copy_operand;
use indexmap::IndexMap;
use std::alloc::Global;
use std::marker::Model;
use strip_model::Side;
use texts::OutOfMemory;
use texts::first_faults::first_places;
use verilog_tree::Operand;

/// The nets between. Of nets of one name the first is found.
#[derive(Drop)]
pub struct SideTable<'a> {
    sides: &'a [Side],
    places: IndexMap<&'a [u8], usize>,
}

impl<'a> Model for SideTable<'a> {
    ghost use Rattle.std.specs.Prelude.{List};
    ghost use Rattle.strip_model.specs.declared.Side.{Side};
    ghost use Rattle.netlist_recovery.specs.Tables.{FindsSides};

    ghost Value = { List Side };

    ghost view = { λ t. t.sides.now };

    ghost invariant = { λ t. FindsSides t.sides.now t.places.entries };
}

fn side_names<'a>(alloc: Global, sides: &'a [Side]) -> Result<Vec<&'a [u8]>, OutOfMemory>
    ensures { IfOk result (λ names. texts names.items ≡ map (λ side. side.net) sides.now) }
{
    let mut names = Vec::new(alloc);
    for side in sides {
        names.push(side.net.as_bytes())?;
    }
    Ok(names)
}

impl<'a> SideTable<'a> {
    /// A table of the nets between.
    pub fn of(alloc: Global, sides: &'a [Side]) -> Result<SideTable<'a>, OutOfMemory>
        ensures { IfOk result (λ table. table ≡ sides.now) }
    {
        let names = side_names(alloc, sides)?;
        let places = first_places(alloc, &names)?;
        Ok(SideTable { sides, places })
    }

    fn position(&self, name: &[u8]) -> Option<usize>
        ensures { result ≡ position (λ side. bytes_eq name.now side.net) self.now }
    {
        self.places.get(name).copied()
    }

    // What the core had in the place of the net of a name.
    fn find(&self, name: &[u8]) -> Option<&Operand>
        ensures { option_copied result ≡ model.find_side self.now name.now }
    {
        match self.position(name) {
            None => None,
            Some(place) => Some(&self.sides[place].core),
        }
    }

    // What stands behind an operand, copied.
    fn behind(&self, alloc: Global, operand: &Operand) -> Result<Operand, OutOfMemory>
        ensures { IfOk result (λ behind. behind ≡ model.behind self.now operand.now) }
    {
        match operand {
            Operand::Bit(bit) => match bit.index {
                None => match self.find(bit.net.as_bytes()) {
                    Some(core) => copy_operand(alloc, core),
                    None => copy_operand(alloc, operand),
                },
                Some(_) => copy_operand(alloc, operand),
            },
            Operand::Const(_) => copy_operand(alloc, operand),
        }
    }

    /// What the core had in the place of an operand.
    pub fn core_operand(&self, alloc: Global, operand: &Operand) -> Result<Operand, OutOfMemory>
        ensures { IfOk result (λ core. core ≡ model.core_operand self.now operand.now) }
    {
        let once = self.behind(alloc, operand)?;
        self.behind(alloc, &once)
    }
}
