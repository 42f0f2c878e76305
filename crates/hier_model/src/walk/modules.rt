// The modules of a text, and a table of them by name.
ghost use Rattle.std.specs.Prelude.{◌≡◌, IfOk};
ghost use Rattle.hier_model.specs.Visits.{module_named};
ghost use Rattle.hier_model.specs.WalkNames.{texts, module_names, module_place};
ghost use Rattle.hier_model.specs.Found.{found};

use indexmap::IndexMap;
use std::alloc::Global;
use std::marker::Model;
use texts::OutOfMemory;
use texts::first_faults::first_places;
use verilog_tree::Module;

/// The modules of a text, found by name. Of modules of one name the first is found.
#[derive(Drop)]
pub struct ModuleTable<'a> {
    modules: &'a [Module],
    places: IndexMap<&'a [u8], usize>,
}

impl<'a> Model for ModuleTable<'a> {
    ghost use Rattle.std.specs.Prelude.{List};
    ghost use Rattle.verilog_tree.specs.declared.tree.Module.{Module};
    ghost use Rattle.hier_model.specs.WalkNames.{FindsModules};

    ghost Value = { List Module };

    ghost view = { λ t. t.modules.now };

    ghost invariant = { λ t. FindsModules t.modules.now t.places.entries };
}

// The names of modules.
fn names_of<'a>(alloc: Global, modules: &'a [Module]) -> Result<Vec<&'a [u8]>, OutOfMemory>
    ensures { IfOk result (λ names. texts names.items ≡ module_names modules.now) }
{
    let mut names = Vec::new(alloc);
    for module in modules {
        names.push(module.name.as_bytes())?;
    }
    Ok(names)
}

impl<'a> ModuleTable<'a> {
    /// A table of the modules.
    pub fn of(alloc: Global, modules: &'a [Module]) -> Result<ModuleTable<'a>, OutOfMemory>
        ensures { IfOk result (λ table. table ≡ modules.now) }
    {
        let names = names_of(alloc, modules)?;
        let places = first_places(alloc, &names)?;
        Ok(ModuleTable { modules, places })
    }

    /// The modules.
    pub fn as_slice(&self) -> &'a [Module]
        ensures { result.now ≡ self.now }
    {
        self.modules
    }

    /// The place of the module of a name.
    pub fn place(&self, name: &[u8]) -> Option<usize>
        ensures { result ≡ module_place self.now name.now }
    {
        self.places.get(name).copied()
    }

    /// The module of a name.
    pub fn find(&self, name: &[u8]) -> Option<&'a Module>
        ensures { found result ≡ module_named self.now name.now }
    {
        match self.place(name) {
            None => None,
            Some(place) => Some(&self.modules[place]),
        }
    }
}
