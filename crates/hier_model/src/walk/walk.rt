ghost use Rattle.std.specs.Prelude.{◌≡◌, ℕ, List, [], ◌∷◌, ◌++◌, length, IfOk, OnOk};
ghost use Rattle.hier_model.specs.Visits.{opened_by};
ghost use Rattle.hier_model.specs.Found.{pair_of};

use crate::walk::modules::ModuleTable;
use std::alloc::Global;
use texts::OutOfMemory;
use verilog_tree::{Instance, Item, Module};

/// What comes next in flat order.
#[derive(Clone, Copy)]
pub enum Turn<'a> {
    /// An item that stays.
    Keeps(&'a Item),
    /// An instance of a module, before the module's items.
    Opens(&'a Instance, &'a Module),
    /// An instance of a module, after the module's items.
    Closes(&'a Instance, &'a Module),
}

/// A turn, in the module that stands at the first so many names of the path.
#[derive(Clone, Copy)]
pub struct Step<'a> {
    pub depth: usize,
    pub within: &'a Module,
    pub turn: Turn<'a>,
}

/// An instance, and the module that it stands in.
#[derive(Clone, Copy)]
pub struct Opened<'a> {
    pub instance: &'a Instance,
    pub parent: &'a Module,
}

/// A module whose items are gone through, and those that are left.
#[derive(Clone, Copy)]
pub struct Frame<'a> {
    pub opened: Option<Opened<'a>>,
    pub within: &'a Module,
    pub left: &'a [Item],
}

/// Goes through the hierarchy of a module.
#[derive(Drop)]
pub struct Walk<'a> {
    pub modules: &'a ModuleTable<'a>,
    pub path: Vec<&'a [u8]>,
    pub frames: Vec<Frame<'a>>,
}

impl<'a> Walk<'a> {
    ghost use Rattle.hier_model.specs.Visits.{visits};
    ghost use Rattle.hier_model.specs.Walks.{Begins, Goes, GoesFrom, Walks};

    /// A walk that stands before the first item of a module.
    pub fn new(
        alloc: Global,
        modules: &'a ModuleTable<'a>,
        top: &'a Module,
    ) -> Result<Walk<'a>, OutOfMemory>
        ensures { IfOk result (λ w. Begins modules.now top.now w) }
    {
        let mut frames = Vec::new(alloc);
        frames.push(Frame {
            opened: None,
            within: top,
            left: top.items.as_slice(),
        })?;
        Ok(Walk {
            modules,
            path: Vec::new(alloc),
            frames,
        })
    }

    // What comes behind the items of a frame, which was the last: its module closes, if an instance opened it.
    fn close(&mut self, frame: Frame<'a>) -> Option<Step<'a>>
        requires { length frame.left.now ≡ 0 }
        ensures goes { GoesFrom self.old frame.entry self.new result }
        ensures same { self.new.modules.now ≡ self.old.modules.now }
    {
        let Some(opened) = frame.opened else {
            return None;
        };
        self.path.pop();
        Some(Step {
            depth: self.path.len(),
            within: opened.parent,
            turn: Turn::Closes(opened.instance, frame.within),
        })
    }

    /// What comes next; nothing at the end.
    pub fn next(&mut self) -> Result<Option<Step<'a>>, OutOfMemory>
        ensures goes { IfOk result (λ step. (levels : ℕ) → Walks levels self.old → Goes levels self.old self.new step) }
        ensures same { self.new.modules.now ≡ self.old.modules.now }
    {
        let Some(frame) = self.frames.pop() else {
            return Ok(None);
        };
        let Some((item, left)) = frame.left.split_first() else {
            return Ok(self.close(frame));
        };
        let depth = self.path.len();
        self.frames.push(Frame { left, ..frame })?;
        let Some((instance, child)) = open(self.modules, item) else {
            return Ok(Some(Step {
                depth,
                within: frame.within,
                turn: Turn::Keeps(item),
            }));
        };
        self.path.push(instance.name.as_bytes())?;
        let parent = frame.within;
        self.frames.push(Frame {
            opened: Some(Opened { instance, parent }),
            within: child,
            left: child.items.as_slice(),
        })?;
        Ok(Some(Step {
            depth,
            within: parent,
            turn: Turn::Opens(instance, child),
        }))
    }
}

// The instance of a module that an item is, with the module.
fn open<'a>(modules: &'a ModuleTable<'a>, item: &'a Item) -> Option<(&'a Instance, &'a Module)>
    ensures { pair_of result ≡ opened_by modules.now item.now }
{
    let Item::Instance(instance) = item else {
        return None;
    };
    let module = modules.find(instance.cell.as_bytes())?;
    Some((instance, module))
}
