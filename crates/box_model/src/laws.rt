// Laws of opening and closing: nothing runs here.
ghost use Rattle.box_model.specs.Laws.{BoxlessOpens, BoxlessCloses, BoxlessStaysOrdered, BoxlessIsClear, ClosedIsBack, OpenedIsBack, OpenedIsInShape, ClosedIsClear, ClosedIsTree, OpenedIsTree, OpenedItemsAreCounted, OpenedNetsAreCounted, OriginsAreAsMany};

/// A law: without boxes and cuts nothing changes, and nothing is at fault.
pub fn boxless_changes_nothing()
    ensures opens { BoxlessOpens }
    ensures closes { BoxlessCloses }
    ensures ordered { BoxlessStaysOrdered }
    ensures clear { BoxlessIsClear }
{}

/// A law: where boxes are without fault and no port is joined, closing gives back what was opened, with the links of boxes
/// in the order of their ports.
pub fn closing_gives_back()
    ensures { ClosedIsBack }
{}

/// A law: opening gives back what was closed, where hidden ports stand together and no box is linked.
/// What is opened is such a module.
pub fn opening_gives_back()
    ensures back { OpenedIsBack }
    ensures shape { OpenedIsInShape }
{}

/// A law: the boxes of a closed module are without fault, where the module denotes a netlist and its hidden names are free.
pub fn closed_boxes_are_without_fault()
    ensures { ClosedIsClear }
{}

/// A law: a closed module is a tree that some text spells where the module is one; so is an opened one, where boxes are
/// without fault.
pub fn trees_stay_trees()
    ensures closed { ClosedIsTree }
    ensures opened { OpenedIsTree }
{}

/// A law: cells and nets of an opened module are as many as they were counted before it was made.
pub fn opened_modules_are_counted()
    ensures items { OpenedItemsAreCounted }
    ensures nets { OpenedNetsAreCounted }
{}

/// A law: each item of an opened module has the number of the item that it comes from.
pub fn each_item_has_an_origin()
    ensures { OriginsAreAsMany }
{}
