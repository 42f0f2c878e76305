ghost use Rattle.hier_laws.specs.SolutionsLaws.{EntriesMeetAsCells, EntriesOwnBits, PlacesResolve, SettledCellsMeet, SettledMeets, SettledWhereSolved, SolvedCellsMeet, StaysOwnBits};

/// A law: an entry of a hierarchy meets its equation exactly where its cell in the flat netlist does.
pub fn entries_meet_as_cells()
    ensures { EntriesMeetAsCells }
{}

/// A law: in a settled valuation of the flat netlist each cell meets its equation.
pub fn settled_cells_meet()
    ensures { SettledCellsMeet }
{}

/// A law: a bit's net in the flat module has the bit's number at its place, behind the bits of the places before.
pub fn places_resolve()
    ensures { PlacesResolve }
{}

/// A law: a settled valuation of the flat netlist, read at the places of the hierarchy, meets each of its equations.
pub fn settled_meets()
    ensures { SettledMeets }
{}

/// A law: where the equations of the hierarchy are met, the cells of the flat netlist meet theirs.
pub fn solved_cells_meet()
    ensures { SolvedCellsMeet }
{}

/// A law: the settled valuations of the flat netlist are those that solve the hierarchy.
pub fn settled_where_solved()
    ensures { SettledWhereSolved }
{}

/// A law: each bit that an item names is one of its own module, where linking and the flat names are
/// without that fault.
pub fn stays_own_bits()
    ensures { StaysOwnBits }
{}

/// A law: so is each bit that a link joins, where no link is at fault.
pub fn entries_own_bits()
    ensures { EntriesOwnBits }
{}
