ghost use Rattle.hier_laws.specs.Trees.{FlatModulesKeepTheConditions};

/// A law: where no fault stands, the flat module keeps the conditions of a tree that can be spelled, as the modules do.
pub fn flat_modules_keep_the_conditions()
    ensures { FlatModulesKeepTheConditions }
{}
