ghost use Rattle.std.specs.Prelude.{ℕ, List};
ghost use Rattle.verilog_tree.specs.declared.tree.Module.{Module};
ghost use Rattle.verilog_tree.specs.Canonical.{canonical};
ghost use Rattle.verilog_tree.specs.IsTree.{IsTree};
ghost use Rattle.verilog_tree.specs.Texts.{SpellsText};

/// A law: each tree that keeps the conditions is spelled by its canonical text.
pub fn canonical_texts_spell_their_trees()
    ensures { (tree : Module) → IsTree tree → SpellsText (canonical tree) tree }
{}
