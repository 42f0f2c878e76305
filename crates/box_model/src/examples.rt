// Small modules opened and closed, by computation: nothing runs here.
ghost use Rattle.box_model.specs.Examples.{SynchroniserOpens, SynchroniserCloses, SynchroniserOrigins, GateOpens, AdderCloses, MemoryCloses, MemoryOpensAgain, MemoryIsInShape, MemoryCanClose, SourceComesBack};
ghost use Rattle.box_model.specs.Examples.{NoSuchFlop, UnknownPort, OutputAtConstant, LinkedTwice, MemoryIsClear, BitAtVector, OtherWidth, ConstantAtVector, OwnPortIsHidden, UndeclaredIsHidden, SourceIsClear};

/// A reset synchroniser whose second flip-flop is cut, a clock gate, a full adder, a memory behind boundary cells, and a
/// box whose joined output others read.
pub fn examples_open_and_close()
    ensures synchroniser_opens { SynchroniserOpens }
    ensures synchroniser_closes { SynchroniserCloses }
    ensures synchroniser_origins { SynchroniserOrigins }
    ensures gate_opens { GateOpens }
    ensures adder_closes { AdderCloses }
    ensures memory_closes { MemoryCloses }
    ensures memory_opens_again { MemoryOpensAgain }
    ensures memory_is_in_shape { MemoryIsInShape }
    ensures memory_can_close { MemoryCanClose }
    ensures source_comes_back { SourceComesBack }
{}

/// What is at fault in others, or isn't.
pub fn faults_of_examples()
    ensures no_such_flop { NoSuchFlop }
    ensures unknown_port { UnknownPort }
    ensures output_at_constant { OutputAtConstant }
    ensures linked_twice { LinkedTwice }
    ensures memory_is_clear { MemoryIsClear }
    ensures bit_at_vector { BitAtVector }
    ensures other_width { OtherWidth }
    ensures constant_at_vector { ConstantAtVector }
    ensures own_port_is_hidden { OwnPortIsHidden }
    ensures undeclared_is_hidden { UndeclaredIsHidden }
    ensures source_is_clear { SourceIsClear }
{}
