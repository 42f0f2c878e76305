// A linked netlist with its test logic, as a function of both: specs/InsertedLaws.antt. No code.
// IEEE Std 1149.1-2001: test logic architecture; that the module's name stays is own.
