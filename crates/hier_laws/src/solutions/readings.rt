ghost use Rattle.hier_laws.specs.Readings.{ReadingExists};

/// A law: each valuation of the flat module's nets can be read at (occurrence, net, bit), where no flat
/// name is at fault.
pub fn some_reading()
    ensures { ReadingExists }
{}
