// Laws on lists, options, tests and numbers that several crates need and the standard library lacks.
// Nothing runs here: the definitions stand in specs/, and the laws in proofs/, which other crates may import.
// No standard speaks of them; they are own.
#![tactic(auto)]
