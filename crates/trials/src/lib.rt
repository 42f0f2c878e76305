// Tests of what no law says: calls that no command reaches, each once, with memory enough; and real files and standard
// output. Each trial is a test; what it wants was worked out by hand.
// Own: commands are tried by `worked_rows`.
#![tactic(auto)]

pub mod calls;
pub mod netlists;
