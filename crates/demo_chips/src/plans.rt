// Laws of the demonstration netlists and their plan: the plan is spelled by its text, and fits each of them.
// Contracts cite specs/PlansLaws.antt.
// IEEE Std 1149.1-2001: boundary-scan register; the netlists and the plan are own.
//
// - `demo_plan_is_spelled`: the canonical text of the plan spells it, and no other plan.
// - `demo_plan_fits`: in a link view of any of the netlists, where nothing is hidden, each pin line names a bit, and no
//   fault of fitting stands.
// - `demo_chips_are_counted`: it has `166 + 10 N` nets and 34 bits of ports, and the plan has 35 boundary cells
//   for it.
// - `demo_texts_are_short`: the canonical texts of the netlists and of the plan have at most 16,777,216 bytes.
// By the contract of its law functions.

mod laws;

pub use laws::{
    demo_chips_are_counted, demo_plan_fits, demo_plan_is_spelled, demo_texts_are_short,
};
