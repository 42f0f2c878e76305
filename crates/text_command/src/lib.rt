// The commands that make one text of another: `canon`, `showbsdl`, `statusbsdl`, `flatten`.
// IEEE Std 1364-2001; IEEE Std 1149.1-2001, the annex on BSDL; canonical texts are own.
#![tactic(auto)]

pub mod convert;
pub mod extended;
pub mod flatten;
