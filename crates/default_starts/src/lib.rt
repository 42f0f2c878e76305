// Event lines behind starts of the input bits of hidden ports. A hidden port is no pin: it stands for a port of a cell
// of which nothing else is known, and its input bits may be left unstarted.
// Contracts cite specs/Starts.antt (which starts are added), specs/OwnRules.antt (the rules where such a bit begins by
// itself) and specs/Words.antt (when the word of a hidden bit names it).
// Own: no chapter of a standard speaks of it.
//
// - `with_starts` puts in front of event lines a start for each input bit of a hidden port that no start among them
//   names, in the order of the ports and from the left, with the number 0: at 0 where the bit clocks, clears or presets,
//   else at x. A start that stands too late names its bit too, and so does another word for it. The other lines, their
//   numbers and the number behind them stay. It fails for want of memory alone.
// - That is all that it can answer (`starts_are_added_in_one_way`); where no port is hidden the lines stay as they are,
//   and the rules too (`nothing_hidden_changes_nothing`).
// - `starts_keep_the_rules`: no added line breaks a rule on events, and each other line breaks one in the new lines just
//   where it does by the rules in which hidden input bits that no start names count as started. So `resolve` of
//   scan_vectors refuses the new lines just where the lines themselves are illegal by those rules, with the number of
//   the same line, or of the line after the last: what a command tells of the new lines it tells of its text.
// - `starts_are_of_hidden_bits`: what is added are starts of hidden bits, unbroken by themselves, one for each that no
//   other line starts; so the lines of a program that starts no hidden bit stand behind starts of all of them.
// - What a command has to know for the last two: the linked netlist is well named and laid out (`netlist` and
//   `is_laid_out` tell it), no own scalar port has the word of a hidden vector's bit as its name (where boxes are opened
//   without fault none has), and no hidden port's name ends with a bracket (a box's port is a simple name).
// By the contract of `with_starts` and of its law functions.
#![tactic(auto)]

mod laws;
mod lines;
mod started;
mod starts;

pub use laws::{
    nothing_hidden_changes_nothing, starts_are_added_in_one_way, starts_are_of_hidden_bits,
    starts_keep_the_rules,
};
pub use lines::with_starts;
