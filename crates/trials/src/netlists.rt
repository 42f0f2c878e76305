// Trials of netlists with memory enough: in the room that was reserved, copied, and changed; and a flip-flop that
// toggles, as its netlist settles and in a run.

#[cfg(test)]
mod readers;
#[cfg(test)]
mod room;
#[cfg(test)]
mod toggled;
