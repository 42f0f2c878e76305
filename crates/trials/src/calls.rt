// Trials of calls with memory enough: texts that are cut or come back, the modules of a text, the test logic of a
// device at work, shelves and sinks in memory; and real files and standard output.

#[cfg(test)]
mod devices;
#[cfg(test)]
mod libraries;
#[cfg(test)]
mod outside;
#[cfg(test)]
mod plans;
#[cfg(test)]
mod remembered;
#[cfg(test)]
mod words;
