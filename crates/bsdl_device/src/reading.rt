// How BSDL files are read from their words: reading functions on lists, and the laws that tie them to the words
// of written files.
// The parser's contracts cite `file_at` and the laws of specs/.
// IEEE Std 1149.1-2001: the annex on BSDL.
//
// - `reads_each_file`: the words of a file are read as that file, with nothing left.
// - `reads_only_files`: what is read is a file, and the words are its own.
// - `spells_one_file`: a list of words spells one file at most.
// - `faults_spell_nothing`: where reading stops at a fault, the words spell no file.
// - `faults_at_fault_word`: where reading stops is the word of the fault: some file's words begin with the words
//   before it, and no file's with one word more.
// - `declarations_leave_no_more`: reading a declaration of ports goes forward.
// By the contract of its law functions.

pub mod laws;

pub use laws::{
    declarations_leave_no_more, faults_at_fault_word, faults_spell_nothing, reads_each_file,
    reads_only_files, spells_one_file,
};
