/// Reads a text of one format, and writes its canonical text.
#[derive(Clone, Copy, PartialEq, Eq)]
pub enum Conversion {
    /// Netlists, by the command `canon`.
    Canon,
    /// BSDL texts, by the command `showbsdl`.
    ShowBsdl,
}
