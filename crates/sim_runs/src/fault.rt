/// Why a script wasn't played to its end.
#[derive(Clone, Copy, Drop)]
pub enum PlayFault {
    /// Nothing was given to the sink.
    OutOfMemory,
    /// The sink took a front of the text.
    WriteFault,
}
