/// What may be wrong with a printed text.
#[derive(Clone, Copy)]
pub(crate) enum Flaw {
    /// It has characters that are drawn as the hollow box.
    Hollow,
    /// It has characters, and each is drawn as a blank.
    Blank,
    /// Lines of it end within a word.
    Cut,
}
