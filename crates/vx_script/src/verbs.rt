/// What a line asks for.
#[derive(Clone, Copy, Debug, PartialEq, Eq)]
pub(crate) enum Verb {
    Claim,
    Release,
    Select,
    Overvote,
    Accept,
    Name,
}
