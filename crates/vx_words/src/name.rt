//! The table of the commands: their names, and how many words they have.

ghost use Rattle.std.specs.Prelude.{◌≡◌, find};
ghost use Rattle.std.specs.Str.{bytes_eq};
ghost use Rattle.vx_words.specs.Names.{name_in as name_in_word, name_word, row_of};

/// A command, by its name. A further one is a variant here, its place in `NAMES` and its row in `row_in_table`,
/// and the last two in `specs/Names.antt`.
#[derive(Clone, Copy)]
pub enum Name {
    Print,
    Read,
    Check,
    Count,
    Decide,
    Queue,
    Export,
    Demo,
    Center,
    Try,
    Cards,
    Results,
    Sample,
    Desk,
    Summary,
    Board,
    Risk,
}

/// All commands, in the table's order.
pub const NAMES: [Name; 17] = [
    Name::Print,
    Name::Read,
    Name::Check,
    Name::Count,
    Name::Decide,
    Name::Queue,
    Name::Export,
    Name::Demo,
    Name::Center,
    Name::Try,
    Name::Cards,
    Name::Results,
    Name::Sample,
    Name::Desk,
    Name::Summary,
    Name::Board,
    Name::Risk,
];

/// A command's name, and how many words it has at least and at most, its name among them.
#[derive(Clone, Copy)]
pub struct Row {
    pub name: &'static str,
    pub least: u32,
    pub most: u32,
}

/// A row of the table.
fn named(name: &'static str, least: u32, most: u32) -> Row
    ensures name { result.name.now ≡ name.now }
    ensures least { result.least ≡ least }
    ensures most { result.most ≡ most }
{
    Row { name, least, most }
}

/// The table.
pub fn row_in_table(name: Name) -> Row
    ensures name { result.name.now ≡ (row_of name).name }
    ensures least { result.least ≡ (row_of name).least }
    ensures most { result.most ≡ (row_of name).most }
{
    match name {
        Name::Print => named("print", 4, 4),
        Name::Read => named("read", 3, 66),
        Name::Check => named("check", 4, 4),
        Name::Count => named("count", 5, 68),
        Name::Decide => named("decide", 3, 3),
        Name::Queue => named("queue", 2, 2),
        Name::Export => named("export", 4, 4),
        Name::Demo => named("demo", 3, 3),
        Name::Center => named("center", 5, 20),
        Name::Try => named("try", 3, 66),
        Name::Cards => named("cards", 2, 2),
        Name::Results => named("results", 2, 2),
        Name::Sample => named("sample", 5, 5),
        Name::Desk => named("desk", 4, 67),
        Name::Summary => named("summary", 2, 2),
        Name::Board => named("board", 4, 4),
        Name::Risk => named("risk", 6, 6),
    }
}

/// The command among some that a word names.
fn name_among(word: &str, among: &[Name]) -> Option<Name>
    ensures { result ≡ find (λ name. bytes_eq (name_word name) word.now) among.now }
{
    for name in among {
        if row_in_table(*name).name == word {
            return Some(*name);
        }
    }
    None
}

/// The command that a word names.
pub fn name_in(word: &str) -> Option<Name>
    ensures { result ≡ name_in_word word.now }
{
    name_among(word, &NAMES)
}
