use vx_base::ListOf;
use vx_grid::Kind;
use vx_json::{Text, Texts};

/// What the words ask for.
#[derive(Drop)]
pub enum Command {
    /// Write the pages of a card, as ballots of a kind.
    Print {
        election: Text,
        /// The card's number in its election, from 0 to 1023.
        card: u32,
        kind: Kind,
        /// Whether they are test ballots.
        test: bool,
    },
    /// Write what each image of the scans is read as.
    Read {
        election: Text,
        scans: Texts,
    },
    /// Check readings as certificates of the scans.
    Check {
        election: Text,
        scans: Text,
        readings: Text,
    },
    /// Add the sheets of a batch to the journal, reading them by 1 to 64 workers.
    Count {
        election: Text,
        batch: Text,
        workers: u32,
        scans: Texts,
    },
    /// Apply the lines of a script.
    Decide {
        election: Text,
        script: Text,
    },
    /// List the contests that wait.
    Queue {
        election: Text,
    },
    /// Write the report of the count.
    Export {
        election: Text,
        /// `YYYY-MM-DDTHH:MM:SSZ`, as it was given.
        moment: Text,
        /// A UUID in lower case, with hyphens.
        device: Text,
    },
    /// Simulate, read and check sheets of the demo election.
    Demo {
        /// What all that is drawn is drawn from.
        seed: u64,
        /// How many sheets, from 1 to 1000.
        sheets: u32,
    },
    /// Do items side by side at one shared center, and write the report.
    Center {
        election: Text,
        /// `YYYY-MM-DDTHH:MM:SSZ`, as it was given.
        moment: Text,
        /// A UUID in lower case, with hyphens.
        device: Text,
        /// From 1 to 16.
        items: ItemWords,
    },
    /// Read the sheets of the scans, and keep nothing.
    Try {
        election: Text,
        scans: Texts,
    },
    /// List the cards, and what an office doesn't want to find on them.
    Cards {
        election: Text,
    },
    /// Write the totals of the count.
    Results {
        election: Text,
    },
    /// Compare records of the count that a seed draws with what hands read.
    Sample {
        election: Text,
        /// 64 hexadecimal digits in lower case, as it was given.
        seed: Text,
        /// How many words are drawn, from 1 to 10,000.
        size: u32,
        hand: Text,
    },
    /// Write a page that shows each contest of a batch that waits, with its picture from the scans.
    Desk {
        election: Text,
        batch: Text,
        scans: Texts,
    },
    /// Write every figure of the count: by precinct, by kind, by batch, and each written-in name.
    Summary {
        election: Text,
    },
    /// Write a page for the people who hold the paper: which ballots a seed draws, and each to read.
    Board {
        election: Text,
        /// 64 hexadecimal digits in lower case, as it was given.
        seed: Text,
        /// How many words are drawn, from 1 to 10,000.
        size: u32,
    },
    /// Bound the risk that a contest's outcome is wrong, by what hands read of the ballots that a seed draws.
    Risk {
        election: Text,
        /// 64 hexadecimal digits in lower case, as it was given.
        seed: Text,
        /// How many words are drawn, from 1 to 10,000.
        size: u32,
        hand: Text,
        /// The risk that is allowed, from 1 to 999 thousandths.
        limit: u32,
    },
}

/// An item of a count, as a word names it.
#[derive(Drop)]
pub enum ItemWord {
    /// A station's script, by its name: `script:NAME`.
    Script { name: Text },
    /// A scan, as a batch: `scan:BATCH:NAME`.
    Scan { batch: Text, name: Text },
}

/// Items, in order.
pub type ItemWords = ListOf<ItemWord>;
