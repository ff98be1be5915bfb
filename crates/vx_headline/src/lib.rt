//! The headline: what stands from the marks on the pages to the bytes that an export writes. There is no work here;
//! the contracts are laws.
//!
//! `specs/Counted.antt` says which sheets runs of the program counted, `specs/Exported.antt` what an export behind
//! those runs writes of them, and `specs/Undecided.antt` what it writes of their contests without a decision, in the
//! numbers of the text. `specs/Stacks.antt` has the premises once more, in other words: stacks of pictures, and runs of
//! them, which have all that the headline asks for. `specs/Day.antt` has a day of which it speaks: clean prints, an empty
//! journal, a `count` and an export. It rests on the laws of the crates below: a scan that fits its page is read as
//! it was marked (`vx_scan_model`, `vx_sheet`), `count` keeps what it read (`vx_command_count`), runs leave
//! journals (`vx_app`), and `export` writes what a journal keeps (`vx_command_export`, `vx_center`).
#![tactic(auto)]

mod laws;

pub use laws::{
    centers_count_prints, centers_count_stacks, ended_exports_are_exports, kept_sheets_were_added,
    marked_pages_are_exported, prints_are_counted, prints_are_exported, stacks_are_counted,
    stacks_are_recounted, undecided_contests_are_exported_as_marked, undecided_reasons_wait,
    untouched_contests_are_undecided,
};
