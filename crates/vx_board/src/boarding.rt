ghost use Rattle.std.specs.Prelude.{◌≡◌, ◌≤◌, ◌∷◌, ◌++◌, [], true, false, IfOk, is_ok, length, map};
ghost use Rattle.std.specs.Option.{ForSome};
ghost use Rattle.vx_election_model.specs.Valid.{IsValid};
ghost use Rattle.vx_command.specs.Asking.{Asks};
ghost use Rattle.vx_command.specs.Devices.{LeavesDevices, writes_nothing};
ghost use Rattle.vx_command.specs.Done.{IsDone};
ghost use Rattle.vx_words.specs.Samples.{IsSeed, seed_bytes};
ghost use Rattle.vx_board.specs.Ballots.{ballot_of};
ghost use Rattle.vx_board.specs.Data.{board_text, page_text};
ghost use Rattle.vx_board.specs.Outcome.{board_outcome};

use crate::data::push_data;
use crate::page::{push_head, push_tail};
use std::alloc::Global;
use vx_account::{Account, give_account};
use vx_base::{Bytes, OutOfMemory};
use vx_center::{Center, ExportSheet, drop_rows};
use vx_command::Halt;
use vx_cvr::report_rows;
use vx_election_model::Election;
use vx_io::{Inputs, Keeper, Sink};
use vx_results::rows_fit;
use vx_words::sample_seed;

/// The bytes of a seed's word.
fn bytes_of(seed: &str) -> [u8; 32]
    requires { IsSeed seed.now (seed_bytes seed.now) }
    ensures { result ≡ seed_bytes seed.now }
{
    match sample_seed(seed) {
        Some(bytes) => bytes,
        None => unreachable!(),
    }
}

/// What ballots are drawn by: a seed, as its word and as its bytes, and how many are drawn.
#[derive(Drop)]
struct Drawing<'w> {
    word: &'w str,
    seed: [u8; 32],
    size: u32,
    ghost is_seed: { seed ≡ seed_bytes word.now },
}

/// The page of rows.
#[tactic(auto, unfolding(crate::specs::Data::page_text))]
fn page_of(
    alloc: Global,
    election: &Election,
    rows: &[ExportSheet],
    word: &str,
    seed: [u8; 32],
    size: u32,
) -> Result<Bytes, OutOfMemory>
    requires valid { IsValid election.now }
    requires few { length rows.now ≤ 1000000 }
    requires seed { seed ≡ seed_bytes word.now }
    ensures { IfOk result (λ text. text
        ≡ page_text election.now (map ballot_of rows.now) word.now size) }
{
    let mut text = Bytes::new(alloc);
    push_head(&mut text)?;
    push_data(alloc, &mut text, election, rows, word, seed, size)?;
    push_tail(&mut text)?;
    Ok(text)
}

/// The page of a journal. The machine's rows go once it is made of them.
fn journal_page(
    alloc: Global,
    election: &Election,
    center: &Center<'_>,
    word: &str,
    seed: [u8; 32],
    size: u32,
) -> Result<Bytes, OutOfMemory>
    requires valid { IsValid election.now }
    requires same { center.now.election ≡ election.now }
    requires seed { seed ≡ seed_bytes word.now }
    ensures { IfOk result (λ text. text
        ≡ board_text election.now center.now.events word.now size) }
{
    let _kept = center.events();
    rows_fit();
    let rows = report_rows(alloc, election, center)?;
    let made = page_of(alloc, election, rows.as_slice(), word, seed, size);
    drop_rows(rows);
    made
}

impl Account for Drawing<'_> {
    ghost use Rattle.vx_board.specs.Data.{board_text};

    ghost says = { λ drawing election kept. board_text election kept drawing.word.now drawing.size };

    fn text(
        &self,
        alloc: Global,
        election: &Election,
        center: &Center<'_>,
    ) -> Result<Bytes, OutOfMemory> {
        journal_page(alloc, election, center, self.word, self.seed, self.size)
    }
}

/// Does the command `board`: takes the election under its name, which is word 1, reads its journal, and writes the
/// page for those who hold the paper: a line for each ballot that the first `size` words of the generator with the
/// seed draw of the records, in the order of boxes, with nothing of its marks. The seed is given as its word, 64
/// hexadecimal digits in lower case.
pub fn board<I: Inputs, S: Sink, K: Keeper>(
    alloc: Global,
    election: &str,
    seed: &str,
    size: u32,
    inputs: &mut I,
    out: &mut S,
    keeper: &mut K,
) -> Result<(), Halt>
    requires { IsSeed seed.now (seed_bytes seed.now) }
    ensures done { ForSome (I.held inputs.old) (λ files. ForSome (K.held keeper.old) (λ records.
        IsDone (board_outcome election.now seed.now size files records)
        (S.taken out.old) (S.taken out.new) (K.held keeper.old) (K.held keeper.new) result)) }
    ensures nothing_written { writes_nothing false result ≡ true → S.taken out.new ≡ S.taken out.old }
    ensures held { K.held keeper.new ≡ K.held keeper.old }
    ensures devices { LeavesDevices I.Inputs S.Sink K.Keeper inputs.old inputs.new out.old out.new
        keeper.old keeper.new result }
    ensures asked { Asks I.Inputs (election.now ∷ []) inputs.old inputs.new (is_ok result) }
{
    let drawing = Drawing {
        word: seed,
        seed: bytes_of(seed),
        size,
    };
    give_account(alloc, &drawing, election, inputs, out, keeper)
}
