ghost use Rattle.std.specs.Prelude.{◌≡◌, ◌≢◌, ◌↔◌, ◌∷◌, [], true, false, List, ℕ, Ok, Some, is_ok};
ghost use Rattle.vx_io.specs.Outside.{Files};
ghost use Rattle.vx_command.specs.Asking.{Asks};
ghost use Rattle.vx_command.specs.Devices.{LeavesDevices, writes_nothing};
ghost use Rattle.vx_command.specs.Done.{IsDone};
ghost use Rattle.vx_command.specs.Status.{answer_of};
ghost use Rattle.vx_command_check.specs.Margin.{CheckSaysWhatFits};
ghost use Rattle.vx_command_count.specs.Margin.{CountKeepsWhatFits};
ghost use Rattle.vx_command_count.specs.Outcome.{count_outcome};
ghost use Rattle.vx_command_export.specs.Laws.{ExportWritesWhatWasKept};
ghost use Rattle.vx_command_queue.specs.Laws.{QueueWritesWhatWaits};
ghost use Rattle.vx_command_read.specs.Margin.{ReadTellsWhatFits};
ghost use Rattle.vx_election_model.specs.declared.election.Election.{Election};
ghost use Rattle.vx_events.specs.declared.event.Event.{Event};
ghost use Rattle.vx_journal.specs.Replay.{replay_of};
ghost use Rattle.vx_words.specs.declared.command.Command.{Command as CommandOf};
ghost use Rattle.vx_words.specs.Words.{IsSound, Spells};
ghost use Rattle.vx_app.specs.Outcome.{appends, inputs_of, outcome_of, takes_first, uses_keeper};
ghost use Rattle.vx_app.specs.Counting.{IsCount};
ghost use Rattle.vx_app.specs.Journals.{HoldsMore, IsFor, IsNamed, IsRunOver};
ghost use Rattle.vx_app.specs.Runs.{NoRun, SpellsRun, is_run};

use crate::centering::is_center;
use std::alloc::Global;
use std::thread::Threads;
use vx_board::board;
use vx_command::{Halt, Status, acts_in_order, asks_in_order, status_of};
use vx_command_cards::cards;
use vx_command_center::center_keeps_journals;
use vx_command_check::{certified_pages_say_what_fits, check};
use vx_command_count::{count, count_keeps_journals, fitting_sheets_are_kept};
use vx_command_decide::{decide, decide_keeps_journals};
use vx_command_demo::demo;
use vx_command_desk::desk;
use vx_command_export::{export, exports_write_what_was_kept};
use vx_command_print::{Ballot, print};
use vx_command_queue::{queue, queues_write_what_waits};
use vx_command_read::{fitting_scans_are_told, read};
use vx_command_try::try_sheets;
use vx_io::{Inputs, Keeper, Sink, Words};
use vx_journal::{fronts_are_journals, journals_stay};
use vx_results::{results, summary};
use vx_sampling::{risk, sample};
use vx_words::{Command, UsageFault, parse, words_spell_one_command};
use vx_workers::{Gate, OpenGate};

/// Lets a command go.
fn drop_command(_command: Command) {}

/// Does a command; the workers of `count` go through the gate.
fn obey<R: Threads + Sync, I: Inputs, S: Sink, K: Keeper, G: Gate>(
    rt: &R,
    alloc: Global,
    command: &Command,
    inputs: &mut I,
    out: &mut S,
    keeper: &mut K,
    gate: &G,
) -> Result<(), Halt>
    requires sound { (device : List ℕ) × IsSound device command.now }
    requires is_run { is_run command.now ≡ true }
    ensures done { (files : Files) → I.held inputs.old ≡ Some files →
        (records : List (List ℕ)) → (uses_keeper command.now ≡ true → K.held keeper.old ≡ Some records) →
        IsDone (outcome_of command.now files records)
        (S.taken out.old) (S.taken out.new) (K.held keeper.old) (K.held keeper.new) result }
    ensures nothing_written { writes_nothing (takes_first command.now) result ≡ true →
        S.taken out.new ≡ S.taken out.old }
    ensures devices { LeavesDevices I.Inputs S.Sink K.Keeper inputs.old inputs.new out.old out.new
        keeper.old keeper.new result }
    ensures asked { Asks I.Inputs (inputs_of command.now) inputs.old inputs.new (is_ok result) }
    ensures keeper_held { appends command.now ≡ false → K.held keeper.new ≡ K.held keeper.old }
{
    asks_in_order::<I>();
    match command {
        Command::Print {
            election,
            card,
            kind,
            test,
        } => print(
            alloc,
            election.as_str(),
            Ballot {
                card: *card,
                kind: *kind,
                test: *test,
            },
            inputs,
            out,
        ),
        Command::Read { election, scans } => read(alloc, election.as_str(), scans, inputs, out),
        Command::Check {
            election,
            scans,
            readings,
        } => check(
            alloc,
            election.as_str(),
            scans.as_str(),
            readings.as_str(),
            inputs,
            out,
        ),
        Command::Count {
            election,
            batch,
            workers,
            scans,
        } => count(
            rt,
            alloc,
            election.as_str(),
            batch.as_str(),
            *workers,
            scans,
            inputs,
            out,
            keeper,
            gate,
        ),
        Command::Decide { election, script } => decide(
            alloc,
            election.as_str(),
            script.as_str(),
            inputs,
            out,
            keeper,
        ),
        Command::Queue { election } => queue(alloc, election.as_str(), inputs, out, keeper),
        Command::Export {
            election,
            moment,
            device,
        } => export(
            alloc,
            election.as_str(),
            moment.as_str(),
            device.as_str(),
            inputs,
            out,
            keeper,
        ),
        Command::Demo { seed, sheets } => demo(rt, alloc, *seed, *sheets, out),
        Command::Center { .. } => unreachable!(),
        Command::Try { election, scans } => {
            try_sheets(alloc, election.as_str(), scans, inputs, out)
        }
        Command::Cards { election } => cards(alloc, election.as_str(), inputs, out),
        Command::Results { election } => results(alloc, election.as_str(), inputs, out, keeper),
        Command::Sample {
            election,
            seed,
            size,
            hand,
        } => sample(
            alloc,
            election.as_str(),
            seed.as_str(),
            *size,
            hand.as_str(),
            inputs,
            out,
            keeper,
        ),
        Command::Desk {
            election,
            batch,
            scans,
        } => desk(
            alloc,
            election.as_str(),
            batch.as_str(),
            scans,
            inputs,
            out,
            keeper,
        ),
        Command::Summary { election } => summary(alloc, election.as_str(), inputs, out, keeper),
        Command::Board {
            election,
            seed,
            size,
        } => board(
            alloc,
            election.as_str(),
            seed.as_str(),
            *size,
            inputs,
            out,
            keeper,
        ),
        Command::Risk {
            election,
            seed,
            size,
            hand,
            limit,
        } => risk(
            alloc,
            election.as_str(),
            seed.as_str(),
            *size,
            hand.as_str(),
            *limit,
            inputs,
            out,
            keeper,
        ),
    }
}

/// Does the command that the words spell, unless it is `center`; the workers of `count` go through the gate.
fn run_words<R: Threads + Sync, I: Inputs, S: Sink, K: Keeper, G: Gate>(
    rt: &R,
    alloc: Global,
    words: &Words,
    inputs: &mut I,
    out: &mut S,
    keeper: &mut K,
    gate: &G,
) -> Status
    ensures usage { (result ≡ Status.Usage) ↔ NoRun words.now }
    ensures done { (files : Files) → I.held inputs.old ≡ Some files →
        (command : CommandOf) → SpellsRun words.now command →
        (records : List (List ℕ)) → (uses_keeper command ≡ true → K.held keeper.old ≡ Some records) →
        IsDone (outcome_of command files records)
        (S.taken out.old) (S.taken out.new) (K.held keeper.old) (K.held keeper.new) (answer_of result) }
    // What halts the command before its first text comes before anything is written.
    ensures nothing_written { (command : CommandOf) → SpellsRun words.now command →
        writes_nothing (takes_first command) (answer_of result) ≡ true →
        S.taken out.new ≡ S.taken out.old }
    ensures usage_writes_nothing { result ≡ Status.Usage → S.taken out.new ≡ S.taken out.old }
    ensures usage_keeps_all { result ≡ Status.Usage → K.held keeper.new ≡ K.held keeper.old }
    ensures devices { LeavesDevices I.Inputs S.Sink K.Keeper inputs.old inputs.new out.old out.new
        keeper.old keeper.new (answer_of result) }
    ensures asked { (command : CommandOf) → SpellsRun words.now command →
        Asks I.Inputs (inputs_of command) inputs.old inputs.new (is_ok (answer_of result)) }
    ensures usage_asks_nothing { result ≡ Status.Usage → Asks I.Inputs [] inputs.old inputs.new true }
    ensures keeper_held { (command : CommandOf) → SpellsRun words.now command →
        appends command ≡ false → K.held keeper.new ≡ K.held keeper.old }
{
    acts_in_order();
    asks_in_order::<I>();
    words_spell_one_command();
    if is_center(words) {
        return Status::Usage;
    }
    match parse(alloc, words) {
        Err(UsageFault::OutOfMemory) => Status::NoMemory,
        Err(UsageFault::Usage) => Status::Usage,
        Ok(command) => {
            let done = obey(rt, alloc, &command, inputs, out, keeper, gate);
            drop_command(command);
            status_of(done)
        }
    }
}

/// Does a command but `center`, whole: reads its words, takes its inputs, writes what it writes and keeps
/// what it keeps. The words of `center` are Usage here: `run_center` does them.
///
/// Where the inputs tell what they hold, and the keeper if the command uses it, the acts of the
/// command's outcome are done in order: all of them, and the status is the outcome's; or up to one at
/// which a device failed, with that device's fault as the status, or before which memory ran out. A
/// device's count of faults rises where the status is its fault, and stands still otherwise. What `read`
/// writes tells each image that fits a printed page with some marks as that page with those marks, and
/// readings that `check` certifies of such an image say so; of two such images of the facing pages of a
/// card `count` keeps the sheet with those marks. A journal of the command's election stays one,
/// and loses no event that it kept. What `export` writes is the report of exactly the events that the
/// journal keeps, and what `queue` writes a line for each of their contests that waits.
pub fn run<R: Threads + Sync, I: Inputs, S: Sink, K: Keeper>(
    rt: &R,
    alloc: Global,
    words: &Words,
    inputs: &mut I,
    out: &mut S,
    keeper: &mut K,
) -> Status
    ensures usage { (result ≡ Status.Usage) ↔ NoRun words.now }
    ensures done { (files : Files) → I.held inputs.old ≡ Some files →
        (command : CommandOf) → SpellsRun words.now command →
        (records : List (List ℕ)) → (uses_keeper command ≡ true → K.held keeper.old ≡ Some records) →
        IsDone (outcome_of command files records)
        (S.taken out.old) (S.taken out.new) (K.held keeper.old) (K.held keeper.new) (answer_of result) }
    // What halts the command before its first text comes before anything is written.
    ensures nothing_written { (command : CommandOf) → SpellsRun words.now command →
        writes_nothing (takes_first command) (answer_of result) ≡ true →
        S.taken out.new ≡ S.taken out.old }
    ensures usage_writes_nothing { result ≡ Status.Usage → S.taken out.new ≡ S.taken out.old }
    ensures usage_keeps_all { result ≡ Status.Usage → K.held keeper.new ≡ K.held keeper.old }
    ensures devices { LeavesDevices I.Inputs S.Sink K.Keeper inputs.old inputs.new out.old out.new
        keeper.old keeper.new (answer_of result) }
    // The inputs are asked for those that the command takes, in order, each once: for its size, and then for its
    // bytes from the front. They are asked for nothing else.
    ensures asked { (command : CommandOf) → SpellsRun words.now command →
        Asks I.Inputs (inputs_of command) inputs.old inputs.new (is_ok (answer_of result)) }
    ensures usage_asks_nothing { result ≡ Status.Usage → Asks I.Inputs [] inputs.old inputs.new true }
    // A command that appends nothing leaves what the keeper holds.
    ensures keeper_held { (command : CommandOf) → SpellsRun words.now command →
        appends command ≡ false → K.held keeper.new ≡ K.held keeper.old }
    // Each image of the scans that fits a printed page of the election with some marks, as it lies or
    // turned, is told as that page with those marks.
    ensures margin { (files : Files) → I.held inputs.old ≡ Some files →
        (election : List ℕ) (scans : List (List ℕ)) → Spells words.now (Command.Read election scans) →
        ReadTellsWhatFits election scans files (S.taken out.old) (S.taken out.new) (answer_of result) }
    // Where `check` writes `certified` for an image that fits a printed page with some marks, as it lies
    // or turned, the readings say that page of it, with those marks.
    ensures certified { (files : Files) → I.held inputs.old ≡ Some files →
        (election scans readings : List ℕ) → Spells words.now (Command.Check election scans readings) →
        CheckSaysWhatFits election scans readings files
        (S.taken out.old) (S.taken out.new) (answer_of result) }
    // Of each two images of a count that fit the front and the back of a card with some marks, as they lie or
    // turned, in either order, the record of that sheet with those marks is kept, where its key is new.
    ensures margin_of_count { (files : Files) → I.held inputs.old ≡ Some files →
        (election batch : List ℕ) (workers : ℕ) (scans : List (List ℕ)) →
        Spells words.now (Command.Count election batch workers scans) →
        (records : List (List ℕ)) → K.held keeper.old ≡ Some records →
        CountKeepsWhatFits election batch scans files records
        (K.held keeper.old) (K.held keeper.new) (answer_of result) }
    // Whatever the status, a journal of the command's election stays one, which keeps the events that it kept,
    // and perhaps more behind them.
    ensures journal_kept { (files : Files) → I.held inputs.old ≡ Some files →
        (command : CommandOf) → SpellsRun words.now command →
        (election : Election) → IsFor command files election →
        (records : List (List ℕ)) → K.held keeper.old ≡ Some records →
        (events : List Event) → replay_of election records ≡ Ok events →
        HoldsMore election events (K.held keeper.new) }
    // So the call is a run, of which the laws on lists of runs speak.
    ensures a_run { (files : Files) → I.held inputs.old ≡ Some files →
        (command : CommandOf) → SpellsRun words.now command →
        (election : Election) → IsFor command files election →
        (records : List (List ℕ)) → K.held keeper.old ≡ Some records →
        IsRunOver election records words.now command files
        (S.taken out.old) (S.taken out.new) (K.held keeper.new) (answer_of result) }
    // An `export` that ends well has written the report of exactly the kept events: their sheets' marks as
    // they were read, with the last decisions applied, without any contest that has a reason and no decision.
    ensures exported { (files : Files) → I.held inputs.old ≡ Some files →
        (election moment device : List ℕ) → Spells words.now (Command.Export election moment device) →
        (records : List (List ℕ)) → K.held keeper.old ≡ Some records →
        ExportWritesWhatWasKept election moment device files records
        (S.taken out.old) (S.taken out.new) (answer_of result) }
    // A `queue` that ends well has written a line for each contest of the kept events that waits, in order, each
    // once, with its enabled reasons and who holds its sheet, and none else.
    ensures queued { (files : Files) → I.held inputs.old ≡ Some files →
        (election : List ℕ) → Spells words.now (Command.Queue election) →
        (records : List (List ℕ)) → K.held keeper.old ≡ Some records →
        QueueWritesWhatWaits election files records (S.taken out.old) (S.taken out.new) (answer_of result) }
{
    fitting_scans_are_told();
    certified_pages_say_what_fits();
    fitting_sheets_are_kept();
    count_keeps_journals();
    decide_keeps_journals();
    center_keeps_journals();
    journals_stay();
    fronts_are_journals();
    exports_write_what_was_kept();
    queues_write_what_waits();
    run_words(rt, alloc, words, inputs, out, keeper, &OpenGate)
}

/// Does the command `count`, whole, as `run` does, but has its workers go through a gate: before each
/// image a worker asks it. Nothing that this call answers, writes or keeps depends on the gate or on
/// the number of workers; a test can see by a gate which worker comes when.
pub fn run_count<R: Threads + Sync, I: Inputs, S: Sink, K: Keeper, G: Gate>(
    rt: &R,
    alloc: Global,
    words: &Words,
    inputs: &mut I,
    out: &mut S,
    keeper: &mut K,
    gate: &G,
) -> Status
    requires { IsCount words.now }
    ensures no_usage { result ≢ Status.Usage }
    ensures done { (files : Files) → I.held inputs.old ≡ Some files →
        (records : List (List ℕ)) → K.held keeper.old ≡ Some records →
        (election batch : List ℕ) (workers : ℕ) (scans : List (List ℕ)) →
        Spells words.now (Command.Count election batch workers scans) →
        IsDone (count_outcome election batch scans files records)
        (S.taken out.old) (S.taken out.new) (K.held keeper.old) (K.held keeper.new) (answer_of result) }
    // What halts the command before its first text comes before anything is written.
    ensures nothing_written { writes_nothing false (answer_of result) ≡ true →
        S.taken out.new ≡ S.taken out.old }
    ensures devices { LeavesDevices I.Inputs S.Sink K.Keeper inputs.old inputs.new out.old out.new
        keeper.old keeper.new (answer_of result) }
    ensures asked { (election batch : List ℕ) (workers : ℕ) (scans : List (List ℕ)) →
        Spells words.now (Command.Count election batch workers scans) →
        Asks I.Inputs (election ∷ scans) inputs.old inputs.new (is_ok (answer_of result)) }
    // Of each two images that fit the front and the back of a card with some marks, as they lie or turned, in
    // either order, the record of that sheet with those marks is kept, where its key is new.
    ensures margin_of_count { (files : Files) → I.held inputs.old ≡ Some files →
        (election batch : List ℕ) (workers : ℕ) (scans : List (List ℕ)) →
        Spells words.now (Command.Count election batch workers scans) →
        (records : List (List ℕ)) → K.held keeper.old ≡ Some records →
        CountKeepsWhatFits election batch scans files records
        (K.held keeper.old) (K.held keeper.new) (answer_of result) }
    // Whatever the status, a journal of the election stays one, which keeps the events that it kept, and perhaps
    // more behind them.
    ensures journal_kept { (files : Files) → I.held inputs.old ≡ Some files →
        (name batch : List ℕ) (workers : ℕ) (scans : List (List ℕ)) →
        Spells words.now (Command.Count name batch workers scans) →
        (election : Election) → IsNamed name files election →
        (records : List (List ℕ)) → K.held keeper.old ≡ Some records →
        (events : List Event) → replay_of election records ≡ Ok events →
        HoldsMore election events (K.held keeper.new) }
    ensures a_run { (files : Files) → I.held inputs.old ≡ Some files →
        (name batch : List ℕ) (workers : ℕ) (scans : List (List ℕ)) →
        Spells words.now (Command.Count name batch workers scans) →
        (election : Election) → IsNamed name files election →
        (records : List (List ℕ)) → K.held keeper.old ≡ Some records →
        IsRunOver election records words.now (Command.Count name batch workers scans) files
        (S.taken out.old) (S.taken out.new) (K.held keeper.new) (answer_of result) }
{
    fitting_sheets_are_kept();
    count_keeps_journals();
    decide_keeps_journals();
    center_keeps_journals();
    journals_stay();
    fronts_are_journals();
    run_words(rt, alloc, words, inputs, out, keeper, gate)
}
