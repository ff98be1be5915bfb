//! The command `center`, whole.

ghost use Rattle.std.specs.Prelude.{◌≡◌, ◌↔◌, [], true, IsTrue, List, ℕ, Ok, Some, is_ok};
ghost use Rattle.vx_io.specs.Outside.{Files};
ghost use Rattle.vx_command.specs.Asking.{Asks};
ghost use Rattle.vx_command.specs.Devices.{LeavesDevices};
ghost use Rattle.vx_command.specs.Status.{answer_of};
ghost use Rattle.vx_command_center.specs.Asking.{AsksAsCenter};
ghost use Rattle.vx_command_center.specs.Laws.{ReportedWhatIsKept};
ghost use Rattle.vx_command_center.specs.Runs.{Centers, is_refusal};
ghost use Rattle.vx_election_model.specs.declared.election.Election.{Election};
ghost use Rattle.vx_events.specs.declared.event.Event.{Event};
ghost use Rattle.vx_journal.specs.Replay.{replay_of};
ghost use Rattle.vx_words.specs.declared.command.ItemWord.{ItemWord};
ghost use Rattle.vx_words.specs.Words.{Spells};
ghost use Rattle.vx_app.specs.Adding.{CenterAddsWhatFits};
ghost use Rattle.vx_app.specs.Journals.{HoldsMore, IsNamed, IsRunOver};
ghost use Rattle.vx_app.specs.Runs.{NamesCenter, NoCenter};

use crate::laws::fitting_sheets_are_in_their_items;
use std::alloc::Global;
use std::sync::Wait;
use std::thread::Threads;
use vx_command::{Status, acts_in_order, asks_in_order, status_of};
use vx_command_center::{
    center, center_keeps_journals, center_reports_what_is_kept, centers_may_not_begin,
};
use vx_command_count::count_keeps_journals;
use vx_command_decide::decide_keeps_journals;
use vx_io::{Inputs, Keeper, Sink, Words, questions_asked};
use vx_journal::{fronts_are_journals, journals_stay};
use vx_words::{Command, UsageFault, parse, words_spell_one_command};
use vx_workers::Gate;

/// Whether the first word names `center`. Such words are no other command.
pub fn is_center(words: &Words) -> bool
    ensures { IsTrue result ↔ NamesCenter words.now }
{
    words.count() > 0 && words.word(0) == "center"
}

/// Does the `center` that the words spell.
fn center_words<R: Threads + Wait + Sync, I: Inputs, S: Sink, K: Keeper, G: Gate>(
    rt: &R,
    alloc: Global,
    words: &Words,
    inputs: &mut I,
    out: &mut S,
    keeper: &mut K,
    gate: &G,
) -> Status
    ensures usage { (result ≡ Status.Usage) ↔ NoCenter words.now }
    ensures done { (files : Files) → I.held inputs.old ≡ Some files →
        (election moment device : List ℕ) (items : List ItemWord) →
        Spells words.now (Command.Center election moment device items) →
        (records : List (List ℕ)) → K.held keeper.old ≡ Some records →
        Centers election moment device items files records
        (S.taken out.old) (S.taken out.new) (K.held keeper.old) (K.held keeper.new) (answer_of result) }
    ensures nothing_written { is_refusal (answer_of result) ≡ true →
        S.taken out.new ≡ S.taken out.old }
    ensures nothing_kept { is_refusal (answer_of result) ≡ true →
        K.held keeper.new ≡ K.held keeper.old }
    ensures usage_writes_nothing { result ≡ Status.Usage → S.taken out.new ≡ S.taken out.old }
    ensures usage_keeps_all { result ≡ Status.Usage → K.held keeper.new ≡ K.held keeper.old }
    ensures devices { LeavesDevices I.Inputs S.Sink K.Keeper inputs.old inputs.new out.old out.new
        keeper.old keeper.new (answer_of result) }
    ensures asked { (election moment device : List ℕ) (items : List ItemWord) →
        Spells words.now (Command.Center election moment device items) →
        AsksAsCenter I.Inputs election items inputs.old inputs.new (is_ok (answer_of result)) }
    ensures usage_asks_nothing { result ≡ Status.Usage → Asks I.Inputs [] inputs.old inputs.new true }
{
    acts_in_order();
    asks_in_order::<I>();
    questions_asked();
    words_spell_one_command();
    centers_may_not_begin();
    if !is_center(words) {
        return Status::Usage;
    }
    match parse(alloc, words) {
        Err(UsageFault::OutOfMemory) => Status::NoMemory,
        Err(UsageFault::Usage) => Status::Usage,
        Ok(
            Command::Center {
                election,
                moment,
                device,
                items,
            },
        ) => {
            let done = center(
                rt,
                alloc,
                election.as_str(),
                moment.as_str(),
                device.as_str(),
                items.as_slice(),
                inputs,
                out,
                keeper,
                gate,
            );
            status_of(done)
        }
        Ok(_) => unreachable!(),
    }
}

/// Does the command `center`, whole: reads its words, takes the election and the items, has each item done
/// by a thread of its own at one shared center, then appends what was accepted and writes the history, the
/// lines of the sheets without an event and the report. The words of other commands are Usage here: `run`
/// does them. Before each call of the shared center a thread asks the gate, with its item's number, counted from
/// 1, and goes on whatever that answers. It may wait, and promises no return.
///
/// Where the inputs and the keeper tell what they hold, there is a history of the items by which the acts of
/// the command are done in order, as those of `run` are. A journal of the command's election stays one, and
/// loses no event that it kept. Where the status is Ok, the last text that was written is the report of
/// exactly the events that the journal keeps then. Each sheet of two images of a scan that fit the facing pages
/// of a card is among the events of its item, with its marks.
pub fn run_center<R: Threads + Wait + Sync, I: Inputs, S: Sink, K: Keeper, G: Gate>(
    rt: &R,
    alloc: Global,
    words: &Words,
    inputs: &mut I,
    out: &mut S,
    keeper: &mut K,
    gate: &G,
) -> Status
    ensures usage { (result ≡ Status.Usage) ↔ NoCenter words.now }
    ensures done { (files : Files) → I.held inputs.old ≡ Some files →
        (election moment device : List ℕ) (items : List ItemWord) →
        Spells words.now (Command.Center election moment device items) →
        (records : List (List ℕ)) → K.held keeper.old ≡ Some records →
        Centers election moment device items files records
        (S.taken out.old) (S.taken out.new) (K.held keeper.old) (K.held keeper.new) (answer_of result) }
    // Each refusal comes before anything is written or kept: what isn't there or is too long, the definition,
    // its cards, the journal, an item, and a fault of the inputs.
    ensures nothing_written { is_refusal (answer_of result) ≡ true →
        S.taken out.new ≡ S.taken out.old }
    ensures nothing_kept { is_refusal (answer_of result) ≡ true →
        K.held keeper.new ≡ K.held keeper.old }
    ensures usage_writes_nothing { result ≡ Status.Usage → S.taken out.new ≡ S.taken out.old }
    ensures usage_keeps_all { result ≡ Status.Usage → K.held keeper.new ≡ K.held keeper.old }
    ensures devices { LeavesDevices I.Inputs S.Sink K.Keeper inputs.old inputs.new out.old out.new
        keeper.old keeper.new (answer_of result) }
    // The inputs are asked for the election, then for the sizes of the items' inputs, and then for those, in order,
    // each once, and for nothing else.
    ensures asked { (election moment device : List ℕ) (items : List ItemWord) →
        Spells words.now (Command.Center election moment device items) →
        AsksAsCenter I.Inputs election items inputs.old inputs.new (is_ok (answer_of result)) }
    ensures usage_asks_nothing { result ≡ Status.Usage → Asks I.Inputs [] inputs.old inputs.new true }
    // Whatever the status, a journal of the election stays one, which keeps the events that it kept, and
    // perhaps more behind them.
    ensures journal_kept { (files : Files) → I.held inputs.old ≡ Some files →
        (name moment device : List ℕ) (items : List ItemWord) →
        Spells words.now (Command.Center name moment device items) →
        (election : Election) → IsNamed name files election →
        (records : List (List ℕ)) → K.held keeper.old ≡ Some records →
        (events : List Event) → replay_of election records ≡ Ok events →
        HoldsMore election events (K.held keeper.new) }
    // So the call is a run, of which the laws on lists of runs speak.
    ensures a_run { (files : Files) → I.held inputs.old ≡ Some files →
        (name moment device : List ℕ) (items : List ItemWord) →
        Spells words.now (Command.Center name moment device items) →
        (election : Election) → IsNamed name files election →
        (records : List (List ℕ)) → K.held keeper.old ≡ Some records →
        IsRunOver election records words.now (Command.Center name moment device items) files
        (S.taken out.old) (S.taken out.new) (K.held keeper.new) (answer_of result) }
    // Where it ends well, the last text that was written is the report of exactly the kept events, as that of an
    // `export` is: their sheets' marks as they were read, with the last decisions applied, without any contest
    // that has a reason and no decision.
    ensures reported { (files : Files) → I.held inputs.old ≡ Some files →
        (election moment device : List ℕ) (items : List ItemWord) →
        Spells words.now (Command.Center election moment device items) →
        (records : List (List ℕ)) → K.held keeper.old ≡ Some records → result ≡ Status.Ok →
        ReportedWhatIsKept election moment device files
        (S.taken out.old) (S.taken out.new) (K.held keeper.new) }
    // Of each two images of a scan that fit the front and the back of a card with some marks, as they lie or
    // turned, in either order, that sheet with those marks is added among the events of its item, whatever the
    // machine replies to it.
    ensures margin_of_center { (files : Files) → I.held inputs.old ≡ Some files →
        (election moment device : List ℕ) (items : List ItemWord) →
        Spells words.now (Command.Center election moment device items) →
        CenterAddsWhatFits election items files }
{
    count_keeps_journals();
    decide_keeps_journals();
    center_keeps_journals();
    center_reports_what_is_kept();
    journals_stay();
    fronts_are_journals();
    fitting_sheets_are_in_their_items();
    center_words(rt, alloc, words, inputs, out, keeper, gate)
}
