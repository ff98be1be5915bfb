ghost use Rattle.std.specs.Prelude.{◌≡◌, ◌≤◌, ◌∷◌, [], true, None, length, is_ok};
ghost use Rattle.std.specs.Option.{ForSome};
ghost use Rattle.vx_election_model.specs.Valid.{IsValid};
ghost use Rattle.vx_layout.specs.Plans.{ArePlansOf};
ghost use Rattle.vx_pbm.specs.Images.{images_of};
ghost use Rattle.vx_command.specs.Asking.{Asks};
ghost use Rattle.vx_command.specs.Devices.{TouchesInputsAndSink, writes_nothing};
ghost use Rattle.vx_command.specs.Done.{IsWritten};
ghost use Rattle.vx_command.specs.Elections.{once_planned};
ghost use Rattle.vx_command_check.specs.Outcome.{text_outcome, bytes_outcome, scans_outcome, check_outcome};

use crate::pages::check_pages;
use crate::walking::count_images;
use std::alloc::Global;
use vx_base::Bytes;
use vx_command::{
    Halt, INPUT_LIMIT, asks_in_order, plan_all, steps_in_order, take_election, take_input,
};
use vx_election_model::{Election, drop_election};
use vx_io::{Inputs, Sink};
use vx_layout::{CardPlans, drop_plans};

/// Takes the readings under their name and tests the pages of scans, which have so many images.
fn check_readings<I: Inputs, S: Sink>(
    alloc: Global,
    election: &Election,
    plans: &CardPlans,
    scans: &[u8],
    held: u32,
    readings: &str,
    inputs: &mut I,
    out: &mut S,
) -> Result<(), Halt>
    requires election { IsValid election.now }
    requires plans { ArePlansOf election.now plans.now }
    requires walked { (images_of scans.now).fault ≡ None }
    requires held { held ≡ length (images_of scans.now).pages }
    ensures done { ForSome (I.held inputs.old) (λ files.
        IsWritten (text_outcome election.now scans.now (files readings.now))
        (S.taken out.old) (S.taken out.new) result) }
    ensures nothing_written { writes_nothing true result ≡ true → S.taken out.new ≡ S.taken out.old }
    ensures devices { TouchesInputsAndSink I.Inputs S.Sink inputs.old inputs.new out.old out.new result }
    ensures asked { Asks I.Inputs (readings.now ∷ []) inputs.old inputs.new (is_ok result) }
{
    asks_in_order::<I>();
    steps_in_order::<Bytes>();
    let text = take_input(Bytes::new(alloc), inputs, readings, 3, INPUT_LIMIT)?;
    check_pages(alloc, election, plans, scans, held, text.as_slice(), out)
}

/// Walks the images of scans, and takes and tests the readings.
fn check_bytes<I: Inputs, S: Sink>(
    alloc: Global,
    election: &Election,
    plans: &CardPlans,
    scans: &[u8],
    readings: &str,
    inputs: &mut I,
    out: &mut S,
) -> Result<(), Halt>
    requires election { IsValid election.now }
    requires plans { ArePlansOf election.now plans.now }
    requires short { length scans.now ≤ 67108864 }
    ensures done { ForSome (I.held inputs.old) (λ files.
        IsWritten (bytes_outcome election.now scans.now (files readings.now))
        (S.taken out.old) (S.taken out.new) result) }
    ensures nothing_written { writes_nothing true result ≡ true → S.taken out.new ≡ S.taken out.old }
    ensures devices { TouchesInputsAndSink I.Inputs S.Sink inputs.old inputs.new out.old out.new result }
    ensures asked { Asks I.Inputs (readings.now ∷ []) inputs.old inputs.new (is_ok result) }
{
    asks_in_order::<I>();
    steps_in_order::<u32>();
    let held = count_images(alloc, scans)?;
    check_readings(alloc, election, plans, scans, held, readings, inputs, out)
}

/// Takes the scans under their name, and then tests them against the readings.
fn check_scans<I: Inputs, S: Sink>(
    alloc: Global,
    election: &Election,
    plans: &CardPlans,
    scans: &str,
    readings: &str,
    inputs: &mut I,
    out: &mut S,
) -> Result<(), Halt>
    requires election { IsValid election.now }
    requires plans { ArePlansOf election.now plans.now }
    ensures done { ForSome (I.held inputs.old) (λ files.
        IsWritten (scans_outcome election.now scans.now readings.now files)
        (S.taken out.old) (S.taken out.new) result) }
    ensures nothing_written { writes_nothing true result ≡ true → S.taken out.new ≡ S.taken out.old }
    ensures devices { TouchesInputsAndSink I.Inputs S.Sink inputs.old inputs.new out.old out.new result }
    ensures asked { Asks I.Inputs (scans.now ∷ readings.now ∷ []) inputs.old inputs.new (is_ok result) }
{
    asks_in_order::<I>();
    steps_in_order::<Bytes>();
    let bytes = take_input(Bytes::new(alloc), inputs, scans, 2, INPUT_LIMIT)?;
    check_bytes(
        alloc,
        election,
        plans,
        bytes.as_slice(),
        readings,
        inputs,
        out,
    )
}

/// Plans all cards of the election and tests the scans.
fn check_planned<I: Inputs, S: Sink>(
    alloc: Global,
    election: &Election,
    scans: &str,
    readings: &str,
    inputs: &mut I,
    out: &mut S,
) -> Result<(), Halt>
    requires election { IsValid election.now }
    ensures done { ForSome (I.held inputs.old) (λ files.
        IsWritten (once_planned election.now (scans_outcome election.now scans.now readings.now files))
        (S.taken out.old) (S.taken out.new) result) }
    ensures nothing_written { writes_nothing true result ≡ true → S.taken out.new ≡ S.taken out.old }
    ensures devices { TouchesInputsAndSink I.Inputs S.Sink inputs.old inputs.new out.old out.new result }
    ensures asked { Asks I.Inputs (scans.now ∷ readings.now ∷ []) inputs.old inputs.new (is_ok result) }
{
    asks_in_order::<I>();
    steps_in_order::<CardPlans>();
    let plans = plan_all(alloc, election)?;
    let done = check_scans(alloc, election, &plans, scans, readings, inputs, out);
    drop_plans(plans);
    done
}

/// Does the command `check`: takes the election under its name and plans all its cards, takes the scans under
/// their name and walks their images whole, takes the readings under theirs, and then tests page after page
/// whether what the readings say is a certificate of the image, and whether its lines name the bubbles of the
/// page that it says. Writes a line for each page. The election is word 1, the scans are word 2, the readings
/// word 3.
pub fn check<I: Inputs, S: Sink>(
    alloc: Global,
    election: &str,
    scans: &str,
    readings: &str,
    inputs: &mut I,
    out: &mut S,
) -> Result<(), Halt>
    ensures done { ForSome (I.held inputs.old) (λ files.
        IsWritten (check_outcome election.now scans.now readings.now files)
        (S.taken out.old) (S.taken out.new) result) }
    ensures nothing_written { writes_nothing true result ≡ true → S.taken out.new ≡ S.taken out.old }
    ensures devices { TouchesInputsAndSink I.Inputs S.Sink inputs.old inputs.new out.old out.new result }
    ensures asked { Asks I.Inputs (election.now ∷ scans.now ∷ readings.now ∷ [])
        inputs.old inputs.new (is_ok result) }
{
    asks_in_order::<I>();
    steps_in_order::<Election>();
    let given = take_election(alloc, inputs, election)?;
    let done = check_planned(alloc, &given, scans, readings, inputs, out);
    drop_election(given);
    done
}
