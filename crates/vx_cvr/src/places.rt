//! The device that reports, and the places that vote.

ghost use Rattle.std.specs.Prelude.{◌≡◌, ◌++◌, IfOk, OnOk, map};
ghost use Rattle.serde_json.specs.View.{view};
ghost use Rattle.vx_cvr.specs.Json.{list};
ghost use Rattle.vx_cvr.specs.Report as spec;

use crate::members::object_of_texts;
use crate::names::{device_name, precinct_name};
use serde_json::Value;
use std::alloc::Global;
use vx_base::OutOfMemory;
use vx_election_model::{Election, Named};

/// The device that reports, by its UUID.
pub fn device(alloc: Global, id: &str) -> Result<Value, OutOfMemory>
    ensures { IfOk result (λ value. view value ≡ spec.device id.now) }
{
    let name = device_name(alloc, id)?;
    object_of_texts(
        alloc,
        &[("@id", name.as_str()), ("@type", "CVR.ReportingDevice")],
    )
}

/// A place that votes.
fn place<'t>(alloc: Global, id: &'t str, name: &'t str, kind: &'t str) -> Result<Value, OutOfMemory>
    ensures { IfOk result (λ value. view value ≡ spec.place id.now name.now kind.now) }
{
    object_of_texts(
        alloc,
        &[
            ("@id", id),
            ("@type", "CVR.GpUnit"),
            ("Name", name),
            ("Type", kind),
        ],
    )
}

fn precinct(alloc: Global, named: &Named) -> Result<Value, OutOfMemory>
    ensures { IfOk result (λ value. view value ≡ spec.precinct named.now) }
{
    let id = precinct_name(alloc, named.id.as_str())?;
    place(alloc, id.as_str(), named.name.as_str(), "precinct")
}

/// Adds precincts in order.
fn push_precincts(
    alloc: Global,
    places: &mut Vec<Value>,
    precincts: &[Named],
) -> Result<(), OutOfMemory>
    ensures { OnOk result (map view places.new.items
        ≡ map view places.old.items ++ map spec.precinct precincts.now) }
{
    for named in precincts {
        places.push(precinct(alloc, named)?)?;
    }
    Ok(())
}

/// All of the election, and its precincts in order.
pub fn places(alloc: Global, election: &Election) -> Result<Value, OutOfMemory>
    ensures { IfOk result (λ value. view value ≡ list (spec.places election.now)) }
{
    let scope = place(alloc, "scope", election.title.as_str(), "other")?;
    let mut places = vec![in alloc; scope]?;
    push_precincts(alloc, &mut places, election.precincts.as_slice())?;
    Ok(Value::Array(places))
}
