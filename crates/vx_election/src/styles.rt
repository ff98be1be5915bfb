//! The ballot styles of an election.

ghost use Rattle.std.specs.Prelude.{◌≡◌, ◌≤◌, ◌*◌, ◌^◌, ◌<◌, None, map, length, IfOk};
ghost use Rattle.serde_json.specs.View.{view};
ghost use Rattle.vx_base.specs.Refusals.{Gives};
ghost use Rattle.vx_election.specs.Faults.{is_no_memory};
ghost use Rattle.vx_election.specs.Ids.{place_in};
ghost use Rattle.vx_election.specs.Styles.{style_places_in, style_at, styles_in};
ghost use Rattle.vx_election_model.specs.Lists.{card_count};

use crate::directory::Directory;
use crate::fault::ElectionFault;
use crate::ids::Ids;
use crate::members::{id_member, list_member, optional_reference};
use crate::references::new_references_of;
use serde_json::Value;
use std::alloc::Global;
use vx_election_model::{Indexes, Style, Styles};
use vx_json::{Path, Text};

/// The places that a style names under a member, each once.
#[tactic(auto, unfolding(crate::specs::Styles::style_places_in))]
fn style_places_of(
    alloc: Global,
    named: &Directory,
    value: &Value,
    path: &Path,
    name: &str,
) -> Result<Indexes, ElectionFault>
    ensures exact { Gives is_no_memory result
        (style_places_in named.now (view value.now) path.now name.now) }
    ensures few { IfOk result (λ places. length places ≤ 2000) }
{
    let list = list_member(alloc, value, path, name, 2000)?;
    let at = path.member(alloc, name)?;
    new_references_of(alloc, list, &at, named.ids())
}

/// A style with an id that none of those has.
#[tactic(auto, unfolding(crate::specs::Styles::style_at))]
fn style_of(
    alloc: Global,
    parties: &Directory,
    districts: &Directory,
    precincts: &Directory,
    value: &Value,
    path: &Path,
    ids: &Ids,
) -> Result<Style, ElectionFault>
    ensures exact { Gives is_no_memory result
        (style_at parties.now districts.now precincts.now path.now ids.now (view value.now)) }
    ensures is_new { IfOk result (λ style. place_in style.id ids.now ≡ None) }
    ensures few { IfOk result (λ style. length style.precincts ≤ 2000) }
{
    let id = id_member(alloc, value, path, ids)?;
    let its_precincts = style_places_of(alloc, precincts, value, path, "precincts")?;
    let its_districts = style_places_of(alloc, districts, value, path, "districts")?;
    let party = optional_reference(alloc, value, path, "partyId", parties.ids())?;
    let id = Text::from_str(alloc, id)?;
    Ok(Style {
        id,
        precincts: its_precincts,
        districts: its_districts,
        party,
    })
}

/// The elements of the list of styles.
#[tactic(auto, unfolding(crate::specs::Styles::styles_in))]
pub(crate) fn styles_of(
    alloc: Global,
    parties: &Directory,
    districts: &Directory,
    precincts: &Directory,
    values: &[Value],
    path: &Path,
) -> Result<Styles, ElectionFault>
    requires { length values.now ≤ 1000 }
    ensures few { IfOk result (λ styles. card_count styles ≤ 2000 * 1000) }
    ensures exact { Gives is_no_memory result
        (styles_in parties.now districts.now precincts.now path.now (map view values.now)) }
{
    let mut styles = Vec::new(alloc);
    let mut ids = Ids::new(alloc);
    for value in values {
        let at = path.element(alloc, styles.len())?;
        let style = style_of(alloc, parties, districts, precincts, value, &at, &ids)?;
        ids.push(alloc, style.id.as_str())?;
        styles.push(style)?;
    }
    Ok(Styles::from_vec(styles))
}

/// How many cards the styles make.
pub(crate) fn card_count(styles: &[Style]) -> u64
    requires { card_count styles.now < 2 ^ 64 }
    ensures { result ≡ card_count styles.now }
{
    styles
        .iter()
        .map(|style| style.precincts.len() as u64)
        .sum()
}
