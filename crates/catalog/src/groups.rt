//! The columns of the groups of a column split.

ghost use Rattle.std.specs.Prelude.{◌≡◌, ◌++◌, true, Some, map, option_map, IfOk, IfErr, OnOk};
ghost use Rattle.std.specs.List.{AllByRecursion};
ghost use Rattle.toml.specs.View.{view};
ghost use Rattle.reader.specs.Names.{all_of};
ghost use Rattle.catalog.specs.Counts as counts;
ghost use Rattle.catalog.specs.Describes.{AreNamedIn, named_in, place_within};
ghost use Rattle.catalog.specs.Frame.{frame_of};
ghost use Rattle.catalog.specs.NodeBreaks.{GroupBreaks, GroupsBreak, IsAgain, places_before};
ghost use Rattle.catalog.specs.declared.fault.Rule.TheVariants.{Field, ColumnAbsent};
ghost use Rattle.catalog.specs.Parts.{named, AreApart};
ghost use Rattle.catalog.specs.Refuses.{RefusesGroup, RefusesNames, RefusesNamed, RefusesParts, IsPartsFault, is_of_text};
ghost use Rattle.catalog.specs.Valid.{AreParts};

use crate::fault::Rule;
use crate::form::texts_at;
use crate::frame::Frame;
use crate::parts::{PartFault, first_again, part_fault};
use crate::trail::{ListItem, Trail};
use std::alloc::Global;
use terms::memory::Memory;
use terms::seq::Seq;
use toml::Value;

/// The places of the columns that each group names in its `of`: each of the columns around them once.
pub(crate) fn named_columns(
    frame: &Frame<'_>,
    within: &[usize],
    nodes: &[Value],
    trail: &mut Trail,
) -> Result<Vec<Seq<usize>>, Rule>
    ensures found { IfOk result (λ groups. AreNamedIn (frame_of frame.now) within.now (map view nodes.now) groups.items) }
    ensures none { IfErr result (λ rule. RefusesNamed (frame_of frame.now) within.now (map view nodes.now) rule) }
    ensures breaks { IfErr result (λ rule. is_of_text rule ≡ true → GroupsBreak rule (frame_of frame.now) within.now (map view nodes.now)) }
{
    let groups = all_groups(frame, within, nodes, trail)?;
    require_parts(frame.alloc, within, groups)
}

/// The places that each group names.
fn all_groups(
    frame: &Frame<'_>,
    within: &[usize],
    nodes: &[Value],
    trail: &mut Trail,
) -> Result<Vec<Seq<usize>>, Rule>
    ensures found { IfOk result (λ groups. all_of (named_in (frame_of frame.now) within.now) (map view nodes.now) ≡ Some groups.items) }
    ensures none { IfErr result (λ rule. RefusesNames (frame_of frame.now) within.now (map view nodes.now) rule) }
    ensures breaks { IfErr result (λ rule. is_of_text rule ≡ true → GroupsBreak rule (frame_of frame.now) within.now (map view nodes.now)) }
{
    let mut seen = Vec::new(frame.alloc);
    let mut groups = Vec::new(frame.alloc);
    for node in nodes {
        trail.enter(ListItem::Group(groups.len()));
        let places = group(frame, within, node, &mut seen, trail)?;
        trail.leave();
        groups.push(Seq::new(places))?;
    }
    Ok(groups)
}

/// The places that a group names, each of which is put behind those seen before.
fn group(
    frame: &Frame<'_>,
    within: &[usize],
    node: &Value,
    seen: &mut Vec<usize>,
    trail: &mut Trail,
) -> Result<Vec<usize>, Rule>
    ensures found { IfOk result (λ places. named_in (frame_of frame.now) within.now (view node.now) ≡ Some places.items) }
    ensures none { IfErr result (λ rule. RefusesGroup (frame_of frame.now) within.now (view node.now) rule) }
    ensures seen { IfOk result (λ places. seen.new.items ≡ seen.old.items ++ places.items) }
    ensures breaks { IfErr result (λ rule. is_of_text rule ≡ true → GroupBreaks rule (frame_of frame.now) within.now seen.old.items (view node.now)) }
{
    let Some(names) = texts_at(frame.alloc, "of", node)? else {
        return Err(missing(seen.as_slice(), trail));
    };
    match places_of(frame, within, names.as_slice(), seen)? {
        Some(places) => Ok(places),
        None => Err(absent(seen.as_slice(), trail)),
    }
}

/// The places of the columns of these names, if each is one of the columns around.
fn places_of(
    frame: &Frame<'_>,
    within: &[usize],
    names: &[&str],
    seen: &mut Vec<usize>,
) -> Result<Option<Vec<usize>>, Memory>
    ensures found { IfOk result (λ found. option_map (λ places. places.items) found ≡ all_of (place_within (frame_of frame.now) within.now) (map (λ name. name.now) names.now)) }
    ensures seen { IfOk result (λ found. seen.new.items ≡ seen.old.items ++ places_before (frame_of frame.now) within.now (map (λ name. name.now) names.now)) }
{
    let mut places = Vec::new(frame.alloc);
    for name in names {
        let Some(place) = frame.place_within(within, name) else {
            return Ok(None);
        };
        seen.push(place)?;
        places.push(place)?;
    }
    Ok(Some(places))
}

/// The rule that a group without names breaks, or, of the split around it, that a name before it stands twice.
fn missing(seen: &[usize], trail: &mut Trail) -> Rule
    ensures of_text { is_of_text result ≡ true }
    ensures twice { IsAgain result Field seen.now }
{
    match first_again(seen) {
        Some(_) => {
            trail.leave();
            Rule::ColumnTwice
        }
        None => Rule::Field,
    }
}

/// The rule that a name of no column breaks, or, of the split around it, that a name before it stands twice.
fn absent(seen: &[usize], trail: &mut Trail) -> Rule
    ensures of_text { is_of_text result ≡ true }
    ensures twice { IsAgain result ColumnAbsent seen.now }
{
    match first_again(seen) {
        Some(_) => {
            trail.leave();
            Rule::ColumnTwice
        }
        None => Rule::ColumnAbsent,
    }
}

/// Refuses groups that name a column twice, or leave one out.
fn require_parts(
    alloc: Global,
    within: &[usize],
    groups: Vec<Seq<usize>>,
) -> Result<Vec<Seq<usize>>, Rule>
    requires { AllByRecursion (λ col. counts.has within.now col ≡ true) (named groups.items) }
    ensures same { IfOk result (λ kept. kept.items ≡ groups.items) }
    ensures parts { OnOk result (AreParts within.now groups.items) }
    ensures apart { OnOk result (AreApart (named groups.items)) }
    ensures none { IfErr result (λ rule. RefusesParts within.now groups.items rule) }
    ensures fault { IfErr result (λ rule. IsPartsFault within.now groups.items rule) }
{
    if groups.is_empty() {
        return Err(Rule::Field);
    }
    match part_fault(alloc, within, groups.as_slice())? {
        Some(PartFault::Twice(_)) => Err(Rule::ColumnTwice),
        Some(PartFault::Lost(_)) => Err(Rule::ColumnLost),
        None => Ok(groups),
    }
}
