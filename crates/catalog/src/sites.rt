//! The names of a catalogue's sites.

ghost use Rattle.std.specs.Prelude.{◌≡◌, ◌↔◌, true, map, IsTrue, IfOk, IfErr};
ghost use Rattle.catalog.specs.Breaks.{SitesBreak};
ghost use Rattle.catalog.specs.Catalogue.{IsSiteName};
ghost use Rattle.catalog.specs.Describes.{site_numbered};
ghost use Rattle.catalog.specs.Refuses.{is_of_text};
ghost use Rattle.catalog.specs.Sites as spec;
ghost use Rattle.catalog.specs.Sites.{AreSites, RefusesSites, IsNextSite, RefusesNextSite, IsSiteFault};

use crate::fault::Rule;
use crate::trail::{ListItem, Trail};
use reader::word::is_name;
use std::alloc::Global;
use terms::text::Text;

/// The largest number of sites of a catalogue.
const SITES: usize = 16;

/// The coordinator, which is no site.
const COORDINATOR: &str = "desk";

/// The names of the sites that texts list, each once.
pub(crate) fn sites(alloc: Global, texts: &[&str], trail: &mut Trail) -> Result<Vec<Text>, Rule>
    ensures found { IfOk result (λ sites. (sites.items ≡ map (λ text. text.now) texts.now) × AreSites (map (λ text. text.now) texts.now)) }
    ensures none { IfErr result (λ rule. RefusesSites (map (λ text. text.now) texts.now) rule) }
    ensures breaks { IfErr result (λ rule. is_of_text rule ≡ true → SitesBreak rule (map (λ text. text.now) texts.now)) }
{
    let mut sites = Vec::new(alloc);
    for text in texts {
        trail.enter(ListItem::Site(sites.len()));
        let site = next_site(alloc, sites.as_slice(), text)?;
        trail.leave();
        sites.push(site)?;
    }
    if sites.len() > SITES {
        return Err(Rule::Limit);
    }
    Ok(sites)
}

/// The name of a site behind others.
fn next_site(alloc: Global, before: &[Text], text: &str) -> Result<Text, Rule>
    ensures found { IfOk result (λ site. site ≡ text.now) }
    ensures next { IfOk result (λ site. IsNextSite before.now site) }
    ensures none { IfErr result (λ rule. RefusesNextSite before.now text.now rule) }
    ensures fault { IfErr result (λ rule. IsSiteFault before.now text.now rule) }
{
    if !is_site_name(text) {
        return Err(Rule::Name);
    }
    if has_name(before, text) {
        return Err(Rule::Twice);
    }
    Ok(Text::copy_of(alloc, text)?)
}

fn is_site_name(text: &str) -> bool
    ensures { IsTrue result ↔ IsSiteName text.now }
{
    is_name(text.as_bytes()) && text != COORDINATOR
}

/// Whether a name stands among those before it.
fn has_name(before: &[Text], name: &str) -> bool
    ensures { result ≡ spec.has_name before.now name.now }
{
    before.iter().any(|other| other.as_str() == name)
}

/// The number of the site of this name, from 0, if it is among these.
pub(crate) fn site_numbered(sites: &[Text], name: &str) -> Option<usize>
    ensures { result ≡ site_numbered sites.now name.now }
{
    sites.iter().position(|site| site.as_str() == name)
}
