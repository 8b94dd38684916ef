//! A catalogue for a file that somebody else wrote.

ghost use Rattle.std.specs.Prelude.{◌≡◌, IfOk, IsTrue, string_bytes};
ghost use Rattle.catalog.specs.Relation.{catalogue_of};
ghost use Rattle.exchange.specs.Suggestion.{IsOfColumns, IsSuggestion};

use crate::quantile::cuts;
use crate::suggest_fault::SuggestFault;
use crate::suggestion_text::suggestion_text;
use crate::survey::survey_of;
use catalog::catalogue::Catalog;
use meaning::schema::{Column, RelationSchema};
use reader::word::is_name;
use std::alloc::Global;
use std::io::Read;
use terms::same::same_all;

/// The most sites of a catalogue.
const SITES: usize = 16;

/// The text of a catalogue of one relation with the columns of a file: the key first and the others in the file's order,
/// `int` where each field is an integer and else `text`. The rows are split by quantiles of a column over the sites
/// `site1`, `site2` and so on: as many leaves as there are sites, or fewer where quantiles are equal.
pub fn suggest<R: Read + Drop>(
    alloc: Global,
    relation: &str,
    key: &str,
    split: &str,
    sites: usize,
    input: R,
) -> Result<String, SuggestFault>
    ensures { IfOk result (λ text. IsSuggestion (R.remaining input) relation.now key.now sites (string_bytes text)) }
{
    if !is_name(relation.as_bytes()) {
        return Err(SuggestFault::Relation);
    }
    if sites == 0 || sites > SITES {
        return Err(SuggestFault::Sites);
    }
    let survey = survey_of(alloc, key, split, input)?;
    let columns = survey.columns.as_slice();
    let cuts = cuts(alloc, survey.values.as_slice(), sites)?;
    let text = suggestion_text(alloc, relation, columns, split, cuts.as_slice(), sites)?;
    let catalog = Catalog::read(alloc, text.as_str())?;
    if !is_of_columns(&catalog, relation, columns, sites) {
        return Err(SuggestFault::Relation);
    }
    Ok(text)
}

/// Whether a catalogue has so many sites, and one relation, of this name and these columns.
fn is_of_columns(catalog: &Catalog, relation: &str, columns: &[Column], sites: usize) -> bool
    ensures { IsTrue result → IsOfColumns (catalogue_of catalog.now) relation.now columns.now sites }
{
    if catalog.sites().len() != sites {
        return false;
    }
    let [only] = catalog.schema().relations.as_slice() else {
        return false;
    };
    is_relation(only, relation, columns)
}

/// Whether a relation has this name and these columns.
fn is_relation(schema: &RelationSchema, relation: &str, columns: &[Column]) -> bool
    ensures { IsTrue result → schema.now ≡ record { name = relation.now; columns = columns.now } }
{
    schema.name.as_str() == relation && same_all(schema.columns.as_slice(), columns)
}
