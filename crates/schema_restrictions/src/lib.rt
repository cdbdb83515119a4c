// The chain of codes 2 to 8: the restrictions of clause 10 on a schema.
#![tactic(auto)]

ghost use Rattle.schema_restrictions.specs.Schema.{SchemaVerdict};

use tables::{Code, Refusal};

// Codes 2 to 8 on the rows of a schema beside so many strings: the first code that finds a fault, with its smallest
// place; nothing is refused exactly when no code finds one.
pub fn check_schema(strings: usize, schema: &[u32]) -> Result<(), Refusal>
    ensures { SchemaVerdict strings schema.now result }
{
    Code::Rows.judge(schema_rows::check_rows(strings, schema))?;
    Code::Places.judge(schema_places::check_places(schema))?;
    Code::Names.judge(schema_places::check_names(schema))?;
    Code::Paths.judge(schema_places::check_paths(schema))?;
    Code::Content.judge(schema_sequences::check_content(schema))?;
    Code::Attributes.judge(schema_occurrences::check_attributes(schema))?;
    Code::Interleaves.judge(schema_occurrences::check_interleaves(schema))
}
