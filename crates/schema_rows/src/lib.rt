// The rule of schema rows, code 2.
#![tactic(auto)]

ghost use Rattle.std.specs.Prelude.{◌≡◌, ◌≤◌};
ghost use Rattle.tables.specs.Checks.{Finds};
ghost use Rattle.tables.specs.Outputs.{zeros};
ghost use Rattle.schema.specs.Rows.{rows_of};
ghost use Rattle.schema.specs.RowRule.{max_rows, sort_right, row_right, WrongRow, RowFault};
ghost use Rattle.schema_rows.specs.Counts.{UsesCounted};

use schema::Sort;

// Whether a row of a sort may have so many parents, and be the last row or not.
fn sort_right(sort: Sort, uses: u32, last: bool) -> bool
    ensures { result ≡ sort_right sort uses last }
{
    match sort {
        Sort::Pattern | Sort::NameClass => uses == 1 && !last,
        Sort::Element => !last,
        Sort::Start => last,
        Sort::Bad => false,
    }
}

// The uses of each row.
fn count_uses(schema: &[u32], counts: &mut [u32])
    requires { (rows_of schema.now ≤ max_rows) × (counts.old ≡ zeros max_rows) }
    ensures { UsesCounted schema.now counts.new (rows_of schema.now) }
{
    for p in 0..(schema.len() / 3) as u32 {
        tables::count_if(counts, schema::child_a(schema, p), true);
        tables::count_if(counts, schema::child_b(schema, p), true);
    }
}

// Whether row r keeps its rule, where it is used so often.
fn row_right(strings: usize, schema: &[u32], r: u32, uses: u32) -> bool
    ensures { result ≡ row_right strings schema.now r uses }
{
    let shape = schema::shape_of(schema::kind(schema, r));
    schema::field_right(strings, schema, r, shape.a, schema::field_a(schema, r))
        && schema::field_right(strings, schema, r, shape.b, schema::field_b(schema, r))
        && sort_right(shape.sort, uses, r as usize + 1 == schema.len() / 3)
}

// The first row that breaks its rule, with the uses of each row.
fn scan_rows(strings: usize, schema: &[u32], counts: &[u32]) -> Result<(), u32>
    requires { (rows_of schema.now ≤ max_rows) × UsesCounted schema.now counts.now (rows_of schema.now) }
    ensures { Finds (WrongRow strings schema.now) result }
{
    for r in 0..(schema.len() / 3) as u32 {
        if !row_right(strings, schema, r, tables::at(counts, r as usize)) {
            return Err(r);
        }
    }
    Ok(())
}

// The first row that breaks its rule.
fn first_wrong_row(strings: usize, schema: &[u32]) -> Result<(), u32>
    requires { rows_of schema.now ≤ max_rows }
    ensures { Finds (WrongRow strings schema.now) result }
{
    let mut counts = [0u32; schema::MAX_ROWS];
    count_uses(schema, &mut counts);
    scan_rows(strings, schema, &counts)
}

// Code 2: `Ok` exactly when the rows keep their rule beside so many strings, and otherwise the smallest faulty row.
pub fn check_rows(strings: usize, schema: &[u32]) -> Result<(), u32>
    ensures { Finds (RowFault strings schema.now) result }
{
    schema::check_size(schema)?;
    first_wrong_row(strings, schema)
}
