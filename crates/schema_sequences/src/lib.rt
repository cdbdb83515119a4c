// The restriction of clause 10.3 on string sequences, code 6.
#![tactic(auto)]

ghost use Rattle.std.specs.Prelude.{◌≡◌, ◌+◌, ◌<◌, max, cond, ◌&&◌, ◌⊎◌, length};
ghost use Rattle.tables.specs.Answers.{Decides};
ghost use Rattle.tables.specs.Checks.{Finds};
ghost use Rattle.schema.specs.Kinds.{no_row};
ghost use Rattle.schema.specs.Rows.{rows_of};
ghost use Rattle.schema.specs.RowRule.{max_rows, SizeRight, SizedFault};
ghost use Rattle.schema_places.specs.Marks.{MarksExactly};
ghost use Rattle.schema_sequences.specs.Content.{groupable, Clash, InList, SequenceFault};
ghost use Rattle.schema_sequences.specs.TypeTable.{content_number, numbered, no_type, typed, fits, clashes};
ghost use Rattle.schema_sequences.specs.TypeTable.{type_by, clash_by, TypeIs, Types};

// The content types of 10.3, in their order.
#[derive(Clone, Copy, Debug, PartialEq, Eq, PartialOrd, Ord)]
enum ContentType {
    Empty,
    Complex,
    Simple,
}

// (group empty 1), (group empty 2), (group complex) of 10.3.
fn can_group(c: ContentType, d: ContentType) -> bool
    ensures { result ≡ groupable (content_number c) (content_number d) }
{
    use ContentType::{Complex, Empty};
    matches!((c, d), (Empty, _) | (_, Empty) | (Complex, Complex))
}

// The content type of a choice of two; none where one of them has none.
fn chosen(c: Option<ContentType>, d: Option<ContentType>) -> Option<ContentType>
    ensures { numbered result ≡ cond (typed (numbered c) && typed (numbered d)) (max (numbered c) (numbered d)) no_type }
{
    Some(c?.max(d?))
}

// The content type of a group of two; none where one of them has none, or they do not go together.
fn grouped(c: Option<ContentType>, d: Option<ContentType>) -> Option<ContentType>
    ensures { numbered result ≡ cond (fits (numbered c) (numbered d)) (max (numbered c) (numbered d)) no_type }
{
    let (c, d) = (c?, d?);
    can_group(c, d).then_some(c.max(d))
}

fn clash_together(c: Option<ContentType>, d: Option<ContentType>) -> bool
    ensures { result ≡ clashes (numbered c) (numbered d) }
{
    matches!((c, d), (Some(c), Some(d)) if !can_group(c, d))
}

// The content type of a row, by those of its children.
#[tactic(auto, unfolding(crate::specs::TypeTable::type_by))]
fn row_type(
    kind: u32,
    b: u32,
    c: Option<ContentType>,
    d: Option<ContentType>,
) -> Option<ContentType>
    ensures { numbered result ≡ type_by kind b (numbered c) (numbered d) }
{
    match kind {
        schema::EMPTY => Some(ContentType::Empty),
        schema::TEXT | schema::REF => Some(ContentType::Complex),
        schema::DATA => (b == schema::NO_ROW || d.is_some()).then_some(ContentType::Simple),
        schema::VALUE | schema::LIST => Some(ContentType::Simple),
        schema::ATTRIBUTE => d.and(Some(ContentType::Empty)),
        schema::ONE_OR_MORE => grouped(c, c),
        schema::CHOICE => chosen(c, d),
        schema::GROUP | schema::INTERLEAVE => grouped(c, d),
        _ => None,
    }
}

// Whether the content types of its children do not go together in a row.
#[tactic(auto, unfolding(crate::specs::TypeTable::clash_by))]
fn row_clashes(kind: u32, c: Option<ContentType>, d: Option<ContentType>) -> bool
    ensures { result ≡ clash_by kind (numbered c) (numbered d) }
{
    match kind {
        schema::ONE_OR_MORE => clash_together(c, c),
        schema::GROUP | schema::INTERLEAVE => clash_together(c, d),
        _ => false,
    }
}

// The content type of a child of row p, from the table of types.
fn child_type(
    schema: &[u32],
    types: &[Option<ContentType>],
    p: u32,
    child: u32,
) -> Option<ContentType>
    requires { SizeRight schema.now × Types schema.now types.now p × (p < rows_of schema.now) × ((child < p) ⊎ (child ≡ no_row)) }
    ensures { TypeIs schema.now child (numbered result) }
{
    if child < p {
        types[child as usize]
    } else {
        None
    }
}

// Whether the operands of row r do not go together; its type is added to the table.
fn type_row(schema: &[u32], types: &mut [Option<ContentType>], r: u32) -> bool
    requires { SizeRight schema.now × Types schema.now types.old r × (r < rows_of schema.now) }
    ensures { Decides (Clash schema.now r) result × Types schema.now types.new (r + 1) }
{
    let kind = schema::kind(schema, r);
    let c = child_type(schema, types, r, schema::child_a(schema, r));
    let d = child_type(schema, types, r, schema::child_b(schema, r));
    types[r as usize] = row_type(kind, schema::field_b(schema, r), c, d);
    row_clashes(kind, c, d)
}

// Whether row r is outside lists and its operands do not go together; its type is added to the table.
fn judge_row(schema: &[u32], listed: &[u32], types: &mut [Option<ContentType>], r: u32) -> bool
    requires { SizeRight schema.now × MarksExactly (InList schema.now) listed.now × Types schema.now types.old r × (r < rows_of schema.now) }
    ensures { Decides (SequenceFault schema.now r) result × Types schema.now types.new (r + 1) }
{
    type_row(schema, types, r) && tables::at(listed, r as usize) != 1
}

// The first row outside lists whose operands do not go together; the types of the rows before it are added to the
// table.
fn scan_types(schema: &[u32], listed: &[u32], types: &mut [Option<ContentType>]) -> Result<(), u32>
    requires { SizeRight schema.now × MarksExactly (InList schema.now) listed.now × (length types.old ≡ max_rows) }
    ensures { Finds (SequenceFault schema.now) result }
{
    for r in 0..(schema.len() / 3) as u32 {
        if judge_row(schema, listed, types, r) {
            return Err(r);
        }
    }
    Ok(())
}

// The first row outside lists whose operands do not go together.
fn first_clash(schema: &[u32]) -> Result<(), u32>
    requires { SizeRight schema.now }
    ensures { Finds (SequenceFault schema.now) result }
{
    let mut listed = [0u32; schema::MAX_ROWS];
    schema_places::mark_under(schema, schema::LIST, &mut listed);
    let mut types = [None; schema::MAX_ROWS];
    scan_types(schema, &listed, &mut types)
}

// Code 6, of any table: a wrong size is a fault at row 0; in a table of the right size the first row below no list
// whose operands have content types that do not go together is one. `Ok` exactly when there is neither.
pub fn check_content(schema: &[u32]) -> Result<(), u32>
    ensures { Finds (SizedFault schema.now (SequenceFault schema.now)) result }
{
    schema::check_size(schema)?;
    first_clash(schema)
}
