// The room of the lent work buffer: whether it is too short for the longest string that a list can meet.
#![tactic(auto)]

ghost use Rattle.std.specs.Prelude.{◌≡◌, List, ℕ, ◌≤◌, max, length};
ghost use Rattle.tables.specs.Answers.{Decides};
ghost use Rattle.tables.specs.Checks.{Finds};
ghost use Rattle.tables.specs.Tables.{string_table, tables_of};
ghost use Rattle.strings.specs.Strings.{text_of};
ghost use Rattle.schema.specs.Rows.{rows_of};
ghost use Rattle.schema.specs.RowRule.{max_rows};
ghost use Rattle.instance.specs.Nodes.{nodes_of};
ghost use Rattle.instance.specs.NodeRule.{max_nodes};
ghost use Rattle.matching_work.specs.Work.{HasList, value_length, longest, WorkTooShort, WorkFault};

// Whether a row is a list. A last row that lacks fields has a kind too.
fn has_list(schema: &[u32]) -> bool
    requires { rows_of schema.now ≤ max_rows }
    ensures { Decides (HasList schema.now) result }
{
    let rows = schema.len().div_ceil(3) as u32;
    (0..rows).any(|row| schema::kind(schema, row) == schema::LIST)
}

// The length of string k, whatever the ends are.
fn string_length(bytes: &[u8], ends: &[u32], k: u32) -> usize
    ensures { result ≡ length (text_of (string_table bytes.now ends.now) k) }
{
    strings::text(bytes, ends, k as usize).len()
}

// The length of an attribute's value or of a text, 0 for another row, whatever the schema is.
fn value_length(bytes: &[u8], ends: &[u32], instance: &[u32], row: u32) -> usize
    ensures { (s : List ℕ) → result ≡ value_length (tables_of (string_table bytes.now ends.now) s instance.now) row }
{
    match instance::kind(instance, row) {
        instance::ATTRIBUTE => string_length(bytes, ends, instance::field_c(instance, row)),
        instance::TEXT => string_length(bytes, ends, instance::field_a(instance, row)),
        _ => 0,
    }
}

// How long the longest attribute value or text of the instance is, whatever the schema is; 0 where it has neither.
fn longest(bytes: &[u8], ends: &[u32], instance: &[u32]) -> usize
    requires { nodes_of instance.now ≤ max_nodes }
    ensures { (s : List ℕ) → result ≡ longest (tables_of (string_table bytes.now ends.now) s instance.now) }
{
    let nodes = instance.len() / 5;
    let mut most = 0;
    for row in 0..nodes as u32 {
        most = most.max(value_length(bytes, ends, instance, row));
    }
    most
}

// Whether so many bytes of work buffer are too few. They are asked for only where the schema has a list.
// Fewer than three times m plus three are those of which a third is at most m.
fn is_short(bytes: &[u8], ends: &[u32], schema: &[u32], instance: &[u32], lent: usize) -> bool
    requires { (rows_of schema.now ≤ max_rows) × (nodes_of instance.now ≤ max_nodes) }
    ensures { Decides (WorkTooShort (tables_of (string_table bytes.now ends.now) schema.now instance.now) lent) result }
{
    has_list(schema) && lent / 3 <= longest(bytes, ends, instance)
}

// Code 12 for the work buffer: a fault, at 0, exactly when the schema has a list and fewer bytes are lent than 3 n + 3,
// n being the length of the longest attribute value or text of the instance, 0 without any. The caller shows that there
// are at most 512 schema rows and 1,024 instance rows.
pub fn check_work(
    bytes: &[u8],
    ends: &[u32],
    schema: &[u32],
    instance: &[u32],
    lent: usize,
) -> Result<(), u32>
    requires { (rows_of schema.now ≤ max_rows) × (nodes_of instance.now ≤ max_nodes) }
    ensures { Finds (WorkFault (tables_of (string_table bytes.now ends.now) schema.now instance.now) lent) result }
{
    if is_short(bytes, ends, schema, instance, lent) {
        return Err(0);
    }
    Ok(())
}
