// The public calls.
#![tactic(auto)]

ghost use Rattle.std.specs.Prelude.{◌≡◌, length};
ghost use Rattle.tables.specs.Outputs.{zeros};
ghost use Rattle.tables.specs.Codes.{Passes};
ghost use Rattle.tables.specs.Tables.{string_table, tables_of};
ghost use Rattle.relaxng.specs.Answers.{match_answer};
ghost use Rattle.relaxng.specs.Matching.{InstanceRefusal, WorkRefusal, GivesVerdict, ListsMatches};
ghost use Rattle.relaxng.specs.Promises.{SchemaRefusal, NameInClass, LeastCommonName};

use matching_list::{Matches, TooShort};
use schema_classes::{Member, Name};
use tables::{Code, Refusal};

// Whether a schema keeps the simple form and the restrictions: the first of codes 1 to 8 that has a fault, with its
// smallest place; passed exactly when none has.
pub fn schema_verdict(bytes: &[u8], ends: &[u32], schema: &[u32]) -> Result<(), Refusal>
    ensures { SchemaRefusal (string_table bytes.now ends.now) schema.now Passes result }
{
    Code::Strings.judge(strings::check_strings(bytes, ends))?;
    schema_restrictions::check_schema(ends.len(), schema)
}

// Whether a name is in the class at a row, with the row of the class that says so, NO_ROW for a no without one: codes 1
// to 8, then 11 at a row that is no name class.
pub fn name_in_class(
    bytes: &[u8],
    ends: &[u32],
    schema: &[u32],
    class: u32,
    namespace: u32,
    local: u32,
) -> Result<Member, Refusal>
    ensures { NameInClass (string_table bytes.now ends.now) schema.now class namespace local result }
{
    schema_verdict(bytes, ends, schema)?;
    if !schema::is_class_row(schema, class) {
        return Err(Code::NoClass.at(class));
    }
    Ok(schema_classes::membership(schema, class, namespace, local))
}

// The least name that the classes at two rows have in common, or none: codes 1 to 8, then 11 at the first row that is
// no name class.
pub fn least_common_name(
    bytes: &[u8],
    ends: &[u32],
    schema: &[u32],
    first: u32,
    second: u32,
) -> Result<Option<Name>, Refusal>
    ensures { LeastCommonName (string_table bytes.now ends.now) schema.now first second result }
{
    schema_verdict(bytes, ends, schema)?;
    if !schema::is_class_row(schema, first) {
        return Err(Code::NoClass.at(first));
    }
    if !schema::is_class_row(schema, second) {
        return Err(Code::NoClass.at(second));
    }
    Ok(schema_classes::least_common(schema, first, second))
}

// Whether schema and instance keep their rules: codes 1 to 10.
fn instance_verdict(
    bytes: &[u8],
    ends: &[u32],
    schema: &[u32],
    instance: &[u32],
) -> Result<(), Refusal>
    ensures { InstanceRefusal (tables_of (string_table bytes.now ends.now) schema.now instance.now) Passes result }
{
    schema_verdict(bytes, ends, schema)?;
    Code::Nodes.judge(instance_nodes::check_nodes(ends.len(), instance))?;
    Code::Width.judge(instance_nodes::check_width(instance))
}

// Whether schema and instance keep their rules, and the work buffer is long enough: codes 1 to 10, then 12. It is left
// with zeros.
fn work_verdict(
    bytes: &[u8],
    ends: &[u32],
    schema: &[u32],
    instance: &[u32],
    work: &mut [u8],
) -> Result<(), Refusal>
    ensures work_refusal { WorkRefusal (tables_of (string_table bytes.now ends.now) schema.now instance.now)
        (length work.old) result }
    ensures cleared { work.new ≡ zeros (length work.old) }
{
    let lent = work.len();
    tables::zero(work);
    instance_verdict(bytes, ends, schema, instance)?;
    Code::Room.judge(matching_work::check_work(bytes, ends, schema, instance, lent))
}

// Whether the instance is valid by the schema: codes 1 to 10, then 12 for the work buffer, which is left with zeros.
pub fn verdict(
    bytes: &[u8],
    ends: &[u32],
    schema: &[u32],
    instance: &[u32],
    work: &mut [u8],
) -> Result<bool, Refusal>
    ensures { GivesVerdict (tables_of (string_table bytes.now ends.now) schema.now instance.now)
        (length work.old) work.new result }
{
    work_verdict(bytes, ends, schema, instance, work)?;
    Ok(matching_list::is_valid(bytes, ends, schema, instance))
}

// The answer with the match list, where no code before 12 refuses: a list that is too short has code 12 at 0.
fn matches_of(answer: Result<Matches, TooShort>) -> Result<Matches, Refusal>
    ensures { result ≡ match_answer answer }
{
    answer.map_err(|_| Code::Room.at(0))
}

// The match list, with the number of pairs and valid or not: codes 1 to 10, then 12 for the work buffer, which is left
// with zeros, and for the list, which is zeros throughout at a refusal and after the pairs.
pub fn match_list(
    bytes: &[u8],
    ends: &[u32],
    schema: &[u32],
    instance: &[u32],
    list: &mut [u32],
    work: &mut [u8],
) -> Result<Matches, Refusal>
    ensures { ListsMatches (tables_of (string_table bytes.now ends.now) schema.now instance.now)
        (length list.old) (length work.old) list.new work.new result }
{
    if let Err(refusal) = work_verdict(bytes, ends, schema, instance, work) {
        tables::zero(list);
        return Err(refusal);
    }
    matches_of(matching_list::match_pairs(bytes, ends, schema, instance, list))
}
