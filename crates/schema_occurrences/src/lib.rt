// The restrictions of clauses 10.4 and 10.5 on attributes and interleave, by what occurs in a pattern: codes 7 and 8.
#![tactic(auto)]

ghost use Rattle.std.specs.Prelude.{◌≡◌, ◌<◌};
ghost use Rattle.tables.specs.Answers.{Decides};
ghost use Rattle.tables.specs.Checks.{Finds};
ghost use Rattle.schema.specs.Kinds.{one_or_more};
ghost use Rattle.schema.specs.Rows.{rows_of};
ghost use Rattle.schema.specs.RowRule.{SizeRight, SizedFault};
ghost use Rattle.schema_places.specs.Marks.{MarksExactly, Under};
ghost use Rattle.schema_places.specs.Sources.{HasKind};
ghost use Rattle.schema_occurrences.specs.Attributes.{Infinite, AttributeFault};
ghost use Rattle.schema_occurrences.specs.Interleaves.{class_referred, InterleaveFault};
ghost use Rattle.schema_occurrences.specs.Occurrences.{Somewhere, Shared, Suits, Compared};

// Whether the class at a row has anyName or nsName in it.
#[cycle(infinite_infinite_child)]
fn infinite(schema: &[u32], class: u32) -> bool
    ensures { Decides (Infinite schema.now class) result }
{
    let kind = schema::kind(schema, class);
    if kind == schema::ANY_NAME {
        return true;
    }
    if kind == schema::NS_NAME {
        return true;
    }
    if infinite_child(schema, class, schema::child_a(schema, class)) {
        return true;
    }
    infinite_child(schema, class, schema::child_b(schema, class))
}

// Whether a child of a row, a smaller one, has anyName or nsName in it.
#[cycle(infinite_infinite_child)]
fn infinite_child(schema: &[u32], parent: u32, child: u32) -> bool
    ensures { Decides ((child < parent) × Infinite schema.now child) result }
{
    child < parent && infinite(schema, child)
}

// What is looked for in a pattern: text; an attribute, or a ref to an element, that shares a name with a class; one
// that shares a name with one in another pattern.
#[derive(Clone, Copy, Debug, PartialEq, Eq)]
enum Wanted {
    Text,
    AttributeSharing(u32),
    RefSharing(u32),
    AttributeMeeting(u32),
    RefMeeting(u32),
}

// Whether two classes have a name in common.
fn share_name(schema: &[u32], first: u32, second: u32) -> bool
    requires { SizeRight schema.now }
    ensures { Decides (Shared schema.now first second) result }
{
    schema_classes::least_common(schema, first, second).is_some()
}

// Whether two classes have a name in common. Two that share none are remembered, where the table has a place for them,
// and not compared again; two that share one end the check.
fn share_name_once(schema: &[u32], first: u32, second: u32, compared: &mut [u64]) -> bool
    requires { SizeRight schema.now × Compared schema.now compared.old }
    ensures { Decides (Shared schema.now first second) result × Compared schema.now compared.new }
{
    if schema::MAX_ROWS <= second as usize {
        return share_name(schema, first, second);
    }
    let place = first as usize * 8 + second as usize / 64;
    if compared.len() <= place {
        return share_name(schema, first, second);
    }
    let member = second % 64;
    let set = compared[place];
    if sets::has(set, member) {
        return false;
    }
    if share_name(schema, first, second) {
        return true;
    }
    compared[place] = set | 1u64 << member;
    false
}

// Whether row x is what is wanted.
#[cycle(occurs_occurs_child_suits)]
fn suits(schema: &[u32], wanted: Wanted, x: u32, compared: &mut [u64]) -> bool
    requires { SizeRight schema.now × Compared schema.now compared.old }
    ensures { Decides (Suits schema.now wanted x) result × Compared schema.now compared.new }
{
    let kind = schema::kind(schema, x);
    match wanted {
        Wanted::Text => kind == schema::TEXT,
        Wanted::AttributeSharing(class) => {
            if kind == schema::ATTRIBUTE {
                share_name(schema, class, schema::child_a(schema, x))
            } else {
                false
            }
        }
        Wanted::RefSharing(class) => {
            if kind == schema::REF {
                share_name_once(schema, class, class_referred(schema, x), compared)
            } else {
                false
            }
        }
        Wanted::AttributeMeeting(q) => {
            if kind == schema::ATTRIBUTE {
                let class = schema::child_a(schema, x);
                occurs(schema, Wanted::AttributeSharing(class), q, compared)
            } else {
                false
            }
        }
        Wanted::RefMeeting(q) => {
            if kind == schema::REF {
                let class = class_referred(schema, x);
                occurs(schema, Wanted::RefSharing(class), q, compared)
            } else {
                false
            }
        }
    }
}

// The name class of the element that the ref at row x refers to.
fn class_referred(schema: &[u32], x: u32) -> u32
    ensures { result ≡ class_referred schema.now x }
{
    schema::child_a(schema, schema::field_a(schema, x))
}

// Whether what is wanted occurs in the pattern at a row.
#[cycle(occurs_occurs_child_suits)]
fn occurs(schema: &[u32], wanted: Wanted, p: u32, compared: &mut [u64]) -> bool
    requires { SizeRight schema.now × Compared schema.now compared.old }
    ensures { Decides (Somewhere schema.now (Suits schema.now wanted) p) result
        × Compared schema.now compared.new }
{
    if suits(schema, wanted, p, compared) {
        return true;
    }
    let kind = schema::kind(schema, p);
    if kind < schema::ONE_OR_MORE {
        return false;
    }
    if schema::INTERLEAVE < kind {
        return false;
    }
    if occurs_child(schema, wanted, p, schema::child_a(schema, p), compared) {
        return true;
    }
    occurs_child(schema, wanted, p, schema::child_b(schema, p), compared)
}

// Whether what is wanted occurs in a child of a row, a smaller one.
#[cycle(occurs_occurs_child_suits)]
fn occurs_child(
    schema: &[u32],
    wanted: Wanted,
    parent: u32,
    child: u32,
    compared: &mut [u64],
) -> bool
    requires { SizeRight schema.now × Compared schema.now compared.old }
    ensures { Decides ((child < parent) × Somewhere schema.now (Suits schema.now wanted) child) result
        × Compared schema.now compared.new }
{
    if child < parent {
        occurs(schema, wanted, child, compared)
    } else {
        false
    }
}

// Whether row r breaks a restriction on attributes, with a table of the rows below a oneOrMore. Two attributes meet at
// one row only, so their comparison is not remembered.
fn attribute_fault(schema: &[u32], repeated: &[u32], r: u32) -> bool
    requires { SizeRight schema.now × MarksExactly (Under schema.now (HasKind schema.now one_or_more)) repeated.now × (r < rows_of schema.now) }
    ensures { Decides (AttributeFault schema.now r) result }
{
    let kind = schema::kind(schema, r);
    if schema_places::is_sharing(kind) {
        let mut unused = [0u64; 1];
        return occurs(
            schema,
            Wanted::AttributeMeeting(schema::child_b(schema, r)),
            schema::child_a(schema, r),
            &mut unused,
        );
    }
    if kind != schema::ATTRIBUTE {
        return false;
    }
    if tables::at(repeated, r as usize) == 1 {
        return false;
    }
    infinite(schema, schema::child_a(schema, r))
}

// Whether row r breaks a restriction on interleave.
fn interleave_fault(schema: &[u32], r: u32, compared: &mut [u64]) -> bool
    requires { SizeRight schema.now × Compared schema.now compared.old }
    ensures { Decides (InterleaveFault schema.now r) result × Compared schema.now compared.new }
{
    let kind = schema::kind(schema, r);
    if kind != schema::INTERLEAVE {
        return false;
    }
    let a = schema::child_a(schema, r);
    let b = schema::child_b(schema, r);
    if occurs(schema, Wanted::RefMeeting(b), a, compared) {
        return true;
    }
    if occurs(schema, Wanted::Text, a, compared) {
        occurs(schema, Wanted::Text, b, compared)
    } else {
        false
    }
}

// The first row that breaks a restriction on attributes, with a table of the rows below a oneOrMore.
fn scan_attributes(schema: &[u32], repeated: &[u32]) -> Result<(), u32>
    requires { SizeRight schema.now × MarksExactly (Under schema.now (HasKind schema.now one_or_more)) repeated.now }
    ensures { Finds (AttributeFault schema.now) result }
{
    for r in 0..(schema.len() / 3) as u32 {
        if attribute_fault(schema, repeated, r) {
            return Err(r);
        }
    }
    Ok(())
}

// The first row that breaks a restriction on attributes.
fn first_attribute(schema: &[u32]) -> Result<(), u32>
    requires { SizeRight schema.now }
    ensures { Finds (AttributeFault schema.now) result }
{
    let mut repeated = [0u32; schema::MAX_ROWS];
    schema_places::mark_under(schema, schema::ONE_OR_MORE, &mut repeated);
    scan_attributes(schema, &repeated)
}

// Code 7, of any table: a wrong size is a fault at row 0; in a table of the right size the first row that breaks a
// restriction on attributes is one. `Ok` exactly when there is neither.
pub fn check_attributes(schema: &[u32]) -> Result<(), u32>
    ensures { Finds (SizedFault schema.now (AttributeFault schema.now)) result }
{
    schema::check_size(schema)?;
    first_attribute(schema)
}

// The first interleave that breaks a restriction on interleave, with a table of the classes that share no name.
fn scan_interleaves(schema: &[u32], compared: &mut [u64]) -> Result<(), u32>
    requires { SizeRight schema.now × Compared schema.now compared.old }
    ensures { Finds (InterleaveFault schema.now) result }
{
    for r in 0..(schema.len() / 3) as u32 {
        if interleave_fault(schema, r, compared) {
            return Err(r);
        }
    }
    Ok(())
}

// The first interleave that breaks a restriction on interleave.
// Two classes are compared once in each order, however often refs to their elements meet.
fn first_interleave(schema: &[u32]) -> Result<(), u32>
    requires { SizeRight schema.now }
    ensures { Finds (InterleaveFault schema.now) result }
{
    let mut compared = [0u64; 4096];
    scan_interleaves(schema, &mut compared)
}

// Code 8, of any table: a wrong size is a fault at row 0; in a table of the right size the first interleave that breaks
// a restriction on interleave is one. `Ok` exactly when there is neither.
pub fn check_interleaves(schema: &[u32]) -> Result<(), u32>
    ensures { Finds (SizedFault schema.now (InterleaveFault schema.now)) result }
{
    schema::check_size(schema)?;
    first_interleave(schema)
}
