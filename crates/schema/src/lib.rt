// Schema rows: what a row of each kind holds, its children, what a field may hold, the size of a table, and the rows of
// the definitions.
#![tactic(auto)]

ghost use Rattle.std.specs.Prelude.{◌≡◌, cond, ◌+◌, ◌≤◌, ◌<◌, length, set, drop};
ghost use Rattle.tables.specs.Checks.{Finds};
ghost use Rattle.schema.specs.Kinds.{no_row};
ghost use Rattle.schema.specs.Rows.{rows_of, kind_of, a_of, b_of, shape, shape_of, sort_of, is_class};
ghost use Rattle.schema.specs.Rows.{names, child_a, child_b};
ghost use Rattle.schema.specs.RowRule.{max_rows, field_right, SizeFault};
ghost use Rattle.schema.specs.Definitions.{is_definition, Definitions};
ghost use Rattle.schema.specs.Marks.{mark_if, children_marked};

pub const MAX_ROWS: usize = 512;

// `-` of FORMAT, "Schema rows": no row.
pub const NO_ROW: u32 = 4294967295;

// The kinds of schema rows, by their numbers in FORMAT, "Schema rows".
pub const EMPTY: u32 = 1;

pub const NOT_ALLOWED: u32 = 2;

pub const TEXT: u32 = 3;

pub const DATA: u32 = 4;

pub const VALUE: u32 = 5;

pub const LIST: u32 = 6;

pub const ATTRIBUTE: u32 = 7;

pub const REF: u32 = 8;

pub const ONE_OR_MORE: u32 = 9;

pub const CHOICE: u32 = 10;

pub const GROUP: u32 = 11;

pub const INTERLEAVE: u32 = 12;

pub const ANY_NAME: u32 = 16;

pub const NS_NAME: u32 = 17;

pub const NAME: u32 = 18;

pub const NAME_CHOICE: u32 = 19;

pub const ELEMENT: u32 = 20;

pub const START: u32 = 21;

// What a row is.
#[derive(Clone, Copy, Debug, PartialEq, Eq)]
pub enum Sort {
    Pattern,
    NameClass,
    Element,
    Start,
    Bad,
}

// What a field of a row holds: a pattern or a name class, at a smaller row; such a row or none; the row of a
// definition; a datatype; the number of a string, or of a local name.
#[derive(Clone, Copy, Debug, PartialEq, Eq)]
pub enum Field {
    Unused,
    APattern,
    PatternOrNone,
    AClass,
    ClassOrNone,
    Definition,
    Datatype,
    StringNumber,
    Local,
}

// What a row of a kind is, and what its fields hold.
#[derive(Clone, Copy, Debug, PartialEq, Eq)]
pub struct Shape {
    pub sort: Sort,
    pub a: Field,
    pub b: Field,
}

// The first word of a row, its kind; 0 past the end.
pub fn kind(schema: &[u32], row: u32) -> u32
    ensures { result ≡ kind_of schema.now row }
{
    tables::at(schema, row as usize * 3)
}

// The second word of a row; 0 past the end.
pub fn field_a(schema: &[u32], row: u32) -> u32
    ensures { result ≡ a_of schema.now row }
{
    tables::at(schema, row as usize * 3 + 1)
}

// The third word of a row; 0 past the end.
pub fn field_b(schema: &[u32], row: u32) -> u32
    ensures { result ≡ b_of schema.now row }
{
    tables::at(schema, row as usize * 3 + 2)
}

// The first fault of code 2 that is one of the whole table, at row 0: no row, more than 512, or words that are no whole
// rows. `Ok` exactly when there is none.
pub fn check_size(schema: &[u32]) -> Result<(), u32>
    ensures { Finds (SizeFault schema.now) result }
{
    let rows = schema.len() / 3;
    if rows == 0 || MAX_ROWS < rows || schema.len() % 3 != 0 {
        return Err(0);
    }
    Ok(())
}

// No literal of Shape, since that has a line for each field and the table of kinds one for each kind.
fn made(sort: Sort, a: Field, b: Field) -> Shape
    ensures { result ≡ shape sort a b }
{
    Shape { sort, a, b }
}

// What a row of a kind is, and what its fields hold.
#[tactic(auto, unfolding(crate::specs::Rows::shape_of))]
pub fn shape_of(kind: u32) -> Shape
    ensures { result ≡ shape_of kind }
{
    match kind {
        EMPTY..=TEXT => made(Sort::Pattern, Field::Unused, Field::Unused),
        DATA => made(Sort::Pattern, Field::Datatype, Field::PatternOrNone),
        VALUE => made(Sort::Pattern, Field::Datatype, Field::StringNumber),
        LIST => made(Sort::Pattern, Field::APattern, Field::Unused),
        ATTRIBUTE => made(Sort::Pattern, Field::AClass, Field::APattern),
        REF => made(Sort::Pattern, Field::Definition, Field::Unused),
        ONE_OR_MORE => made(Sort::Pattern, Field::APattern, Field::Unused),
        CHOICE..=INTERLEAVE => made(Sort::Pattern, Field::APattern, Field::APattern),
        ANY_NAME => made(Sort::NameClass, Field::ClassOrNone, Field::Unused),
        NS_NAME => made(Sort::NameClass, Field::StringNumber, Field::ClassOrNone),
        NAME => made(Sort::NameClass, Field::StringNumber, Field::Local),
        NAME_CHOICE => made(Sort::NameClass, Field::AClass, Field::AClass),
        ELEMENT => made(Sort::Element, Field::AClass, Field::APattern),
        START => made(Sort::Start, Field::APattern, Field::Unused),
        _ => made(Sort::Bad, Field::Unused, Field::Unused),
    }
}

fn sort_at(schema: &[u32], row: u32) -> Sort
    ensures { result ≡ sort_of schema.now row }
{
    shape_of(kind(schema, row)).sort
}

// Yes exactly for a row that is a name class.
pub fn is_class_row(schema: &[u32], row: u32) -> bool
    ensures { result ≡ is_class (sort_of schema.now row) }
{
    sort_at(schema, row) == Sort::NameClass
}

// Whether the word x in a field of row p names a child.
fn names_child(schema: &[u32], p: u32, field: Field, x: u32) -> bool
    ensures { result ≡ names schema.now p field x }
{
    match field {
        Field::APattern | Field::PatternOrNone => x < p && sort_at(schema, x) == Sort::Pattern,
        Field::AClass | Field::ClassOrNone => x < p && sort_at(schema, x) == Sort::NameClass,
        _ => false,
    }
}

// The child that a field of row p names by the word x; NO_ROW where it names none.
fn child(schema: &[u32], p: u32, field: Field, x: u32) -> u32
    ensures { result ≡ cond (names schema.now p field x) x no_row }
{
    if names_child(schema, p, field, x) {
        x
    } else {
        NO_ROW
    }
}

// The child through field a, a smaller row; NO_ROW where the field is bad or holds no child.
pub fn child_a(schema: &[u32], p: u32) -> u32
    ensures { result ≡ child_a schema.now p }
{
    child(schema, p, shape_of(kind(schema, p)).a, field_a(schema, p))
}

// The child through field b, a smaller row; NO_ROW where the field is bad or holds no child.
pub fn child_b(schema: &[u32], p: u32) -> u32
    ensures { result ≡ child_b schema.now p }
{
    child(schema, p, shape_of(kind(schema, p)).b, field_b(schema, p))
}

// Row r is marked where it is wanted.
fn mark_if(marks: &mut [u32], wanted: bool, r: u32)
    ensures { marks.new ≡ mark_if wanted r marks.old }
{
    if wanted {
        tables::put(marks, r as usize, 1);
    }
}

// Of any table of marks: the child of row p through field a gets the word 1 where the first is wanted, then the one
// through field b where the second is. Past the end of the marks nothing is stored, and no other word changes.
pub fn mark_children(schema: &[u32], marks: &mut [u32], p: u32, a: bool, b: bool)
    ensures { marks.new ≡ children_marked schema.now p a b marks.old }
{
    mark_if(marks, a, child_a(schema, p));
    mark_if(marks, b, child_b(schema, p));
}

// Whether a field of row p may hold the word x, in a table beside so many strings: a smaller row of the right sort or
// none, a definition, a datatype or a string, as the field asks.
pub fn field_right(strings: usize, schema: &[u32], p: u32, field: Field, x: u32) -> bool
    ensures { result ≡ field_right strings schema.now p field x }
{
    match field {
        Field::Unused => x == 0,
        Field::APattern | Field::AClass => names_child(schema, p, field, x),
        Field::PatternOrNone | Field::ClassOrNone => x == NO_ROW
            || names_child(schema, p, field, x),
        Field::Definition => sort_at(schema, x) == Sort::Element,
        Field::Datatype => x < 2,
        Field::StringNumber => (x as usize) < strings,
        Field::Local => 0 < x && (x as usize) < strings,
    }
}

// Row d becomes word n where it is a definition; how many definitions there are then, when there were n.
fn add_definition(schema: &[u32], d: u32, n: u32, rows: &mut [u32]) -> u32
    requires { n < max_rows }
    ensures value { result ≡ n + cond (is_definition schema.now d) 1 0 }
    ensures stored { rows.new ≡ cond (is_definition schema.now d) (set rows.old n d) rows.old }
{
    if kind(schema, d) == ELEMENT {
        tables::put(rows, n as usize, d);
        return n + 1;
    }
    n
}

// The rows of the definitions at the front of rows, in rising order, each once, and how many there are. The words after
// them are as they were. The caller shows that there are at most 512 rows and room for as many.
pub fn definitions(schema: &[u32], rows: &mut [u32]) -> u32
    requires { (rows_of schema.now ≤ max_rows) × (max_rows ≤ length rows.old) }
    ensures definitions { Definitions schema.now rows.new result }
    ensures rest { drop result rows.new ≡ drop result rows.old }
{
    let mut n = 0;
    for d in 0..(schema.len() / 3) as u32 {
        n = add_definition(schema, d, n, rows);
    }
    n
}
