// Where patterns and name classes may not stand: empty and notAllowed (code 3), anyName and nsName (code 4), and the
// prohibited paths (code 5). A pass over the parents marks the rows that are out of place, or below a row of a kind, or
// below marked rows; a search of the marks finds the first fault.
#![tactic(auto)]

ghost use Rattle.std.specs.Prelude.{◌≡◌, ◌≤◌, length};
ghost use Rattle.tables.specs.Answers.{Decides};
ghost use Rattle.tables.specs.Checks.{Finds};
ghost use Rattle.schema.specs.Marks.{Adds};
ghost use Rattle.schema.specs.RowRule.{max_rows, SizedFault};
ghost use Rattle.schema.specs.Rows.{rows_of};
ghost use Rattle.schema_places.specs.Marks.{MarksExactly, MarkRoom, ChildThat, Under};
ghost use Rattle.schema_places.specs.Sources.{HasKind, IsSource, MarksChildren};
ghost use Rattle.schema_places.specs.Places.{holds_whole, empty_fits, PlaceFault};
ghost use Rattle.schema_places.specs.Misplaced.{Misplaced};
ghost use Rattle.schema_places.specs.Names.{NameFault};
ghost use Rattle.schema_places.specs.Paths.{sharing_kind, not_in_attribute, not_in_list};
ghost use Rattle.schema_places.specs.Paths.{not_in_except, not_in_start, PathFault};
ghost use Rattle.schema_places.specs.Prohibited.{is_prohibited, MarkedKind, Prohibited, RepeatedSharing, earliest};

// Which rows mark those below them: the rows of a kind, or the groups and interleaves that a table marks.
#[derive(Clone, Copy)]
enum Source<'a> {
    OfKind(u32),
    SharingIn(&'a [u32]),
}

// Yes exactly for the kinds group and interleave.
pub fn is_sharing(kind: u32) -> bool
    ensures { result ≡ sharing_kind kind }
{
    matches!(kind, schema::GROUP | schema::INTERLEAVE)
}

fn is_source(schema: &[u32], source: Source, p: u32) -> bool
    ensures { Decides (IsSource schema.now source.entry p) result }
{
    let kind = schema::kind(schema, p);
    match source {
        Source::OfKind(wanted) => kind == wanted,
        Source::SharingIn(marks) => is_sharing(kind) && tables::at(marks, p as usize) == 1,
    }
}

// Whether the children of row p are below a source: p is one, or is below one.
fn passes(schema: &[u32], source: Source, below: &[u32], p: u32) -> bool
    ensures { Decides (MarksChildren schema.now source.entry below.now p) result }
{
    is_source(schema, source, p) || tables::at(below, p as usize) == 1
}

fn pass_below(schema: &[u32], source: Source, below: &mut [u32], p: u32)
    requires { (p ≤ max_rows) × (length below.old ≡ max_rows) }
    ensures { Adds (ChildThat schema.now p (λ r. MarksChildren schema.now source.entry below.old p))
        below.old below.new }
{
    let on = passes(schema, source, below, p);
    schema::mark_children(schema, below, p, on, on);
}

// Marks the rows below a source.
// Parents are larger than their children, so that a row is passed when its own mark is final.
// A last row that lacks fields is passed too.
fn mark_below(schema: &[u32], source: Source, below: &mut [u32])
    requires { MarkRoom schema.now below.old }
    ensures { MarksExactly (Under schema.now (IsSource schema.now source.entry)) below.new }
{
    tables::zero(below);
    for p in (0..(schema.len() / 3 + 1) as u32).rev() {
        pass_below(schema, source, below, p);
    }
}

// 1 at the rows below a row of a kind, and 0 at every other word. The caller shows that there are at most 512 rows, and
// 512 marks.
pub fn mark_under(schema: &[u32], kind: u32, below: &mut [u32])
    requires { MarkRoom schema.now below.old }
    ensures { MarksExactly (Under schema.now (HasKind schema.now kind)) below.new }
{
    mark_below(schema, Source::OfKind(kind), below);
}

// The kinds that are prohibited at a marked row: any kind, or what may not stand below an anyName, an nsName,
// an attribute, a group or interleave in a oneOrMore, a list, a data, the start.
#[derive(Clone, Copy, Debug, PartialEq, Eq)]
enum Prohibition {
    AnyKind,
    NotInAnyName,
    NotInNsName,
    NotInAttribute,
    NotInRepeated,
    NotInList,
    NotInExcept,
    NotInStart,
}

fn not_in_attribute(kind: u32) -> bool
    ensures { result ≡ not_in_attribute kind }
{
    matches!(kind, schema::REF | schema::ATTRIBUTE)
}

fn not_in_list(kind: u32) -> bool
    ensures { result ≡ not_in_list kind }
{
    matches!(
        kind,
        schema::LIST | schema::REF | schema::ATTRIBUTE | schema::TEXT | schema::INTERLEAVE
    )
}

fn not_in_except(kind: u32) -> bool
    ensures { result ≡ not_in_except kind }
{
    is_sharing(kind)
        || matches!(
            kind,
            schema::ATTRIBUTE
                | schema::REF
                | schema::TEXT
                | schema::LIST
                | schema::ONE_OR_MORE
                | schema::EMPTY
        )
}

fn not_in_start(kind: u32) -> bool
    ensures { result ≡ not_in_start kind }
{
    is_sharing(kind)
        || matches!(
            kind,
            schema::ATTRIBUTE
                | schema::DATA
                | schema::VALUE
                | schema::LIST
                | schema::TEXT
                | schema::ONE_OR_MORE
                | schema::EMPTY
        )
}

fn is_prohibited(prohibition: Prohibition, kind: u32) -> bool
    ensures { result ≡ is_prohibited prohibition kind }
{
    match prohibition {
        Prohibition::AnyKind => true,
        Prohibition::NotInAnyName => kind == schema::ANY_NAME,
        Prohibition::NotInNsName => matches!(kind, schema::ANY_NAME | schema::NS_NAME),
        Prohibition::NotInAttribute => not_in_attribute(kind),
        Prohibition::NotInRepeated => kind == schema::ATTRIBUTE,
        Prohibition::NotInList => not_in_list(kind),
        Prohibition::NotInExcept => not_in_except(kind),
        Prohibition::NotInStart => not_in_start(kind),
    }
}

// The first marked row whose kind is prohibited.
fn first_marked(schema: &[u32], marks: &[u32], prohibition: Prohibition) -> Result<(), u32>
    requires { length marks.now ≤ max_rows }
    ensures { Finds (MarkedKind schema.now marks.now prohibition) result }
{
    for r in 0..marks.len() as u32 {
        if marks[r as usize] == 1 && is_prohibited(prohibition, schema::kind(schema, r)) {
            return Err(r);
        }
    }
    Ok(())
}

fn holds_whole(kind: u32) -> bool
    ensures { result ≡ holds_whole kind }
{
    matches!(kind, schema::ELEMENT | schema::START)
}

fn empty_fits(schema: &[u32], p: u32, row: u32) -> bool
    ensures { result ≡ empty_fits schema.now p row }
{
    match schema::kind(schema, p) {
        schema::ELEMENT | schema::START | schema::ATTRIBUTE | schema::LIST | schema::DATA => true,
        schema::CHOICE => schema::field_a(schema, p) == row,
        _ => false,
    }
}

// Whether row p has no place for a row among its children.
fn misplaced(schema: &[u32], p: u32, row: u32) -> bool
    ensures { Decides (Misplaced schema.now p row) result }
{
    match schema::kind(schema, row) {
        schema::NOT_ALLOWED => !holds_whole(schema::kind(schema, p)),
        schema::EMPTY => !empty_fits(schema, p, row),
        _ => false,
    }
}

fn pass_places(schema: &[u32], bad: &mut [u32], p: u32)
    requires { (p ≤ max_rows) × (length bad.old ≡ max_rows) }
    ensures { Adds (ChildThat schema.now p (Misplaced schema.now p)) bad.old bad.new }
{
    let a = misplaced(schema, p, schema::child_a(schema, p));
    let b = misplaced(schema, p, schema::child_b(schema, p));
    schema::mark_children(schema, bad, p, a, b);
}

// Marks the rows that are out of place. A last row that lacks fields is passed too.
fn mark_places(schema: &[u32], bad: &mut [u32])
    requires { MarkRoom schema.now bad.old }
    ensures { MarksExactly (PlaceFault schema.now) bad.new }
{
    tables::zero(bad);
    for parent in (0..(schema.len() / 3 + 1) as u32).rev() {
        pass_places(schema, bad, parent);
    }
}

// The first empty or notAllowed that is out of place.
fn first_misplaced(schema: &[u32]) -> Result<(), u32>
    requires { rows_of schema.now ≤ max_rows }
    ensures { Finds (PlaceFault schema.now) result }
{
    let mut bad = [0u32; schema::MAX_ROWS];
    mark_places(schema, &mut bad);
    first_marked(schema, &bad, Prohibition::AnyKind)
}

// Code 3, of any table: a wrong size is a fault at row 0; in a table of the right size the first empty or notAllowed
// that is out of place is one. `Ok` exactly when there is neither.
pub fn check_places(schema: &[u32]) -> Result<(), u32>
    ensures { Finds (SizedFault schema.now (PlaceFault schema.now)) result }
{
    schema::check_size(schema)?;
    first_misplaced(schema)
}

// The first of two faults.
fn earlier(a: Result<(), u32>, b: Result<(), u32>) -> Result<(), u32>
    ensures { result ≡ earliest a b }
{
    match (a, b) {
        (Err(x), Err(y)) => Err(x.min(y)),
        (Err(_), Ok(())) => a,
        (Ok(()), _) => b,
    }
}

// The first row below a row of a kind whose own kind is prohibited there.
fn first_below(schema: &[u32], above: u32, prohibition: Prohibition) -> Result<(), u32>
    requires { rows_of schema.now ≤ max_rows }
    ensures { Finds (Prohibited schema.now (HasKind schema.now above) prohibition) result }
{
    let mut below = [0u32; schema::MAX_ROWS];
    mark_under(schema, above, &mut below);
    first_marked(schema, &below, prohibition)
}

// The first attribute with a group or interleave above it that has a oneOrMore above itself.
fn first_repeated(schema: &[u32]) -> Result<(), u32>
    requires { rows_of schema.now ≤ max_rows }
    ensures { Finds (Prohibited schema.now (RepeatedSharing schema.now) Prohibition.NotInRepeated) result }
{
    let mut repeated = [0u32; schema::MAX_ROWS];
    mark_under(schema, schema::ONE_OR_MORE, &mut repeated);
    let mut below = [0u32; schema::MAX_ROWS];
    mark_below(schema, Source::SharingIn(&repeated), &mut below);
    first_marked(schema, &below, Prohibition::NotInRepeated)
}

// The first row on a prohibited path.
fn first_prohibited(schema: &[u32]) -> Result<(), u32>
    requires { rows_of schema.now ≤ max_rows }
    ensures { Finds (PathFault schema.now) result }
{
    let attribute = first_below(schema, schema::ATTRIBUTE, Prohibition::NotInAttribute);
    let repeated = first_repeated(schema);
    let list = first_below(schema, schema::LIST, Prohibition::NotInList);
    let except = first_below(schema, schema::DATA, Prohibition::NotInExcept);
    let start = first_below(schema, schema::START, Prohibition::NotInStart);
    earlier(
        earlier(attribute, repeated),
        earlier(list, earlier(except, start)),
    )
}

// The first anyName or nsName in an except that has no place for it.
fn first_name(schema: &[u32]) -> Result<(), u32>
    requires { rows_of schema.now ≤ max_rows }
    ensures { Finds (NameFault schema.now) result }
{
    let any = first_below(schema, schema::ANY_NAME, Prohibition::NotInAnyName);
    let ns = first_below(schema, schema::NS_NAME, Prohibition::NotInNsName);
    earlier(any, ns)
}

// Code 4, of any table: a wrong size is a fault at row 0; in a table of the right size the first anyName or nsName
// where an except has no place for it is one. `Ok` exactly when there is neither.
pub fn check_names(schema: &[u32]) -> Result<(), u32>
    ensures { Finds (SizedFault schema.now (NameFault schema.now)) result }
{
    schema::check_size(schema)?;
    first_name(schema)
}

// Code 5, of any table: a wrong size is a fault at row 0; in a table of the right size the first row on a prohibited
// path is one. `Ok` exactly when there is neither.
pub fn check_paths(schema: &[u32]) -> Result<(), u32>
    ensures { Finds (SizedFault schema.now (PathFault schema.now)) result }
{
    schema::check_size(schema)?;
    first_prohibited(schema)
}
