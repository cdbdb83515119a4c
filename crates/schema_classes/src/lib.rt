// Name classes: membership with the row that says so, and the least name that two classes have in common.
#![tactic(auto)]

ghost use Rattle.std.specs.Prelude.{◌≡◌, ◌≤◌, ◌<◌};
ghost use Rattle.tables.specs.Answers.{Decides};
ghost use Rattle.schema.specs.Kinds as kind;
ghost use Rattle.schema.specs.RowRule.{max_rows};
ghost use Rattle.schema.specs.Rows.{rows_of, kind_of};
ghost use Rattle.schema_classes.specs.Membership.{in_class};
ghost use Rattle.schema_classes.specs.WhichRow.{Judged};
ghost use Rattle.schema_classes.specs.Judging.{unless_excepted, choice_of, JudgedBelow};
ghost use Rattle.schema_classes.specs.Least.{Common, LeastCommon};
ghost use Rattle.schema_classes.specs.Search.{NsNameMentions, NameMentions, Mentions, MentionsBelow, OneMentions};
ghost use Rattle.schema_classes.specs.Search.{Lowered, NextNumber, least_of, FreshNumber, ToTry};
ghost use Rattle.schema_classes.specs.Search.{ToldApart, SmallerToldApart, LeastBeside};

// Whether a name is in a class, and the row that says so: for yes the smallest that takes the name in, for no the
// smallest except class that shuts it out, or NO_ROW where none does. Two answers of one kind: no is no error.
#[derive(Clone, Copy, Debug, PartialEq, Eq)]
pub enum Member {
    Yes(u32),
    No(u32),
}

// A name, by the numbers of its namespace and its local name.
#[derive(Clone, Copy, Debug, PartialEq, Eq)]
pub struct Name {
    pub namespace: u32,
    pub local: u32,
}

// A part of a name: the namespace, or the local number beside a namespace.
#[derive(Clone, Copy, Debug, PartialEq, Eq)]
enum Part {
    Namespace,
    LocalBeside(u32),
}

// None, as a bound above every number of a name: the least of some numbers and none is then the least by <, and no
// match stands at each.
const NO_NUMBER: u64 = 4294967296;

// What an anyName, or an nsName of the name's namespace, at a row says, by what its except says. A name that the except
// holds is shut out by the except class, not by a row inside it.
fn unless_excepted(row: u32, except: u32, held: Member) -> Member
    ensures { result ≡ unless_excepted row except held }
{
    match held {
        Member::Yes(_inside) => Member::No(except),
        Member::No(_) => Member::Yes(row),
    }
}

// What a choice says, by what its members say.
fn choice_of(first: Member, second: Member) -> Member
    ensures { result ≡ choice_of first second }
{
    match first {
        Member::Yes(p) => match second {
            Member::Yes(q) => Member::Yes(p.min(q)),
            Member::No(_) => Member::Yes(p),
        },
        Member::No(p) => match second {
            Member::Yes(q) => Member::Yes(q),
            Member::No(q) => Member::No(p.min(q)),
        },
    }
}

// What a single name at a row says of a name.
fn name_holds(schema: &[u32], row: u32, namespace: u32, local: u32) -> Member
    requires { (0 < local) × (kind_of schema.now row ≡ kind.name) }
    ensures { Judged schema.now namespace local row result }
{
    if schema::field_a(schema, row) == namespace && schema::field_b(schema, row) == local {
        return Member::Yes(row);
    }
    Member::No(schema::NO_ROW)
}

// What the class at a row, which is no single name, says of a name. A row that is no class holds none.
#[cycle(class_holds_smaller_holds)]
fn class_holds(schema: &[u32], row: u32, namespace: u32, local: u32) -> Member
    requires { (0 < local) × (¬ (kind_of schema.now row ≡ kind.name)) }
    ensures { Judged schema.now namespace local row result }
{
    let a = schema::field_a(schema, row);
    let b = schema::field_b(schema, row);
    match schema::kind(schema, row) {
        schema::ANY_NAME => {
            unless_excepted(row, a, smaller_holds(schema, row, a, namespace, local))
        }
        schema::NS_NAME => {
            if namespace == a {
                unless_excepted(row, b, smaller_holds(schema, row, b, namespace, local))
            } else {
                Member::No(schema::NO_ROW)
            }
        }
        schema::NAME_CHOICE => choice_of(
            smaller_holds(schema, row, a, namespace, local),
            smaller_holds(schema, row, b, namespace, local),
        ),
        _ => Member::No(schema::NO_ROW),
    }
}

// What the class at a smaller row than its parent, an except or a member of a choice, says of a name. A field that is
// no smaller row, as NO_ROW, holds none. Most classes are single names: these are judged here, without a call for each.
// The answer of a call is made anew, so that the others need not pass through the memory that it comes in.
#[cycle(class_holds_smaller_holds)]
fn smaller_holds(schema: &[u32], parent: u32, row: u32, namespace: u32, local: u32) -> Member
    requires { 0 < local }
    ensures { JudgedBelow schema.now namespace local parent row result }
{
    if row >= parent {
        return Member::No(schema::NO_ROW);
    }
    if schema::kind(schema, row) == schema::NAME {
        return name_holds(schema, row, namespace, local);
    }
    match class_holds(schema, row, namespace, local) {
        Member::Yes(by) => Member::Yes(by),
        Member::No(by) => Member::No(by),
    }
}

// Whether the class at a row holds a name, and which row says so. No class holds a name whose local is 0.
pub fn membership(schema: &[u32], row: u32, namespace: u32, local: u32) -> Member
    ensures { Judged schema.now namespace local row result }
{
    if local == 0 {
        return Member::No(schema::NO_ROW);
    }
    if schema::kind(schema, row) == schema::NAME {
        return name_holds(schema, row, namespace, local);
    }
    class_holds(schema, row, namespace, local)
}

// Yes exactly when the class at a row holds a name: membership without its row.
pub fn in_class(schema: &[u32], row: u32, namespace: u32, local: u32) -> bool
    ensures { result ≡ in_class schema.now namespace local row }
{
    matches!(membership(schema, row, namespace, local), Member::Yes(_))
}

// The number, where it is from `from` on and less than the best so far; else the best.
fn nearer(number: u32, from: u64, best: u64) -> u64
    ensures { Lowered (λ v. number ≡ v) from best result }
{
    let wide = number as u64;
    if wide < from { best } else { wide.min(best) }
}

// What an nsName of a namespace mentions.
fn namespace_mention(namespace: u32, part: Part, from: u64, best: u64) -> u64
    ensures { Lowered (NsNameMentions namespace part) from best result }
{
    match part {
        Part::Namespace => nearer(namespace, from, best),
        Part::LocalBeside(_) => best,
    }
}

// What a name mentions.
fn name_mention(namespace: u32, local: u32, part: Part, from: u64, best: u64) -> u64
    ensures { Lowered (NameMentions namespace local part) from best result }
{
    match part {
        Part::Namespace => nearer(namespace, from, best),
        Part::LocalBeside(beside) => {
            if namespace == beside {
                nearer(local, from, best)
            } else {
                best
            }
        }
    }
}

// The least number from `from` on that the class at a row mentions, its excepts too, where it is less than the best so
// far; else the best.
#[cycle(mention_smaller_mention)]
fn mention(schema: &[u32], row: u32, part: Part, from: u64, best: u64) -> u64
    ensures { Lowered (Mentions schema.now part row) from best result }
{
    let a = schema::field_a(schema, row);
    let b = schema::field_b(schema, row);
    match schema::kind(schema, row) {
        schema::ANY_NAME => smaller_mention(schema, row, a, part, from, best),
        schema::NS_NAME => {
            let own = namespace_mention(a, part, from, best);
            smaller_mention(schema, row, b, part, from, own)
        }
        schema::NAME => name_mention(a, b, part, from, best),
        schema::NAME_CHOICE => {
            let left = smaller_mention(schema, row, a, part, from, best);
            smaller_mention(schema, row, b, part, from, left)
        }
        _ => best,
    }
}

// The same of a class in a field of its parent. A field that is no smaller row, as NO_ROW, mentions nothing.
#[cycle(mention_smaller_mention)]
fn smaller_mention(schema: &[u32], parent: u32, row: u32, part: Part, from: u64, best: u64) -> u64
    ensures { Lowered (MentionsBelow schema.now part parent row) from best result }
{
    if row < parent {
        mention(schema, row, part, from, best)
    } else {
        best
    }
}

// The least number from `from` on that one of two classes mentions, or NO_NUMBER.
fn next_mention(schema: &[u32], first: u32, second: u32, part: Part, from: u64) -> u64
    ensures { NextNumber (OneMentions schema.now first second part) from result }
{
    let best = mention(schema, first, part, from, NO_NUMBER);
    mention(schema, second, part, from, best)
}

// Namespaces count from 0, local numbers from 1.
fn least_of(part: Part) -> u64
    ensures { result ≡ least_of part }
{
    match part {
        Part::Namespace => 0,
        Part::LocalBeside(_) => 1,
    }
}

// The least number that neither class mentions.
fn fresh(schema: &[u32], first: u32, second: u32, part: Part) -> u64
    requires { rows_of schema.now ≤ max_rows }
    ensures { FreshNumber (OneMentions schema.now first second part) (least_of part) result }
{
    let mut number = least_of(part);
    while next_mention(schema, first, second, part, number) == number {
        number += 1;
    }
    number
}

// The next number to try from `from` on, or NO_NUMBER: each up to the fresh one, since those before it are all
// mentioned, and above it those that are mentioned.
fn next_number(schema: &[u32], first: u32, second: u32, part: Part, fresh: u64, from: u64) -> u64
    requires { FreshNumber (OneMentions schema.now first second part) (least_of part) fresh × (least_of part ≤ from) }
    ensures { NextNumber (ToTry schema.now first second part) from result }
{
    if from <= fresh {
        from
    } else {
        next_mention(schema, first, second, part, from)
    }
}

fn both_hold(schema: &[u32], first: u32, second: u32, namespace: u32, local: u32) -> bool
    ensures { Decides (Common schema.now first second namespace local) result }
{
    in_class(schema, first, namespace, local) && in_class(schema, second, namespace, local)
}

// The least name of a namespace that both classes hold. Only the names of that namespace tell its local numbers apart:
// those that they mention are tried, and the least that they do not.
fn try_namespace(schema: &[u32], first: u32, second: u32, namespace: u32) -> Option<Name>
    requires { rows_of schema.now ≤ max_rows }
    ensures { LeastBeside schema.now first second namespace result }
{
    let part = Part::LocalBeside(namespace);
    let fresh = fresh(schema, first, second, part);
    let mut local = least_of(part);
    while local < NO_NUMBER {
        if both_hold(schema, first, second, namespace, local as u32) {
            return Some(Name {
                namespace,
                local: local as u32,
            });
        }
        local = next_number(schema, first, second, part, fresh, local + 1);
    }
    None
}

// The least name that both classes hold, tried namespace by namespace.
fn try_namespaces(schema: &[u32], first: u32, second: u32) -> Option<Name>
    requires { rows_of schema.now ≤ max_rows }
    ensures { LeastCommon schema.now first second result }
{
    let part = Part::Namespace;
    let fresh = fresh(schema, first, second, part);
    let mut namespace = least_of(part);
    while namespace < NO_NUMBER {
        if let Some(name) = try_namespace(schema, first, second, namespace as u32) {
            return Some(name);
        }
        namespace = next_number(schema, first, second, part, fresh, namespace + 1);
    }
    None
}

// Whether the class at a row is one name or a choice of names, none of which another class holds: then the two have no
// name in common, and no search is needed to tell.
#[cycle(apart_smaller_apart)]
fn apart(schema: &[u32], row: u32, class: u32) -> bool
    ensures { ToldApart schema.now row class result }
{
    let a = schema::field_a(schema, row);
    let b = schema::field_b(schema, row);
    match schema::kind(schema, row) {
        schema::NAME => !in_class(schema, class, a, b),
        schema::NAME_CHOICE => smaller_apart(schema, row, a, class)
            && smaller_apart(schema, row, b, class),
        _ => false,
    }
}

// The same of a member of a choice, which is a smaller row.
#[cycle(apart_smaller_apart)]
fn smaller_apart(schema: &[u32], parent: u32, row: u32, class: u32) -> bool
    ensures { SmallerToldApart schema.now parent row class result }
{
    row >= parent || apart(schema, row, class)
}

// The least name that the classes at two rows both hold, over all numbers as namespaces and all from 1 on as locals, or
// nothing where there is none. Most classes are told apart without a search, and an nsName holds names of its namespace
// alone. The caller shows that there are at most 512 rows.
pub fn least_common(schema: &[u32], first: u32, second: u32) -> Option<Name>
    requires { rows_of schema.now ≤ max_rows }
    ensures { LeastCommon schema.now first second result }
{
    if apart(schema, first, second) || apart(schema, second, first) {
        return None;
    }
    if schema::kind(schema, first) == schema::NS_NAME {
        return try_namespace(schema, first, second, schema::field_a(schema, first));
    }
    if schema::kind(schema, second) == schema::NS_NAME {
        return try_namespace(schema, first, second, schema::field_a(schema, second));
    }
    try_namespaces(schema, first, second)
}
