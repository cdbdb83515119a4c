// The relation of a pattern over the attributes and items of one element, on the m positions between the items.
#![tactic(auto)]

ghost use Rattle.std.specs.Prelude.{◌≡◌, ◌+◌};
ghost use Rattle.schema.specs.Kinds as kind;
ghost use Rattle.schema.specs.Rows.{kind_of};
ghost use Rattle.sets.specs.Bits.{positions};
ghost use Rattle.relations.specs.Words.{Is, WordsRelate, WordRoom, Up, front, Gap, Single};
ghost use Rattle.matching.specs.Parts.{Where, OneIn, Repetition, HoldsLeaf, SharedOut, Operands};
ghost use Rattle.matching.specs.Setting.{Relatable, HoldsRelated};

// No attributes, and no item of stop.
fn no_items(m: u32, a: u64, stop: u64, work: &mut [u64])
    requires { WordRoom m m work.old }
    ensures { Is (front m work.new) (Where (a ≡ 0) (Gap m stop)) }
{
    if a == 0 {
        relations::gaps(m, stop, work);
        return;
    }
    relations::clear(m, work);
}

// No attributes, and one item of all, a marked one.
fn one_item(m: u32, a: u64, all: u64, marked: u64, work: &mut [u64])
    requires { WordRoom m m work.old }
    ensures { Is (front m work.new) (Where (a ≡ 0) (Single m all marked)) }
{
    if a == 0 {
        relations::singles(m, all, marked, work);
        return;
    }
    relations::clear(m, work);
}

// One attribute, a marked one, and no item of k.
fn one_attribute(m: u32, a: u64, marked: u64, k: u64, work: &mut [u64])
    requires { WordRoom m m work.old }
    ensures { Is (front m work.new) (Where (OneIn a marked) (Gap m k)) }
{
    if sets::count(a) == 1 {
        if a & !marked == 0 {
            relations::gaps(m, k, work);
            return;
        }
    }
    relations::clear(m, work);
}

// The relation of a row without operands: mark has the items that it takes, or the attributes.
fn leaf(schema: &[u32], marks: &[u64], m: u32, a: u64, k: u64, p: u32, work: &mut [u64])
    requires { WordRoom m m work.old }
    ensures { HoldsLeaf schema.now marks.now m a k p (front m work.new) }
{
    let mark = sets::word(marks, p);
    let kind = schema::kind(schema, p);
    match kind {
        schema::EMPTY => no_items(m, a, k, work),
        schema::TEXT => no_items(m, a, k & !mark, work),
        schema::DATA | schema::VALUE | schema::LIST | schema::REF => one_item(m, a, k, mark, work),
        schema::ATTRIBUTE => one_attribute(m, a, mark, k, work),
        _ => relations::clear(m, work),
    }
}

// The repetitions of the first relation: alone has the attributes that match by themselves.
fn repeated(m: u32, a: u64, k: u64, alone: u64, work: &mut [u64])
    requires { WordRoom m (positions + positions) work.old × Up (WordsRelate (front m work.old)) }
    ensures { Is (front m work.new) (Repetition m a k alone (WordsRelate (front m work.old))) }
{
    if a & !alone != 0 {
        relations::clear(m, work);
        return;
    }
    relations::close(m, work);
    if a == 0 {
        return;
    }
    relations::gaps(m, k, &mut work[sets::POSITIONS..]);
    relations::union(m, work);
}

// The relations of the operands of row p, one after the other.
#[cycle(choice_group_interleave_one_or_more_operands_relate)]
fn operands(
    schema: &[u32],
    marks: &[u64],
    named: &[u64],
    taken: &[u64],
    single: &[u64],
    m: u32,
    p: u32,
    a1: u64,
    k1: u64,
    a2: u64,
    k2: u64,
    work: &mut [u64],
)
    requires { SharedOut schema.now marks.now named.now taken.now single.now m p a1 k1 a2 k2 work.old }
    ensures { Operands schema.now marks.now named.now taken.now single.now m p a1 k1 a2 k2
        work.new }
{
    let p1 = schema::field_a(schema, p);
    let p2 = schema::field_b(schema, p);
    relate(schema, marks, named, taken, single, m, a1, k1, p1, work);
    relate(
        schema,
        marks,
        named,
        taken,
        single,
        m,
        a2,
        k2,
        p2,
        &mut work[sets::POSITIONS..],
    );
}

// A oneOrMore: its operand without attributes, repeated.
#[cycle(choice_group_interleave_one_or_more_operands_relate)]
fn one_or_more(
    schema: &[u32],
    marks: &[u64],
    named: &[u64],
    taken: &[u64],
    single: &[u64],
    m: u32,
    a: u64,
    k: u64,
    p: u32,
    work: &mut [u64],
)
    requires { (kind_of schema.now p ≡ kind.one_or_more) × Relatable schema.now marks.now named.now taken.now single.now m a k p work.old }
    ensures { HoldsRelated schema.now marks.now named.now taken.now single.now m a k p
        (front m work.new) }
{
    let q = schema::field_a(schema, p);
    relate(schema, marks, named, taken, single, m, 0, k, q, work);
    repeated(m, a, k, sets::word(single, q), work);
}

// A choice: either operand.
#[cycle(choice_group_interleave_one_or_more_operands_relate)]
fn choice(
    schema: &[u32],
    marks: &[u64],
    named: &[u64],
    taken: &[u64],
    single: &[u64],
    m: u32,
    a: u64,
    k: u64,
    p: u32,
    work: &mut [u64],
)
    requires { (kind_of schema.now p ≡ kind.choice) × Relatable schema.now marks.now named.now taken.now single.now m a k p work.old }
    ensures { HoldsRelated schema.now marks.now named.now taken.now single.now m a k p
        (front m work.new) }
{
    operands(schema, marks, named, taken, single, m, p, a, k, a, k, work);
    relations::union(m, work);
}

// A group: the attributes that the first operand names go to it, and the others to the second.
#[cycle(choice_group_interleave_one_or_more_operands_relate)]
fn group(
    schema: &[u32],
    marks: &[u64],
    named: &[u64],
    taken: &[u64],
    single: &[u64],
    m: u32,
    a: u64,
    k: u64,
    p: u32,
    work: &mut [u64],
)
    requires { (kind_of schema.now p ≡ kind.group) × Relatable schema.now marks.now named.now taken.now single.now m a k p work.old }
    ensures { HoldsRelated schema.now marks.now named.now taken.now single.now m a k p
        (front m work.new) }
{
    let n = sets::word(named, schema::field_a(schema, p));
    let a1 = a & n;
    let a2 = a & !n;
    operands(
        schema, marks, named, taken, single, m, p, a1, k, a2, k, work,
    );
    relations::compose(m, work);
}

// An interleave: the same of the attributes, and the items that the first operand takes go to it.
#[cycle(choice_group_interleave_one_or_more_operands_relate)]
fn interleave(
    schema: &[u32],
    marks: &[u64],
    named: &[u64],
    taken: &[u64],
    single: &[u64],
    m: u32,
    a: u64,
    k: u64,
    p: u32,
    work: &mut [u64],
)
    requires { (kind_of schema.now p ≡ kind.interleave) × Relatable schema.now marks.now named.now taken.now single.now m a k p work.old }
    ensures { HoldsRelated schema.now marks.now named.now taken.now single.now m a k p
        (front m work.new) }
{
    let q = schema::field_a(schema, p);
    let n = sets::word(named, q);
    let t = sets::word(taken, q);
    let a1 = a & n;
    let a2 = a & !n;
    let k1 = k & t;
    let k2 = k & !t;
    operands(
        schema, marks, named, taken, single, m, p, a1, k1, a2, k2, work,
    );
    relations::meet(m, work);
}

// The relation of row p in the first m words of work: i and j are related exactly where the attributes a and the items
// of k in [i, j) match its pattern by the rules of 9.3, in every setting in which the words of the pattern's rows are
// right. The words from m on are work space, and left open. The caller shows one such setting, that m is at most 64,
// and that 64 (p + 1) words are lent.
#[cycle(choice_group_interleave_one_or_more_operands_relate)]
pub fn relate(
    schema: &[u32],
    marks: &[u64],
    named: &[u64],
    taken: &[u64],
    single: &[u64],
    m: u32,
    a: u64,
    k: u64,
    p: u32,
    work: &mut [u64],
)
    requires { Relatable schema.now marks.now named.now taken.now single.now m a k p work.old }
    ensures { HoldsRelated schema.now marks.now named.now taken.now single.now m a k p
        (front m work.new) }
{
    let kind = schema::kind(schema, p);
    match kind {
        schema::ONE_OR_MORE => one_or_more(schema, marks, named, taken, single, m, a, k, p, work),
        schema::CHOICE => choice(schema, marks, named, taken, single, m, a, k, p, work),
        schema::GROUP => group(schema, marks, named, taken, single, m, a, k, p, work),
        schema::INTERLEAVE => interleave(schema, marks, named, taken, single, m, a, k, p, work),
        _ => leaf(schema, marks, m, a, k, p, work),
    }
}
