// Relations on m positions as m words; a second relation starts at word POSITIONS. A caller shows that m is no more
// than POSITIONS and that the words are there; a function writes the first m words only.
#![tactic(auto)]

ghost use Rattle.std.specs.Prelude.{◌≡◌, cond, ◌+◌, ◌^◌, ◌<◌};
ghost use Rattle.std.specs.Int.Bits.{bit_or};
ghost use Rattle.sets.specs.Bits.{positions, bit};
ghost use Rattle.relations.specs.Relations.{Or, And, Then, Plus};
ghost use Rattle.relations.specs.Words.{WordsRelate, Is, Image, front, next};
ghost use Rattle.relations.specs.Words.{WordRoom, Rest, Up, Empty, Gap, Single};

// The union of the words of b at the members of s, where a word past the end is empty.
pub fn image(s: u64, b: &[u64]) -> u64
    ensures { Image s b.now result }
{
    let mut out: u64 = 0;
    let mut rest = s;
    while rest != 0 {
        out |= sets::word(b, sets::first(rest));
        rest &= rest - 1;
    }
    out
}

// The first m words hold the empty relation; the words after them are as they were.
pub fn clear(m: u32, w: &mut [u64])
    requires { WordRoom m m w.old }
    ensures is { Is (front m w.new) Empty }
    ensures rest { Rest m w.old w.new }
{
    for i in (0..m as usize).rev() {
        w[i] = 0;
    }
}

// The gaps that start at i, from those that start at i + 1.
fn gap_word(stop: u64, i: u32, after: u64) -> u64
    requires { i < positions }
    ensures { result ≡ cond (bit stop i) (2 ^ i) (bit_or after (2 ^ i)) }
{
    if sets::has(stop, i) {
        return 1u64 << i;
    }
    after | 1u64 << i
}

// The first m words hold the pairs i ≤ j < m with no position of stop in [i, j); the words after them are as they were.
pub fn gaps(m: u32, stop: u64, w: &mut [u64])
    requires { WordRoom m m w.old }
    ensures is { Is (front m w.new) (Gap m stop) }
    ensures rest { Rest m w.old w.new }
{
    let mut gap: u64 = 0;
    for i in (0..m).rev() {
        gap = gap_word(stop, i, gap);
        w[i as usize] = gap;
    }
}

// The singles that start at i, from the gaps and the singles that start at i + 1.
fn single_word(all: u64, marked: u64, i: u32, gap: u64, single: u64) -> u64
    ensures { result ≡ cond (bit all i) (cond (bit marked i) gap 0) single }
{
    if sets::has(all, i) {
        if sets::has(marked, i) {
            return gap;
        }
        return 0;
    }
    single
}

// The first m words hold the pairs i, j < m with exactly one position of all in [i, j), a marked one; the words after
// them are as they were.
pub fn singles(m: u32, all: u64, marked: u64, w: &mut [u64])
    requires { WordRoom m m w.old }
    ensures is { Is (front m w.new) (Single m all marked) }
    ensures rest { Rest m w.old w.new }
{
    let mut gap: u64 = 0;
    let mut single: u64 = 0;
    for i in (0..m).rev() {
        single = single_word(all, marked, i, gap, single);
        gap = gap_word(all, i, gap);
        w[i as usize] = single;
    }
}

// The first m words hold the pairs of the first relation or the next; the words after them are as they were.
pub fn union(m: u32, w: &mut [u64])
    requires { WordRoom m (positions + m) w.old }
    ensures is { Is (front m w.new) (Or (WordsRelate (front m w.old)) (WordsRelate (next m w.old))) }
    ensures rest { Rest m w.old w.new }
{
    for i in (0..m as usize).rev() {
        w[i] = w[i] | w[sets::POSITIONS + i];
    }
}

// The first m words hold the pairs of both relations; the words after them are as they were.
pub fn meet(m: u32, w: &mut [u64])
    requires { WordRoom m (positions + m) w.old }
    ensures is { Is (front m w.new) (And (WordsRelate (front m w.old)) (WordsRelate (next m w.old))) }
    ensures rest { Rest m w.old w.new }
{
    for i in (0..m as usize).rev() {
        w[i] = w[i] & w[sets::POSITIONS + i];
    }
}

// The first m words hold a step of the first relation, then one of the next; the words after them are as they were.
pub fn compose(m: u32, w: &mut [u64])
    requires { WordRoom m (positions + m) w.old }
    ensures is { Is (front m w.new) (Then (WordsRelate (front m w.old)) (WordsRelate (next m w.old))) }
    ensures rest { Rest m w.old w.new }
{
    let end = sets::POSITIONS + m as usize;
    for i in (0..m as usize).rev() {
        let r = image(w[i], &w[sets::POSITIONS..end]);
        w[i] = r;
    }
}

// The first m words hold one or more steps of a relation that goes up, as the caller shows; the words after them are as
// they were. The words after i are closed before word i is.
pub fn close(m: u32, w: &mut [u64])
    requires { WordRoom m m w.old × Up (WordsRelate (front m w.old)) }
    ensures is { Is (front m w.new) (Plus (WordsRelate (front m w.old))) }
    ensures rest { Rest m w.old w.new }
{
    let end = m as usize;
    for i in (0..end).rev() {
        let s = w[i];
        let r = image(s, &w[..end]);
        w[i] = s | r;
    }
}
