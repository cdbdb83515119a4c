// The built-in datatypes: whitespace, the tokens between it, and when `string` and `token` take two texts for equal.
#![tactic(auto)]

ghost use Rattle.std.specs.Prelude.{◌≡◌};
ghost use Rattle.datatypes.specs.Whitespace.{space, whitespace, string_equal, token_equal};
ghost use Rattle.datatypes.specs.Cursor.{Skips, Reads};
ghost use Rattle.datatypes.specs.Split.{TokenTo};
ghost use Rattle.tables.specs.Answers.{Decides};

// Yes exactly for the whitespace characters #x20, #x9, #xA and #xD.
#[tactic(auto, unfolding(crate::specs::Whitespace::space))]
pub fn is_space(c: u8) -> bool
    ensures { result ≡ space c }
{
    c == 0x20 || c == 0x9 || c == 0xA || c == 0xD
}

// The first position from a given one on where no whitespace character stands, or the end of the text; the given one
// where it is past the end.
pub fn skip_space(s: &[u8], from: usize) -> usize
    ensures { Skips s.now from result }
{
    for i in from..s.len() {
        if !is_space(s[i]) {
            return i;
        }
    }
    from.max(s.len())
}

// The first position from a given one on where a whitespace character stands, or the end of the text: where a token
// that begins there ends. The given one where it is past the end.
pub fn token_end(s: &[u8], from: usize) -> usize
    ensures { TokenTo s.now from result }
{
    for to in from..s.len() {
        if is_space(s[to]) {
            return to;
        }
    }
    from.max(s.len())
}

// Yes exactly when every character of a text is whitespace; the empty text is whitespace too.
pub fn is_whitespace(s: &[u8]) -> bool
    ensures { result ≡ whitespace s.now }
{
    skip_space(s, 0) == s.len()
}

// (string equal): yes exactly when two texts are equal.
pub fn same_string(a: &[u8], b: &[u8]) -> bool
    ensures { Decides (string_equal a.now b.now) result }
{
    a == b
}

// The next character of the normalized form of a text with the position after it, from a position in the text: a run of
// whitespace is one space, or none at the end.
fn next(s: &[u8], at: usize) -> Option<(u8, usize)>
    ensures { Reads s.now at result }
{
    if s.len() <= at {
        return None;
    }
    let c = s[at];
    let after = at + 1;
    if !is_space(c) {
        return Some((c, after));
    }
    let after_run = skip_space(s, after);
    if after_run == s.len() {
        return None;
    }
    Some((0x20, after_run))
}

// (token equal): yes exactly when the normalized forms of two texts are equal, which are compared as they are read.
pub fn same_token(a: &[u8], b: &[u8]) -> bool
    ensures { Decides (token_equal a.now b.now) result }
{
    let mut i = skip_space(a, 0);
    let mut j = skip_space(b, 0);
    loop {
        let next_a = next(a, i);
        let next_b = next(b, j);
        let Some((c, after_a)) = next_a else {
            return next_b.is_none();
        };
        let Some((d, after_b)) = next_b else {
            return false;
        };
        if c != d {
            return false;
        }
        i = after_a;
        j = after_b;
    }
}
