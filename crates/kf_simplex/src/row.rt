ghost use Rattle.std.specs.Prelude.{◌≡◌, ◌+◌, ◌<◌, [], pos, length, IfSome, MatchOption};
ghost use Rattle.kf_simplex.specs.Entries.{Ascends, Ascends-prop, IsLeast, number_in};

/// A number of a row, and the column at which it stands.
#[derive(Clone, Copy)]
pub struct Entry {
    pub column: usize,
    pub number: i128,
}

/// A row: its entries by ascending columns. Where no entry stands the number is 0.
#[derive(Drop)]
pub struct Row {
    pub entries: Vec<Entry>,
    pub ghost ascending: { Ascends 0 entries.items } by { Ascends-prop 0 entries.items },
}

// The least column of two rows, the number of each there, and the entries after it.
#[derive(Clone, Copy)]
pub(crate) struct Pair<'a> {
    pub column: usize,
    pub x: i128,
    pub y: i128,
    pub xs: &'a [Entry],
    pub ys: &'a [Entry],
}

// The number at a column.
pub(crate) fn number_at(row: &Row, column: usize) -> i128
    ensures { result ≡ number_in row.now.entries.items column }
{
    for e in row.entries.as_slice() {
        if e.column == column {
            return e.number;
        }
        if e.column > column {
            return 0;
        }
    }
    0
}

// The least column at which one of two rows has an entry.
pub(crate) fn next_pair<'a>(xs: &'a [Entry], ys: &'a [Entry]) -> Option<Pair<'a>>
    requires first { Ascends 0 xs.now }
    requires second { Ascends 0 ys.now }
    ensures least { MatchOption result ((xs.now ≡ []) × (ys.now ≡ [])) (λ p. IsLeast xs.now ys.now p.column p.x p.y p.xs.now p.ys.now) }
    ensures fewer { IfSome result (λ p. length p.xs.now + length p.ys.now < length xs.now + length ys.now) }
{
    match (xs, ys) {
        ([], []) => None,
        ([x, rest @ ..], []) => Some(only_first(x, rest, ys)),
        ([], [y, rest @ ..]) => Some(only_second(y, xs, rest)),
        ([x, after_x @ ..], [y, after_y @ ..]) => {
            if x.column < y.column {
                Some(only_first(x, after_x, ys))
            } else if y.column < x.column {
                Some(only_second(y, xs, after_y))
            } else {
                Some(Pair {
                    column: x.column,
                    x: x.number,
                    y: y.number,
                    xs: after_x,
                    ys: after_y,
                })
            }
        }
    }
}

// A column of the first row alone.
fn only_first<'a>(x: &Entry, xs: &'a [Entry], ys: &'a [Entry]) -> Pair<'a>
    ensures column { result.column ≡ x.now.column }
    ensures x { result.x ≡ x.now.number }
    ensures y { result.y ≡ pos 0 }
    ensures xs { result.xs.now ≡ xs.now }
    ensures ys { result.ys.now ≡ ys.now }
{
    Pair {
        column: x.column,
        x: x.number,
        y: 0,
        xs,
        ys,
    }
}

// A column of the second row alone.
fn only_second<'a>(y: &Entry, xs: &'a [Entry], ys: &'a [Entry]) -> Pair<'a>
    ensures column { result.column ≡ y.now.column }
    ensures x { result.x ≡ pos 0 }
    ensures y { result.y ≡ y.now.number }
    ensures xs { result.xs.now ≡ xs.now }
    ensures ys { result.ys.now ≡ ys.now }
{
    Pair {
        column: y.column,
        x: 0,
        y: y.number,
        xs,
        ys,
    }
}
