ghost use Rattle.std.specs.Prelude.{◌≡◌, ◌≤◌, max};
ghost use Rattle.ray_marks.specs.Tree.{IsTree, IsMarked, IsGreatestOf, above, root};

/// A node of the tree over the cells. In a slice the root comes first, then the tree of the first
/// half of its cells, then that of the second half.
#[derive(Clone, Copy, Debug, PartialEq, Eq)]
pub struct Node {
    /// The mark that all its cells have at least.
    pub whole: u32,
    /// The greatest mark of its cells.
    pub part: u32,
}

// Marks the cells from `start` on and below `end`, as far as the tree has them.
pub(crate) fn mark(nodes: &mut [Node], height: usize, start: usize, end: usize, value: u32)
    requires tree { IsTree height nodes.old }
    requires rising { (root nodes.old).part ≤ value }
    ensures marked { IsMarked height nodes.old start end value nodes.new }
    ensures tree { IsTree height nodes.new }
{
    let cells = nodes.len() / 2 + 1;
    if end <= start || cells <= start {
        return;
    }
    if start == 0 && cells <= end {
        nodes[0] = Node {
            whole: value,
            part: value,
        };
        return;
    }
    let half = cells / 2;
    let (top, halves) = nodes.split_at_mut(1);
    top[0].part = value;
    let middle = halves.len() / 2;
    let (first, second) = halves.split_at_mut(middle);
    mark(first, height - 1, start, end, value);
    mark(
        second,
        height - 1,
        start.saturating_sub(half),
        end.saturating_sub(half),
        value,
    );
}

// The greatest mark above a limit of the cells from `start` on and below `end`, as far as the tree
// has them: 0 where there is none.
pub(crate) fn greatest_above(
    nodes: &[Node],
    height: usize,
    limit: u32,
    start: usize,
    end: usize,
) -> u32
    requires { IsTree height nodes.now }
    ensures { IsGreatestOf height nodes.now limit start end result }
{
    let cells = nodes.len() / 2 + 1;
    if end <= start || cells <= start {
        return 0;
    }
    if nodes[0].part <= limit {
        return 0;
    }
    if start == 0 && cells <= end {
        return nodes[0].part;
    }
    let half = cells / 2;
    let (_, halves) = nodes.split_at(1);
    let (first, second) = halves.split_at(halves.len() / 2);
    let low = greatest_above(first, height - 1, limit, start, end);
    let high = greatest_above(
        second,
        height - 1,
        limit,
        start.saturating_sub(half),
        end.saturating_sub(half),
    );
    greater(above(limit, nodes[0].whole), greater(low, high))
}

// A mark where it is above a limit, and else 0.
fn above(limit: u32, mark: u32) -> u32
    ensures { result ≡ above limit mark }
{
    if limit < mark { mark } else { 0 }
}

// The greater of two marks.
fn greater(a: u32, b: u32) -> u32
    ensures { result ≡ max a b }
{
    if a < b { b } else { a }
}
