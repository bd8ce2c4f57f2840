// One search of the match: its tree, from the root to the frontier, the pairs flipped along its path, and its arrays
// before and after. These are regions of `work`, n words each (hungarian's Layout), and the distances d. The heap's
// rows are the last n + 1 words of `work`, the places of rows are `pos`, and the distance of the row at each place is
// in `keys`. A popped row has NONE for its place. The rest of a search's state is passed from step to step by value.
#![tactic(auto)]

ghost use Rattle.std.specs.Prelude.{◌≡◌, cond, suc, ◌+◌, ◌-◌, ◌*◌, ◌≤◌, ◌<◌, ◌^◌, length, get_or};
ghost use Rattle.std.specs.Float.{nan, binary64};
ghost use Rattle.std.specs.Float.Ieee.{add, sub, lt};
ghost use Rattle.limits.specs.Limits.{max_columns};
ghost use Rattle.hungarian.specs.Graph.{graph_of};
ghost use Rattle.hungarian.specs.Search.{path, no_path};
ghost use Rattle.float64.specs.Constants.{rinf};
ghost use Rattle.hungarian_path.specs.inner.Views.{entry_distance};
ghost use Rattle.hungarian_path.specs.inner.StepsGrow.{ScanReady, Scans, PopReady, PopsAll, has_nearer_row};
ghost use Rattle.hungarian_path.specs.inner.StepsGrow.{Growing, Extensible, Extends, Grows};
ghost use Rattle.hungarian_path.specs.inner.StepsSearch.{found_of, SearchReady, Finds};
ghost use Rattle.hungarian_path.specs.inner.StepsFlip.{WalkReady, Walks, Flips};
ghost use Rattle.hungarian_path.specs.inner.StepsArrays.{ResetReady, Resets, Prepared};
ghost use Rattle.hungarian_path.specs.inner.Steps.{TouchReady, Touches, RelaxReady, Relaxes, EdgeReady, Passes};

use hungarian::{HEAP, HungarianStats, OUT, PARENT, POPPED, RINF, TOUCHED};
use limits::NONE;

// NONE as an entry and as its column, before any path is found.
const NO_ENTRY: usize = NONE as usize;

// The best path so far (its cost, last entry and that entry's column), how many rows are in the heap, touched and
// popped, and the most that were in the heap at once. The path is no Option, since `edge` compares its cost with every
// entry: as an Option it makes a search run 15% more instructions.
#[derive(Clone, Copy)]
struct Frontier {
    csp: f64,
    isp: usize,
    jsp: usize,
    len: usize,
    touched: usize,
    popped: usize,
    peak: u64,
}

// A search that has seen no entry.
const UNSEEN: Frontier = Frontier {
    csp: RINF,
    isp: NO_ENTRY,
    jsp: NO_ENTRY,
    len: 0,
    touched: 0,
    popped: 0,
    peak: 0,
};

// A search: its frontier and the counts.
#[derive(Clone, Copy)]
struct Progress {
    frontier: Frontier,
    stats: HungarianStats,
}

// A path to a free row: its cost, its last entry and that entry's column.
#[derive(Clone, Copy)]
pub struct Path {
    pub cost: f64,
    pub entry: usize,
    pub column: usize,
}

// A search that has ended: its path, if it found one, how many rows it touched and popped, the most rows in its heap at
// once, and the counts.
#[derive(Clone, Copy)]
pub struct Ending {
    pub end: Option<Path>,
    pub touched: usize,
    pub popped: usize,
    pub peak: u64,
    pub stats: HungarianStats,
}

// One branch for two bounds: the compiler makes a minimum of it.
fn least(a: f64, b: f64) -> f64
    ensures { result ≡ cond (lt a b) a b }
{
    if a < b { a } else { b }
}

// If row i is new to the search, it is noted as touched and gets the last place of the heap. A row that is not popped
// is new exactly if it has no place there.
fn touch_row(n: usize, work: &mut [u32], pos: &mut [u32], frontier: Frontier, i: usize) -> Frontier
    requires { TouchReady n work.old pos.old frontier i }
    ensures { Touches n work.old work.new pos.old pos.new frontier result i }
{
    if pos[i] != 0 {
        return frontier;
    }
    let touched = frontier.touched;
    let len = frontier.len + 1;
    work[TOUCHED * n + touched] = i as u32;
    pos[i] = len as u32;
    Frontier {
        len,
        touched: touched + 1,
        peak: frontier.peak.max(len as u64),
        ..frontier
    }
}

// The matched row i is reached at the lower distance x, by entry k of column j.
fn relax(
    n: usize,
    work: &mut [u32],
    pos: &mut [u32],
    keys: &mut [f64],
    d: &mut [f64],
    frontier: Frontier,
    i: usize,
    x: f64,
    j: usize,
    k: usize,
) -> Frontier
    requires { RelaxReady n work.old pos.old keys.old d.old frontier i j k }
    ensures { Relaxes n work.old work.new pos.old pos.new
        keys.new d.old d.new frontier result i x j k }
{
    let next = touch_row(n, work, pos, frontier, i);
    let column = work[i] as usize;
    d[i] = x;
    work[PARENT * n + column] = j as u32;
    work[OUT * n + column] = k as u32;
    let at = HEAP * n;
    index_heap::update(&mut work[at..], pos, keys, i, x);
    next
}

// Entry k of column j, whose row i is at distance x. Distances are tested first: an entry to a free row fails there
// only by the cost of the best path, since an untouched row is at RINF.
fn edge(
    n: usize,
    work: &mut [u32],
    pos: &mut [u32],
    keys: &mut [f64],
    d: &mut [f64],
    frontier: Frontier,
    i: usize,
    x: f64,
    j: usize,
    k: usize,
) -> Frontier
    requires { EdgeReady n work.old pos.old keys.old d.old frontier i x j k }
    ensures { Passes n work.old work.new pos.old pos.new
        keys.new d.old d.new frontier result i x j k }
{
    let bound = least(d[i], frontier.csp);
    if x >= bound {
        return frontier;
    }
    if pos[i] == NONE {
        return frontier;
    }
    if work[i] == NONE {
        return Frontier {
            csp: x,
            isp: k,
            jsp: j,
            ..frontier
        };
    }
    relax(n, work, pos, keys, d, frontier, i, x, j, k)
}

// The distance of the row of an entry: cost minus u, plus the offset v of the column unless it is the root.
fn entry_distance(root: bool, v: f64, c: f64, u: f64) -> f64
    ensures { result ≡ entry_distance root v c u }
{
    if root { c - u } else { v + c - u }
}

// The entries of column j, reached at the offset v, are examined.
fn scan(
    n: usize,
    col_ptr: &[u32],
    row_idx: &[u32],
    cost: &[f64],
    u: &[f64],
    work: &mut [u32],
    pos: &mut [u32],
    keys: &mut [f64],
    d: &mut [f64],
    frontier: Frontier,
    root: bool,
    v: f64,
    j: usize,
) -> Frontier
    requires { ScanReady (graph_of n col_ptr.now row_idx.now cost.now) u.now work.old pos.old
        keys.old d.old frontier root v j }
    ensures { let g = graph_of n col_ptr.now row_idx.now cost.now in
        Scans g u.now work.old work.new pos.old pos.new
        keys.new d.old d.new frontier result root v j }
{
    let end = col_ptr[j + 1] as usize;
    let start = col_ptr[j] as usize;
    let mut t = frontier;
    for k in start..end {
        let i = row_idx[k] as usize;
        let x = entry_distance(root, v, cost[k], u[i]);
        t = edge(n, work, pos, keys, d, t, i, x, j, k);
    }
    t
}

// The nearest row leaves the heap and is popped: its distance is final.
fn pop_nearest(
    n: usize,
    work: &mut [u32],
    pos: &mut [u32],
    keys: &mut [f64],
    frontier: Frontier,
) -> Frontier
    requires { PopReady n work.old pos.old keys.old frontier }
    ensures { PopsAll n work.old work.new pos.old pos.new
        keys.old keys.new frontier result }
{
    let len = frontier.len;
    let popped = frontier.popped;
    let at = HEAP * n;
    let q = index_heap::pop(&mut work[at..], pos, keys, len);
    work[POPPED * n + popped] = q as u32;
    pos[q] = NONE;
    Frontier {
        len: len - 1,
        popped: popped + 1,
        ..frontier
    }
}

// Whether the heap has a row that is nearer than the best path.
fn has_nearer_row(keys: &[f64], frontier: Frontier) -> bool
    requires { 0 < frontier.len → 0 < length keys.now }
    ensures { result ≡ has_nearer_row frontier.len frontier.csp (get_or keys.now 0 nan) }
{
    if frontier.len == 0 {
        return false;
    }
    !(keys[0] >= frontier.csp)
}

// How many entries column j has.
fn column_length(col_ptr: &[u32], j: usize) -> u64
    requires fact_1 { j + 1 < length col_ptr.now }
    requires fact_2 { get_or col_ptr.now j 0 ≤ get_or col_ptr.now (suc j) 0 }
    ensures { result ≡ get_or col_ptr.now (suc j) 0 - get_or col_ptr.now j 0 }
{
    col_ptr[j + 1] as u64 - col_ptr[j] as u64
}

// The offset of column j, reached by its own row q, whose entry is k: the Rust's order of operations.
fn offset(cost: &[f64], u: &[f64], d: &[f64], q: usize, k: usize) -> f64
    requires { (q < length u.now) × ((q < length d.now) × (k < length cost.now)) }
    ensures { result
        ≡ add binary64 (sub binary64 (get_or d.now q nan) (get_or cost.now k nan))
        (get_or u.now q nan) }
{
    d[q] - cost[k] + u[q]
}

// The nearest row is popped, and its column is scanned.
fn extend(
    n: usize,
    col_ptr: &[u32],
    row_idx: &[u32],
    cost: &[f64],
    u: &[f64],
    work: &mut [u32],
    pos: &mut [u32],
    keys: &mut [f64],
    d: &mut [f64],
    search: Progress,
) -> Progress
    requires { let g = graph_of n col_ptr.now row_idx.now cost.now in
        Extensible g u.now work.old pos.old keys.old d.old search.frontier search.stats }
    ensures { let g = graph_of n col_ptr.now row_idx.now cost.now in
        Extends g u.now work.old work.new pos.old pos.new
        keys.new d.old d.new search.frontier result.frontier search.stats
        result.stats }
{
    let frontier = search.frontier;
    let stats = search.stats;
    let q = work[HEAP * n + 1] as usize;
    let opened = pop_nearest(n, work, pos, keys, frontier);
    let j = work[q] as usize;
    let own = work[n + j] as usize;
    let v = offset(cost, u, d, q, own);
    let counted = stats.column_scanned(column_length(col_ptr, j));
    let scanned = scan(
        n, col_ptr, row_idx, cost, u, work, pos, keys, d, opened, false, v, j,
    );
    Progress {
        frontier: scanned,
        stats: counted,
    }
}

// Rows are popped until the heap is empty or no row is nearer than the best path.
fn grow(
    n: usize,
    col_ptr: &[u32],
    row_idx: &[u32],
    cost: &[f64],
    u: &[f64],
    work: &mut [u32],
    pos: &mut [u32],
    keys: &mut [f64],
    d: &mut [f64],
    first: Progress,
) -> Progress
    requires fact_1 { let g = graph_of n col_ptr.now row_idx.now cost.now in
        Growing g u.now work.old pos.old keys.old d.old first.frontier first.stats }
    requires fact_2 { let g = graph_of n col_ptr.now row_idx.now cost.now in
        first.frontier.popped ≡ 0 }
    ensures { let g = graph_of n col_ptr.now row_idx.now cost.now in
        Grows g u.now work.old work.new pos.old pos.new
        d.old d.new first.frontier result.frontier first.stats result.stats }
{
    let mut search = first;
    while has_nearer_row(keys, search.frontier) {
        search = extend(n, col_ptr, row_idx, cost, u, work, pos, keys, d, search);
    }
    search
}

// The result of a search whose best path this is: no path if its cost is RINF.
fn ended(frontier: Frontier) -> Option<Path>
    ensures { found_of result ≡ cond (lt frontier.csp rinf) (path frontier.csp frontier.isp frontier.jsp)
        no_path }
{
    let path = Path {
        cost: frontier.csp,
        entry: frontier.isp,
        column: frontier.jsp,
    };
    (frontier.csp < RINF).then_some(path)
}

// The search from the free column j.
pub fn search(
    n: usize,
    col_ptr: &[u32],
    row_idx: &[u32],
    cost: &[f64],
    u: &[f64],
    work: &mut [u32],
    pos: &mut [u32],
    keys: &mut [f64],
    d: &mut [f64],
    j: usize,
    stats: HungarianStats,
) -> Ending
    requires { SearchReady (graph_of n col_ptr.now row_idx.now cost.now) u.now work.old pos.old
        keys.old d.old stats j }
    ensures { let g = graph_of n col_ptr.now row_idx.now cost.now in
        Finds g u.now work.old work.new pos.old pos.new
        d.old d.new j stats result }
{
    work[PARENT * n + j] = NONE;
    let counted = stats
        .search_begun()
        .column_scanned(column_length(col_ptr, j));
    let frontier = UNSEEN;
    let first = scan(
        n, col_ptr, row_idx, cost, u, work, pos, keys, d, frontier, true, 0.0, j,
    );
    let progress = Progress {
        frontier: first,
        stats: counted,
    };
    let grown = grow(n, col_ptr, row_idx, cost, u, work, pos, keys, d, progress);
    let best = grown.frontier;
    let end = ended(best);
    let scans = grown.stats;
    Ending {
        end,
        touched: best.touched,
        popped: best.popped,
        peak: best.peak,
        stats: scans,
    }
}

// From column j back to the root, each column gives its row to the one before it, in at most `most` steps.
fn walk(n: usize, row_idx: &[u32], work: &mut [u32], j: usize, most: usize)
    requires { WalkReady n row_idx.now work.old j }
    ensures { Walks n row_idx.now work.old work.new j most }
{
    let mut column = j;
    for _ in 0..most {
        if work[PARENT * n + column] == NONE {
            break;
        }
        let before = work[PARENT * n + column] as usize;
        let entry = work[OUT * n + column] as usize;
        let row = row_idx[entry] as usize;
        work[row] = before as u32;
        work[n + before] = entry as u32;
        column = before;
    }
}

// The pairs along the path that ends with entry k of column j.
pub fn flip(n: usize, row_idx: &[u32], work: &mut [u32], k: usize, j: usize, num: usize)
    requires fact_1 { WalkReady n row_idx.now work.old j }
    requires fact_2 { k < length row_idx.now }
    requires fact_3 { num < 2 ^ 32 }
    ensures { Flips n row_idx.now work.old work.new k j num }
{
    let last = row_idx[k] as usize;
    work[last] = j as u32;
    work[n + j] = k as u32;
    walk(n, row_idx, work, j, num + 1);
}

// Resets the touched rows, popped or not: unreached, not popped, not in the heap.
pub fn reset(n: usize, work: &[u32], pos: &mut [u32], d: &mut [f64], touched: usize)
    requires { ResetReady n work.now pos.old d.old touched }
    ensures { Resets n work.now pos.old pos.new d.old d.new
        touched }
{
    let from = TOUCHED * n;
    for row in &work[from..from + touched] {
        let i = *row as usize;
        d[i] = RINF;
        pos[i] = 0;
    }
}

// The arrays of a search, before the first search.
pub fn prepare(n: usize, work: &mut [u32], pos: &mut [u32], d: &mut [f64])
    requires fact_1 { length work.old ≡ 12 * n + 1 }
    requires fact_2 { length pos.old ≡ n }
    requires fact_3 { length d.old ≡ n }
    requires fact_4 { n ≤ max_columns }
    ensures { Prepared n work.old work.new pos.new d.new }
{
    slices::fill(&mut work[PARENT * n..TOUCHED * n], NONE);
    slices::fill(&mut work[HEAP * n..], 0);
    slices::fill(pos, 0);
    slices::fill(d, RINF); // no row is reached
}
