// The binary heap of rows by distance, in two slices and a length: heap[p] is the row at place p, from 1 to the length,
// and pos[i] the place of row i, 0 for a row that is not in the heap. keys[p - 1] is the distance of the row at place
// p.
#![tactic(auto)]

ghost use Rattle.std.specs.Prelude.{◌≡◌, ◌≤◌, ◌<◌, ◌^◌, length, get_or};
ghost use Rattle.index_heap.specs.IndexHeap.{chosen};
ghost use Rattle.index_heap.specs.inner.Slices.{Ready, Lifted, Updated, Sunk, Popped};

// Row i, whose key is x, moves up from its place.
fn sift_up(heap: &mut [u32], pos: &mut [u32], keys: &mut [f64], i: usize, x: f64, place: usize)
    requires fact_1 { Ready (length pos.old) heap.old pos.old keys.old }
    requires fact_2 { i < length pos.old }
    requires fact_3 { 1 ≤ place }
    requires fact_4 { place ≤ length pos.old }
    ensures { Lifted i x place heap.old heap.new pos.old pos.new
        keys.old keys.new }
{
    let mut p = place;
    while p > 1 {
        let up = p / 2;
        let above = keys[up - 1];
        if x >= above {
            break;
        }
        let parent = heap[up] as usize;
        heap[p] = parent as u32;
        pos[parent] = p as u32;
        keys[p - 1] = above;
        p = up;
    }
    heap[p] = i as u32;
    pos[i] = p as u32;
    keys[p - 1] = x;
}

// Sets the key of row i, which has a place, to x: the key was lowered, or the row is new and has the place after the
// last.
pub fn update(heap: &mut [u32], pos: &mut [u32], keys: &mut [f64], i: usize, x: f64)
    requires fact_1 { Ready (length pos.old) heap.old pos.old keys.old }
    requires fact_2 { i < length pos.old }
    requires fact_3 { 1 ≤ get_or pos.old i 0 }
    requires fact_4 { get_or pos.old i 0 ≤ length pos.old }
    ensures { Updated i x heap.old heap.new pos.old pos.new
        keys.old keys.new }
{
    let place = pos[i] as usize;
    sift_up(heap, pos, keys, i, x, place);
}

// The left of two neighbours with keys x and y, unless the right one is in the heap and has a smaller key. A sum, not a
// branch, since which one is unpredictable.
fn chosen(left: usize, len: usize, x: f64, y: f64) -> usize
    requires { left < 2 ^ 32 }
    ensures { result ≡ chosen left len x y }
{
    left + ((left < len) & (x > y)) as usize
}

// Row i, whose key is x, moves down from place 1, in a heap of len rows. The key after the last is read too, but not
// used.
fn sift_down(heap: &mut [u32], pos: &mut [u32], keys: &mut [f64], len: usize, i: usize, x: f64)
    requires fact_1 { Ready (length pos.old) heap.old pos.old keys.old }
    requires fact_2 { i < length pos.old }
    requires fact_3 { 1 ≤ len }
    requires fact_4 { len < length pos.old }
    ensures { Sunk len i x heap.old heap.new pos.old pos.new
        keys.old keys.new }
{
    let mut p: usize = 1;
    while 2 * p <= len {
        let left = 2 * p;
        let child = chosen(left, len, keys[left - 1], keys[left]);
        let below = keys[child - 1];
        if x <= below {
            break;
        }
        let row = heap[child] as usize;
        heap[p] = row as u32;
        pos[row] = p as u32;
        keys[p - 1] = below;
        p = child;
    }
    heap[p] = i as u32;
    pos[i] = p as u32;
    keys[p - 1] = x;
}

// The top leaves; the answer is its row, and the new length is len - 1.
pub fn pop(heap: &mut [u32], pos: &mut [u32], keys: &mut [f64], len: usize) -> usize
    requires fact_1 { Ready (length pos.old) heap.old pos.old keys.old }
    requires fact_2 { 1 ≤ len }
    requires fact_3 { len ≤ length pos.old }
    ensures { Popped len heap.old heap.new pos.old pos.new
        keys.old keys.new result }
{
    let top = heap[1] as usize;
    let last = heap[len] as usize;
    let x = keys[len - 1];
    pos[top] = 0;
    if len > 1 {
        sift_down(heap, pos, keys, len - 1, last, x);
    }
    top
}
