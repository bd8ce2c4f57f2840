// The match of SPECIFICATION 5: its definition (specs/), its theory (proofs/), and the counts. The code is in the
// crates above: hungarian_claim, hungarian_best and hungarian_init (phases 1 to 3), hungarian_path and hungarian_search
// (the searches) and hungarian_match (the call).
#![tactic(auto)]

ghost use Rattle.std.specs.Prelude.{◌≡◌, ◌+◌, ◌<◌, ◌^◌};
ghost use Rattle.hungarian.specs.Counts.{heap_made, search_begun, search_ended, inner_step, column_scanned};
ghost use Rattle.hungarian.specs.Counts.{rows_popped, heap_seen};

// Farther than any row: half of the largest double.
pub const RINF: f64 = 8.988465674311579e307;

// The regions of the work slice (specs/inner/Layout.antt), n words each: region r begins at word r * n. Region 0 is
// the column of each row, written work[i], region 1 the entry of each column, written work[n + j]. Region 2 is each
// row's least entry in phases 1 and 2.
pub const LEAST: usize = 2;

// Phase 3: the place from which a column is still to be searched.
pub const FROM: usize = 3;

// A search: the column before each column on its path (the Rust's pr), and the entry that led there (its out).
pub const PARENT: usize = 4;

pub const OUT: usize = 5;

// The rows touched and the rows popped, each in its order.
pub const TOUCHED: usize = 6;

pub const POPPED: usize = 7;

// The rows of the heap by place, the last n + 1 words. Regions 8 to 10 are not used.
pub const HEAP: usize = 11;

// The work counters: the Rust's five in its order, the rows popped and the largest size of a heap. The default is no
// work yet. A step takes the counts and returns them.
#[derive(Clone, Copy, Default)]
pub struct HungarianStats {
    pub heap_init_slots: u64,
    pub augment_searches: u64,
    pub touched_total: u64,
    pub phase3_inner_iters: u64,
    pub main_loop_edge_scans: u64,
    pub popped_total: u64,
    pub largest_heap: u64,
}

// The matched count and the work counters.
#[derive(Clone, Copy)]
pub struct Counts {
    pub matched: usize,
    pub stats: HungarianStats,
}

impl HungarianStats {
    // The heap is made, with a slot for each of n rows.
    #[tactic(auto, unfolding(crate::specs::Counts::heap_made))]
    pub fn heap_made(mut self, n: u64) -> Self
        requires { self.heap_init_slots + n < 2 ^ 64 }
        ensures { result ≡ heap_made n self }
    {
        self.heap_init_slots += n;
        self
    }

    // One more search.
    #[tactic(auto, unfolding(crate::specs::Counts::search_begun))]
    pub fn search_begun(mut self) -> Self
        requires { self.augment_searches + 1 < 2 ^ 64 }
        ensures { result ≡ search_begun self }
    {
        self.augment_searches += 1;
        self
    }

    // A search that touched t rows ends; each row gives its slot back.
    #[tactic(auto, unfolding(crate::specs::Counts::search_ended))]
    pub fn search_ended(mut self, t: u64) -> Self
        requires { (self.heap_init_slots + t < 2 ^ 64) × (self.touched_total + t < 2 ^ 64) }
        ensures { result ≡ search_ended t self }
    {
        self.heap_init_slots += t;
        self.touched_total += t;
        self
    }

    // One more inner step of phase 3 (SPECIFICATION 5.6).
    #[tactic(auto, unfolding(crate::specs::Counts::inner_step))]
    pub fn inner_step(mut self) -> Self
        requires { self.phase3_inner_iters + 1 < 2 ^ 64 }
        ensures { result ≡ inner_step self }
    {
        self.phase3_inner_iters += 1;
        self
    }

    // A column of m entries is scanned.
    #[tactic(auto, unfolding(crate::specs::Counts::column_scanned))]
    pub fn column_scanned(mut self, m: u64) -> Self
        requires { self.main_loop_edge_scans + m < 2 ^ 64 }
        ensures { result ≡ column_scanned m self }
    {
        self.main_loop_edge_scans += m;
        self
    }

    // A search popped p rows.
    #[tactic(auto, unfolding(crate::specs::Counts::rows_popped))]
    pub fn rows_popped(mut self, p: u64) -> Self
        requires { self.popped_total + p < 2 ^ 64 }
        ensures { result ≡ rows_popped p self }
    {
        self.popped_total += p;
        self
    }

    // A search's heap held up to h rows.
    #[tactic(auto, using(crate::proofs::Larger::larger_max), unfolding(crate::specs::Counts::heap_seen))]
    pub fn heap_seen(mut self, h: u64) -> Self
        ensures { result ≡ heap_seen h self }
    {
        self.largest_heap = self.largest_heap.max(h);
        self
    }
}
