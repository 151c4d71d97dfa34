//! What each command allocates: the bytes of the bits or numbers that it copies, and a count of
//! owners for each frozen set with storage of its own. Sharing storage allocates nothing. Work in
//! place allocates no bytes for bits.
use crate::compared::equal;
use crate::served::{Heap, Way, serve};
use std::alloc::{AllocError, Global};
use std::process::Abort;
use vb_pool::Pool;
use vb_testing::Refusing;

/// More bytes than the block that counts owners takes.
const OWNER: usize = 256;

/// The line of a command, the bytes that it allocates by one request, and the number of owners.
type Row = (&'static str, usize, usize);

/// Sets of 80,000 bits take 10,000 bytes, and sets of no bits none. A block has at least 8 bytes.
const MADE: &[Row] = &[
    ("full 0 1 80000", 10_000, 0),
    ("full 1 0 0", 0, 0),
    ("indices 2 80000 0,64,79999", 10_000, 0),
    ("indices 3 0 -", 0, 0),
    // A body that copies the bytes once more fails here.
    ("import 4 3 16 f8ff07", 8, 0),
    ("import 5 0 0 -", 0, 0),
];

const EDITED: &[Row] = &[
    ("full 0 1 80000", 10_000, 0),
    ("set 0 5 0", 0, 0),
    ("fill 0 3 79999 0", 0, 0),
    ("flip 0", 0, 0),
    ("full 1 0 600", 75, 0),
    ("freeze 1", 0, 1),
    // Within the capacity.
    ("truncate 0 8000", 0, 0),
    ("append 0 1", 0, 0),
    ("appendn 0 1 60000", 0, 0),
    ("appendset 0 1", 0, 0),
    ("clear 0", 0, 0),
    ("appendn 0 1 80000", 0, 0),
    // The capacity doubles.
    ("append 0 1", 20_000, 0),
    ("append 0 1", 0, 0),
    ("appendset 0 1", 0, 0),
    ("appendn 0 1 79398", 0, 0),
    ("appendset 0 1", 40_000, 0),
    ("drop 0", 0, 0),
];

const SHARED: &[Row] = &[
    ("full 0 1 80000", 10_000, 0),
    ("freeze 0", 0, 1),
    // Bodies that copy the bits of a frozen set fail here.
    ("clone 0 1", 0, 0),
    ("slice 0 3 79999 2", 0, 0),
    ("slice 2 5 100 3", 0, 0),
    ("thaw 1", 10_000, 0),
    // An open set shares no bits.
    ("clone 1 4", 10_000, 0),
    ("freeze 4", 0, 1),
    ("drop 2", 0, 0),
    ("drop 3", 0, 0),
    // A body that always copies fails here: no other slot has the storage.
    ("thaw 0", 0, 0),
    ("freeze 0", 0, 1),
    ("slice 0 8 80000 2", 0, 0),
    ("drop 0", 0, 0),
    ("thaw 2", 0, 0),
    ("freeze 2", 0, 1),
    // The storage has no bytes outside of the set.
    ("sliced 2 5", 0, 0),
    ("slice 2 3 79003 6", 0, 0),
    ("sliced 6 7", 9_876, 1),
];

const OPERATED: &[Row] = &[
    ("full 0 1 80000", 10_000, 0),
    ("freeze 0", 0, 1),
    ("full 1 0 80000", 10_000, 0),
    ("freeze 1", 0, 1),
    ("and ref 0 1 2", 10_000, 1),
    ("or ref 0 1 3", 10_000, 1),
    ("xor ref 0 0 4", 10_000, 1),
    ("andnot ref 0 1 5", 10_000, 1),
    ("not ref 0 6", 10_000, 1),
    // In place. Bodies that copy the left set fail here.
    ("and own 2 1 2", 0, 1),
    ("or own 3 1 7", 0, 1),
    ("xor own 4 1 4", 0, 1),
    ("andnot own 5 1 5", 0, 1),
    ("not own 6 6", 0, 1),
    // The storage has another owner.
    ("clone 2 8", 0, 0),
    ("and own 2 1 2", 10_000, 1),
    ("slice 0 0 80000 9", 0, 0),
    ("not own 9 9", 10_000, 1),
];

const TAKEN: &[Row] = &[
    ("full 0 1 80000", 10_000, 0),
    ("freeze 0", 0, 1),
    // A body that allocates for all bits fails here.
    ("take 0 1 - 0,1,79999", 8, 1),
    ("take 0 2 1 0,1,2", 8, 1),
    ("take 0 3 - -", 0, 1),
    ("take 0 4 3 -", 0, 1),
    ("take 0 5 - 0,1,2,3,4,5,6,7,8", 8, 1),
];

const ASKED: &[Row] = &[
    ("indices 0 8000 1,3,5,7", 1000, 0),
    ("len 0", 0, 0),
    ("count 0", 0, 0),
    ("get 0 7999", 0, 0),
    ("countrange 0 1 7999", 0, 0),
    ("select 0 3", 0, 0),
    ("selectunset 0 3", 0, 0),
    ("last 0", 0, 0),
    ("eq 0 0", 0, 0),
    ("bits 0", 8000, 0),
    ("places 0", 32, 0),
    ("runs 0", 64, 0),
    ("freeze 0", 0, 1),
    ("clone 0 1", 0, 0),
    ("eq 0 1", 0, 0),
    ("full 2 0 0", 0, 0),
    ("bits 2", 0, 0),
    ("places 2", 0, 0),
    ("runs 2", 0, 0),
    // A body that pushes indices to a vector that grows fails here.
    ("indices 3 8000 1,3,5,7,9", 1000, 0),
    ("places 3", 40, 0),
];

/// Carries out the command of a line, which isn't refused, and compares what it allocates with the
/// row.
fn asks<'a>(rt: &impl Abort, heap: Heap<'a>, pool: &mut Pool<Heap<'a>>, row: &Row, way: Way) {
    let (line, bytes, owners) = *row;
    equal(rt, (line, serve(rt, heap, pool, line, way)), (line, true));
    let blocks = if bytes > 0 { 1u64 } else { 0 };
    let requests = blocks.saturating_add(owners as u64);
    equal(rt, (line, heap.asked()), (line, requests));
    let most = bytes.saturating_add(OWNER.saturating_mul(owners));
    equal(rt, (line, heap.asks_within(bytes, most)), (line, true));
}

/// Carries out the commands on a pool of its own.
fn session(rt: &impl Abort, heap: Heap<'_>, rows: &[Row], way: Way) {
    let mut pool = Pool::new();
    for row in rows {
        asks(rt, heap, &mut pool, row, way);
    }
    drop(pool);
}

#[test]
fn commands_ask_for_what_they_copy(rt: HostRuntime) {
    let heap = Refusing::new(rt.alloc(), 0);
    for rows in [MADE, EDITED, SHARED, OPERATED, TAKEN, ASKED] {
        session(&rt, &heap, rows, Way::Lent);
    }
}

/// An owned `import` gives its bytes to its set. The other commands allocate the same as if they
/// are lent.
const IMPORTED: &[Row] = &[
    ("import 0 3 16 f8ff07", 0, 1),
    ("import 1 0 0 -", 0, 1),
    ("freeze 0", 0, 1),
    ("thaw 0", 0, 0),
];

#[test]
fn commands_that_are_given_away_ask_for_the_same(rt: HostRuntime) {
    let heap = Refusing::new(rt.alloc(), 0);
    for rows in [IMPORTED, EDITED, SHARED, OPERATED, TAKEN, ASKED] {
        session(&rt, &heap, rows, Way::Owned);
    }
}

/// An `import` of a thousand bytes.
fn long_import(alloc: Global) -> Result<String, AllocError> {
    let digits = "a5".repeat(alloc, 1000)?;
    let line = format!(in alloc; "import 0 3 7990 {digits}");
    drop(digits);
    line
}

/// A body that copies bytes that are given away fails here: it makes one request too, but for more
/// than an owner takes.
#[test]
fn a_long_import_that_is_given_away_copies_nothing(rt: HostRuntime) {
    let heap = Refusing::new(rt.alloc(), 0);
    let line = long_import(rt.alloc()).expect(&rt, "memory");
    let mut pool = Pool::new();
    equal(&rt, serve(&rt, &heap, &mut pool, &line, Way::Owned), true);
    equal(&rt, heap.asked(), 1);
    equal(&rt, heap.asks_within(0, OWNER), true);
    drop((pool, line));
}

/// Commands that are refused before anything is allocated. They follow the lines of [`FILLED`],
/// which put an open set of nine bits in slot 0, a frozen one in 1, and a frozen one of eight bits
/// in 2.
const REFUSED: &[&str] = &[
    "full 0 1 80000",
    "full 16 1 80000",
    "indices 1 8 7",
    "indices 3 8 8",
    "import 0 3 16 f8ff07",
    "import 3 3 22 f8ff07",
    "append 1 1",
    "appendn 3 1 80000",
    "appendset 0 0",
    "appendset 0 3",
    "freeze 1",
    "freeze 3",
    "thaw 0",
    "clone 1 2",
    "clone 3 4",
    "slice 1 0 10 3",
    "slice 0 0 9 3",
    "sliced 0 3",
    "sliced 1 2",
    "and ref 1 2 3",
    "and own 1 2 3",
    "or ref 1 1 0",
    "xor own 1 1 1",
    "not ref 1 2",
    "not own 0 3",
    "take 1 2 - 0",
    "take 1 3 2 0",
    "take 0 3 - 0",
    "bits 3",
    "places 3",
    "runs 3",
    "show 0",
];

const FILLED: &[&str] = &[
    "full 0 1 9",
    "full 1 1 9",
    "freeze 1",
    "full 2 1 8",
    "freeze 2",
];

#[test]
fn commands_that_are_refused_ask_for_nothing(rt: HostRuntime) {
    let heap = Refusing::new(rt.alloc(), 0);
    let mut pool = Pool::new();
    for line in FILLED {
        equal(
            &rt,
            (*line, serve(&rt, &heap, &mut pool, line, Way::Lent)),
            (*line, true),
        );
    }
    for line in REFUSED {
        equal(
            &rt,
            (*line, serve(&rt, &heap, &mut pool, line, Way::Lent)),
            (*line, false),
        );
        equal(&rt, (*line, heap.asked()), (*line, 0));
    }
    drop(pool);
}

/// A bad index is refused after the bytes are allocated, and before their owner is.
#[test]
fn memory_comes_before_indices(rt: HostRuntime) {
    let heap = Refusing::new(rt.alloc(), 0);
    let mut pool = Pool::new();
    for line in FILLED {
        equal(
            &rt,
            (*line, serve(&rt, &heap, &mut pool, line, Way::Lent)),
            (*line, true),
        );
    }
    let is_done = serve(
        &rt,
        &heap,
        &mut pool,
        "take 1 3 - 9,0,0,0,0,0,0,0,0",
        Way::Lent,
    );
    equal(
        &rt,
        (is_done, heap.asked(), heap.asked_bytes()),
        (false, 1, 8),
    );
    drop(pool);
}

/// `show` prints only the first bits, so it allocates no more for a longer set.
#[test]
fn a_text_takes_the_same_of_each_length(rt: HostRuntime) {
    let heap = Refusing::new(rt.alloc(), 0);
    for line in ["full 0 1 80000", "full 0 1 800000"] {
        let mut pool = Pool::new();
        for before in [line, "freeze 0"] {
            equal(&rt, serve(&rt, &heap, &mut pool, before, Way::Lent), true);
        }
        equal(&rt, serve(&rt, &heap, &mut pool, "show 0", Way::Lent), true);
        equal(&rt, heap.asked() <= 8 && heap.asked_bytes() <= 2048, true);
        drop(pool);
    }
}
