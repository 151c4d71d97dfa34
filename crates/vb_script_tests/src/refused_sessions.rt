//! Sessions whose requests for memory are all refused in turn.
use std::alloc::Global;
use std::process::Abort;

/// The lines of sessions, and how many requests each makes: by `run` and by `drive`.
pub(crate) const SESSIONS: &[(&str, u64, u64)] = &[
    (EDITS, 51, 54),
    (OPERATORS, 120, 121),
    (TAKES, 79, 107),
    (SHARES, 50, 47),
];

/// What follows each session: the bits and the kind of every slot, and of one that isn't there.
const LOOKS: &str = "\
bits 0
freeze 0
bits 1
freeze 1
bits 2
freeze 2
bits 3
freeze 3
bits 4
freeze 4
bits 5
freeze 5
bits 6
freeze 6
bits 7
freeze 7
bits 8
freeze 8
bits 9
freeze 9
bits 10
freeze 10
bits 11
freeze 11
bits 12
freeze 12
bits 13
freeze 13
bits 14
freeze 14
bits 15
freeze 15
bits 16
freeze 16
";

/// The lines before a session, its own lines, and then [`LOOKS`].
pub(crate) fn with_looks(rt: &impl Abort, alloc: Global, before: &str, lines: &str) -> String {
    format!(in alloc; "{before}{lines}{LOOKS}").expect(rt, "memory")
}

/// Commands on one set, each refused for each of its reasons. The sets share storage.
const EDITS: &str = "\
import 0 3 9 f8ff
import 0 0 8 00
import 2 7 2 00
import 16 0 0 -
full 1 1 10
full 1 1 10
fill 1 2 7 0
fill 1 7 2 0
set 1 9 0
set 1 10 0
append 0 1
append 2 1
appendn 1 1 18446744073709551615
appendn 1 0 60
flip 1
truncate 1 61
countrange 1 3 9
countrange 1 3 62
freeze 0
freeze 0
set 0 0 0
clone 0 2
clone 0 2
slice 0 2 9 3
slice 0 3 2 4
slice 1 0 1 4
thaw 2
thaw 2
set 2 0 0
append 2 0
bits 0
bits 2
drop 0
drop 0
thaw 3
clear 3
append 3 1
clone 1 0
select 2 1
selectunset 1 0
get 1 60
get 1 61
len 3
count 1
last 1
last 4
places 0
places 4
runs 1
runs 4
";

/// Each operator, lent and owned, on sets that share storage and on sets that don't, at equal and
/// at unequal offsets, and with each of its refusals.
const OPERATORS: &str = "\
import 0 3 70 f8ff0123456789abcdef
import 1 0 70 550123456789abcdef77
freeze 0
and ref 0 1 2
freeze 1
and ref 0 1 2
and ref 0 1 2
or ref 0 2 3
xor ref 2 3 4
andnot ref 1 0 5
not ref 5 6
not ref 6 5
or own 6 6 6
or own 6 1 0
or own 6 1 6
xor own 6 0 7
andnot own 2 7 2
and own 3 1 3
and own 3 1 3
clone 4 8
andnot own 4 8 9
not own 9 9
slice 7 5 70 10
slice 8 5 70 11
and own 10 11 10
slice 8 6 70 12
xor own 10 12 10
xor own 10 12 16
sliced 10 13
sliced 10 13
sliced 14 15
eq 10 13
eq 10 11
eq 10 14
show 13
thaw 13
show 13
not own 13 13
not own 11 11
";

/// Makes sets from indices, takes from them, and adds them to others; each command is refused for
/// each of its reasons.
const TAKES: &str = "\
indices 0 70 0,64,3,69,3
indices 0 1 0
indices 1 4 1,4
indices 1 0 0
indices 1 0 -
indices 16 1 0
appendset 1 0
freeze 0
appendset 1 0
appendset 0 0
appendset 1 0
appendset 1 1
appendset 2 0
take 0 2 - 0,1,69,-0
take 0 3 - 0,70,-1
take 0 3 - -1
take 0 2 - 0
take 1 3 - 0
take 2 3 2 0,1,2
take 2 3 2 0,-1,3,4
take 2 3 2 0,-1,3,2
take 3 4 3 -
take 0 5 - -
take 5 6 5 -
take 5 7 - 0
take 0 8 5 -
clone 0 9
slice 0 60 70 10
thaw 9
appendset 9 10
appendset 9 3
thaw 10
appendset 10 0
";

/// Sets that share the storage of 201 bits.
const SHARES: &str = "\
full 0 1 200
append 0 0
freeze 0
clone 0 1
thaw 1
slice 0 3 190 2
not own 2 2
and ref 0 0 3
take 0 4 - 0,200
bits 4
runs 2
";
