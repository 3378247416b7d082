// An access matrix: which flows it composes beyond those that it grants (the paper, "Matrix").
#![tactic(auto)]

ghost use Rattle.std.specs.Prelude.{◌≡◌, ℕ, ◌+◌, ◌≤◌, ◌<◌, true, ◌&&◌, length};
ghost use Rattle.matrix.specs.Limits.{subject_limit, object_limit};
ghost use Rattle.matrix.specs.Flows.{matrix_good, rows_within, count_good, has, granted, composed};
ghost use Rattle.matrix.specs.Verdicts.{ungranted, flow_count, judged_by, consistency_values, matrix_verdict, MatrixAlone};
ghost use Rattle.matrix.specs.Rows.{spelling, row_closed, rows_closed, joined_through, Passed, Reaching, Grown, Closed};

use answers::Refusal;

// The most subjects and objects that a matrix has.
pub const SUBJECT_LIMIT: usize = 8;

pub const OBJECT_LIMIT: usize = 32;

// What keeps a matrix from being consistent: how many composed flows are not granted, and the first of them.
#[derive(Clone, Copy, Debug, PartialEq, Eq)]
pub struct Inconsistency {
    pub count: u32,
    pub source: u32,
    pub target: u32,
}

// Row a of the granted flows.
// Kept: the rows stand as two slices, with a clause that they are as many. This function, fill_granted, rows_closed and reach_flows are
// public, and the parameters of a public function may not change.
pub fn granted_row(reads: &[u32], writes: &[u32], a: usize) -> u32
    requires { (length writes.now ≡ length reads.now) × (a < object_limit) }
    ensures { (b : ℕ) → has result b ≡ granted reads.now writes.now a b }
{
    let mut row = 1u32 << a;
    for (s, &r) in reads.iter().enumerate() {
        let w = writes[s];
        if (r >> a) % 2 == 1 {
            row |= w;
        }
    }
    row
}

// The first n rows become those of the granted flows; the others stay.
pub fn fill_granted(reads: &[u32], writes: &[u32], rows: &mut [u32], n: usize)
    requires { (length writes.now ≡ length reads.now) × (n ≤ object_limit) × (n ≤ length rows.old) }
    ensures { rows.new ≡ spelling (granted reads.now writes.now) n rows.old }
{
    for a in 0..n {
        rows[a] = granted_row(reads, writes, a);
    }
}

// ---- rows that lead no further

// Each subject that reads an object of the row writes nothing beyond the row.
fn row_closed(reads: &[u32], writes: &[u32], row: u32) -> bool
    requires { length writes.now ≡ length reads.now }
    ensures { result ≡ row_closed reads.now writes.now row }
{
    for (t, &r) in reads.iter().enumerate() {
        let w = writes[t];
        if row & r != 0 && row & w != w {
            return false;
        }
    }
    true
}

// The same of what each subject writes that reads anything: then the composed flows are the granted ones.
pub fn rows_closed(reads: &[u32], writes: &[u32]) -> bool
    requires { length writes.now ≡ length reads.now }
    ensures { result ≡ rows_closed reads.now writes.now }
{
    for (s, &r) in reads.iter().enumerate() {
        if r != 0 && !row_closed(reads, writes, writes[s]) {
            return false;
        }
    }
    true
}

// ---- what the subjects reach

// The row, with the other one added if it has an object that is read.
fn joined_through(read: u32, other: u32, row: u32) -> u32
    ensures { result ≡ joined_through read other row }
{
    if row & read == 0 {
        return row;
    }
    row | other
}

// Each row that has an object that is read takes in row k. All rows are looked at, whether there is a subject or not: that is quicker.
fn pass_through(reach: &mut [u32], read: u32, k: usize)
    requires { (length reach.old ≡ subject_limit) × (k < subject_limit) }
    ensures { Passed read k subject_limit reach.old reach.new }
{
    let other = reach[k];
    for s in 0..SUBJECT_LIMIT {
        reach[s] = joined_through(read, other, reach[s]);
    }
}

// The rows become what each subject reaches: one pass for each subject.
pub fn reach_flows(reads: &[u32], writes: &[u32], reach: &mut [u32])
    requires { (length writes.now ≡ length reads.now) × (1 ≤ length reads.now) × (length reads.now ≤ subject_limit) × (length reach.old ≡ subject_limit) }
    ensures { Reaching reads.now writes.now reach.new (length reads.now) }
{
    // Kept: the C interface: `copy_from_slice` would be a call of memmove, and the archive needs no function but memcpy and memset.
    for (s, &row) in writes.iter().enumerate() {
        reach[s] = row;
    }
    for (k, &read) in reads.iter().enumerate() {
        pass_through(reach, read, k);
    }
}

// What the subjects read that reach more than they write.
fn grown_reads(reads: &[u32], writes: &[u32], reach: &[u32]) -> u32
    requires { (length writes.now ≡ length reads.now) × (length reach.now ≡ length reads.now) }
    ensures { Grown reads.now writes.now reach.now result }
{
    let mut grown: u32 = 0;
    for (s, &r) in reads.iter().enumerate() {
        if writes[s] != reach[s] {
            grown |= r;
        }
    }
    grown
}

// ---- the verdict

// Row a of the composed flows without the granted ones.
// Kept: one loop for both rows. With two calls of granted_row in its place a verdict took a fifth longer or more.
fn missing_row(reads: &[u32], writes: &[u32], reach: &[u32], n: usize, a: usize) -> u32
    requires { Closed reads.now writes.now n reach.now × (a < n) }
    ensures { (b : ℕ) → has result b ≡ ungranted reads.now writes.now n a b }
{
    let mut granted = 1u32 << a;
    let mut reached = 1u32 << a;
    for (s, &r) in reads.iter().enumerate() {
        let w = writes[s];
        let x = reach[s];
        if (r >> a) % 2 == 1 {
            granted |= w;
            reached |= x;
        }
    }
    reached & !granted
}

// The same, which is nothing unless one of the subjects that read a reaches more than it writes.
fn ungranted_row(
    reads: &[u32],
    writes: &[u32],
    reach: &[u32],
    grown: u32,
    n: usize,
    a: usize,
) -> u32
    requires { Closed reads.now writes.now n reach.now × Grown reads.now writes.now reach.now grown × (a < n) }
    ensures { (b : ℕ) → has result b ≡ ungranted reads.now writes.now n a b }
{
    if (grown >> a) % 2 == 1 {
        return missing_row(reads, writes, reach, n, a);
    }
    0
}

// How many composed flows are not granted.
fn count_flows(reads: &[u32], writes: &[u32], reach: &[u32], grown: u32, n: usize) -> u32
    requires { Closed reads.now writes.now n reach.now × Grown reads.now writes.now reach.now grown }
    ensures { result ≡ flow_count reads.now writes.now n }
{
    let mut count: u32 = 0;
    for a in 0..n {
        let row = ungranted_row(reads, writes, reach, grown, n, a);
        if row != 0 {
            count += row.count_ones();
        }
    }
    count
}

// The first composed flow that is not granted, with the count of them, if there is one.
fn first_flow(
    reads: &[u32],
    writes: &[u32],
    reach: &[u32],
    grown: u32,
    n: usize,
    count: u32,
) -> Option<Inconsistency>
    requires { Closed reads.now writes.now n reach.now × Grown reads.now writes.now reach.now grown }
    ensures { result ≡ judged_by count reads.now writes.now n }
{
    let mut found = None;
    'sources: for a in 0..n {
        let row = ungranted_row(reads, writes, reach, grown, n, a);
        if row == 0 {
            continue;
        }
        for b in 0..n {
            if (row >> b) % 2 == 1 {
                found = Some(Inconsistency {
                    count,
                    source: a as u32,
                    target: b as u32,
                });
                break 'sources;
            }
        }
    }
    found
}

// No row has a bit beyond the objects.
fn rows_within(objects: u32, reads: &[u32], writes: &[u32]) -> bool
    requires { (objects ≤ object_limit) × (length writes.now ≡ length reads.now) }
    ensures { result ≡ (rows_within objects reads.now && rows_within objects writes.now) }
{
    let bound = 1u64 << objects;
    for (s, &r) in reads.iter().enumerate() {
        let both = r | writes[s];
        if bound <= both as u64 {
            return false;
        }
    }
    true
}

// A number from 1 to most.
fn count_good(most: usize, n: usize) -> bool
    ensures { result ≡ count_good most n }
{
    1 <= n && n <= most
}

// The rows are a matrix.
pub fn matrix_good(reads: &[u32], writes: &[u32], objects: u32) -> bool
    ensures { result ≡ matrix_good reads.now writes.now objects }
{
    if reads.len() != writes.len() {
        return false;
    }
    if !count_good(SUBJECT_LIMIT, reads.len()) {
        return false;
    }
    if !count_good(OBJECT_LIMIT, objects as usize) {
        return false;
    }
    rows_within(objects, reads, writes)
}

// The first n rows become those of the composed flows; the others stay.
pub fn compose_flows(reads: &[u32], writes: &[u32], rows: &mut [u32], n: usize)
    requires { (matrix_good reads.now writes.now n ≡ true) × (n ≤ length rows.old) }
    ensures { rows.new ≡ spelling (composed reads.now writes.now n) n rows.old }
{
    // Kept: a rule of the project: no heap, so the array has room for the most that there can be.
    let mut reach = [0u32; SUBJECT_LIMIT];
    reach_flows(reads, writes, &mut reach);
    let m = reads.len();
    fill_granted(reads, &reach[..m], rows, n);
}

// The verdict by what the subjects reach.
fn judge_flows(reads: &[u32], writes: &[u32], reach: &[u32], n: usize) -> Option<Inconsistency>
    requires { Closed reads.now writes.now n reach.now }
    ensures { result ≡ judged_by (flow_count reads.now writes.now n) reads.now writes.now n }
{
    let grown = grown_reads(reads, writes, reach);
    let count = count_flows(reads, writes, reach, grown, n);
    if count == 0 {
        return None;
    }
    first_flow(reads, writes, reach, grown, n, count)
}

// The verdict on a matrix that is not refused.
fn judge_composed(reads: &[u32], writes: &[u32], n: usize) -> Option<Inconsistency>
    requires { matrix_good reads.now writes.now n ≡ true }
    ensures { result ≡ judged_by (flow_count reads.now writes.now n) reads.now writes.now n }
{
    // Kept: a rule of the project: no heap, so the array has room for the most that there can be.
    let mut reach = [0u32; SUBJECT_LIMIT];
    reach_flows(reads, writes, &mut reach);
    let m = reads.len();
    judge_flows(reads, writes, &reach[..m], n)
}

// The verdict on a matrix: none if it is consistent. Row s is what subject s reads, or writes, bit k standing for object k.
pub fn verdict(
    reads: &[u32],
    writes: &[u32],
    objects: u32,
) -> Result<Option<Inconsistency>, Refusal>
    ensures { (consistency_values result ≡ matrix_verdict reads.now writes.now objects) × MatrixAlone result }
{
    if !matrix_good(reads, writes, objects) {
        return Err(Refusal::Matrix);
    }
    if rows_closed(reads, writes) {
        return Ok(None);
    }
    Ok(judge_composed(reads, writes, objects as usize))
}
