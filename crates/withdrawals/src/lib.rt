// A proposal to withdraw rights of a matrix, judged (change request No. 7).
#![tactic(auto)]

ghost use Rattle.std.specs.Prelude.{◌≡◌, ℕ, ◌<◌, ◌&&◌, eqb, length, Ok};
ghost use Rattle.matrix.specs.Limits.{object_limit};
ghost use Rattle.matrix.specs.Flows.{has, matrix_of};
ghost use Rattle.matrix.specs.Rows.{bit_at};
ghost use Rattle.matrix.specs.Verdicts.{MatrixAlone};
ghost use Rattle.withdrawals.specs.Judgements.{comparable, rows_held, minimal, judgement_of, judgement_number};
ghost use Rattle.withdrawals.specs.Returns.{FlowTable, reached_from, table_closed, stays_closed, row_fits, loss_needed, losses_needed, Proposed, Judging, flow_judgement};

use answers::Refusal;
use matrix::{OBJECT_LIMIT, fill_granted, matrix_good};

// The answer to a proposal: accepted, or the first condition that fails.
#[derive(Clone, Copy, Debug, PartialEq, Eq)]
pub enum Judgement {
    Accepted = 0,
    RightAdded = 1,
    RightLost = 2,
    Inconsistent = 3,
    NotMinimal = 4,
}

// The number of an answer, or of the refusal.
pub fn judgement_number(judgement: Result<Judgement, Refusal>) -> u32
    ensures { result ≡ judgement_number judgement }
{
    match judgement {
        Ok(judgement) => judgement as u32,
        Err(refusal) => refusal.number(),
    }
}

// Each right in the rows is also in the others.
// Kept: no plainer: `rules::within` is the same test of numbers of 64 bits; one function for both would need a trait with the laws of `&`.
fn rows_held(others: &[u32], rows: &[u32]) -> bool
    requires { length others.now ≡ length rows.now }
    ensures { result ≡ rows_held others.now rows.now }
{
    for (s, &row) in rows.iter().enumerate() {
        if others[s] & row != row {
            return false;
        }
    }
    true
}

// Each right of a matrix, reads and writes, is also in the other.
fn rights_held(other_reads: &[u32], other_writes: &[u32], reads: &[u32], writes: &[u32]) -> bool
    requires { (length other_reads.now ≡ length reads.now) × (length other_writes.now ≡ length writes.now) }
    ensures { result ≡ (rows_held other_reads.now reads.now && rows_held other_writes.now writes.now) }
{
    if !rows_held(other_reads, reads) {
        return false;
    }
    rows_held(other_writes, writes)
}

// As many subjects, as many objects.
fn same_counts(subjects: usize, objects: u32, other_subjects: usize, other_objects: u32) -> bool
    ensures { result ≡ (eqb subjects other_subjects && eqb objects other_objects) }
{
    subjects == other_subjects && objects == other_objects
}

// All that is reached from one of the targets.
fn reached_from(flows: &[u32], n: usize, targets: u32) -> u32
    requires { FlowTable n flows.now }
    ensures { (b : ℕ) → has result b ≡ reached_from (bit_at flows.now) n targets b }
{
    let mut reached: u32 = 0;
    for y in 0..n {
        let row = flows[y];
        if (targets >> y) % 2 == 1 {
            reached |= row;
        }
    }
    reached
}

// The flows are transitive: what is reached from the objects in a row is in that row.
fn table_closed(flows: &[u32], n: usize) -> bool
    requires { FlowTable n flows.now }
    ensures { result ≡ table_closed flows.now n }
{
    for a in 0..n {
        let row = flows[a];
        let reached = reached_from(flows, n, row);
        if row & reached != reached {
            return false;
        }
    }
    true
}

// All that is reached stands in a's row with the new flows, if a leads to one of the sources.
fn row_fits(row: u32, a: usize, sources: u32, targets: u32, reached: u32) -> bool
    requires { a < object_limit }
    ensures { result ≡ row_fits row a sources targets reached }
{
    if row & sources == 0 {
        return true;
    }
    if (sources >> a) % 2 == 1 {
        return (row | targets) & reached == reached;
    }
    row & reached == reached
}

// The flows, which are transitive, are so with a flow from each source to each target added.
fn stays_closed(flows: &[u32], n: usize, sources: u32, targets: u32) -> bool
    requires { FlowTable n flows.now }
    ensures { result ≡ stays_closed (bit_at flows.now) n sources targets }
{
    let reached = reached_from(flows, n, targets);
    for a in 0..n {
        if !row_fits(flows[a], a, sources, targets, reached) {
            return false;
        }
    }
    true
}

// The right to object k was not lost, or its return adds flows that compose beyond those granted.
fn loss_needed(flows: &[u32], n: usize, lost: u32, k: usize, sources: u32, targets: u32) -> bool
    requires { FlowTable n flows.now × (k < n) }
    ensures { result ≡ loss_needed (bit_at flows.now) n lost k sources targets }
{
    if (lost >> k) % 2 == 1 {
        return !stays_closed(flows, n, sources, targets);
    }
    true
}

// Each lost right of a subject is so.
fn losses_needed(
    flows: &[u32],
    n: usize,
    lost_reads: u32,
    lost_writes: u32,
    reads: u32,
    writes: u32,
) -> bool
    requires { FlowTable n flows.now }
    ensures { result ≡ losses_needed (bit_at flows.now) n lost_reads lost_writes reads writes }
{
    for k in 0..n {
        let object = 1u32 << k;
        if !loss_needed(flows, n, lost_reads, k, object, writes) {
            return false;
        }
        if !loss_needed(flows, n, lost_writes, k, reads, object) {
            return false;
        }
    }
    true
}

// Each lost right of each subject is so.
fn subjects_needed(
    old_reads: &[u32],
    old_writes: &[u32],
    reads: &[u32],
    writes: &[u32],
    flows: &[u32],
    n: usize,
) -> bool
    requires { Judging old_reads.now old_writes.now reads.now writes.now flows.now n }
    ensures { result ≡ minimal (matrix_of old_reads.now old_writes.now n) (matrix_of reads.now writes.now n) }
{
    for (s, &r) in reads.iter().enumerate() {
        let w = writes[s];
        if !losses_needed(flows, n, old_reads[s] & !r, old_writes[s] & !w, r, w) {
            return false;
        }
    }
    true
}

// None of the three matrices is malformed, and their counts do not differ.
fn comparable(
    old_reads: &[u32],
    old_writes: &[u32],
    old_objects: u32,
    required_reads: &[u32],
    required_writes: &[u32],
    required_objects: u32,
    reads: &[u32],
    writes: &[u32],
    objects: u32,
) -> bool
    ensures { result ≡ comparable
        (matrix_of old_reads.now old_writes.now old_objects)
        (matrix_of required_reads.now required_writes.now required_objects)
        (matrix_of reads.now writes.now objects) }
{
    if !matrix_good(old_reads, old_writes, old_objects) {
        return false;
    }
    if !matrix_good(required_reads, required_writes, required_objects) {
        return false;
    }
    if !matrix_good(reads, writes, objects) {
        return false;
    }
    if !same_counts(
        old_reads.len(),
        old_objects,
        required_reads.len(),
        required_objects,
    ) {
        return false;
    }
    same_counts(old_reads.len(), old_objects, reads.len(), objects)
}

// Conditions 3 and 4: the proposed matrix is consistent, and becomes inconsistent if any single right withdrawn from the old one is put
// back alone.
fn judge_flows(
    old_reads: &[u32],
    old_writes: &[u32],
    reads: &[u32],
    writes: &[u32],
    objects: u32,
) -> Judgement
    requires { Proposed old_reads.now old_writes.now reads.now writes.now objects }
    ensures { judgement_number (Ok result) ≡ flow_judgement (matrix_of old_reads.now old_writes.now objects) (matrix_of reads.now writes.now objects) }
{
    let n = objects as usize;
    let mut flows = [0u32; OBJECT_LIMIT];
    fill_granted(reads, writes, &mut flows, n);
    if !table_closed(&flows, n) {
        return Judgement::Inconsistent;
    }
    if !subjects_needed(old_reads, old_writes, reads, writes, &flows, n) {
        return Judgement::NotMinimal;
    }
    Judgement::Accepted
}

// The judgement on a proposal: the old matrix, the rights that must stay, and the proposed matrix, each as its read rows, its write
// rows and the number of its objects.
pub fn judge(
    old_reads: &[u32],
    old_writes: &[u32],
    old_objects: u32,
    required_reads: &[u32],
    required_writes: &[u32],
    required_objects: u32,
    reads: &[u32],
    writes: &[u32],
    objects: u32,
) -> Result<Judgement, Refusal>
    ensures { (judgement_number result ≡ judgement_of
        (matrix_of old_reads.now old_writes.now old_objects)
        (matrix_of required_reads.now required_writes.now required_objects)
        (matrix_of reads.now writes.now objects)) × MatrixAlone result }
{
    if !comparable(
        old_reads,
        old_writes,
        old_objects,
        required_reads,
        required_writes,
        required_objects,
        reads,
        writes,
        objects,
    ) {
        return Err(Refusal::Matrix);
    }
    if !rights_held(old_reads, old_writes, reads, writes) {
        return Ok(Judgement::RightAdded);
    }
    if !rights_held(reads, writes, required_reads, required_writes) {
        return Ok(Judgement::RightLost);
    }
    Ok(judge_flows(old_reads, old_writes, reads, writes, objects))
}
