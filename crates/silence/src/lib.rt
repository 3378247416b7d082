// A silent matrix: no session from its derived policy, of accesses that it allows, raises an alert (change request No. 8).
#![tactic(auto)]

ghost use Rattle.std.specs.Prelude.{◌≡◌, ◌<◌, true, length};
ghost use Rattle.rules.specs.Rules.{covers};
ghost use Rattle.matrix.specs.Limits.{object_limit};
ghost use Rattle.matrix.specs.Flows.{matrix_good};
ghost use Rattle.matrix.specs.Rows.{Closed};
ghost use Rattle.matrix.specs.Verdicts.{MatrixAlone};
ghost use Rattle.derivation.specs.Derived.{permit_of};
ghost use Rattle.silence.specs.Silent.{silent, silence_number, matrix_silence};

use answers::Refusal;

// The permit rule of object b, of what each writer reads and b, covers the tag.
fn permits(reads: &[u32], writes: &[u32], b: usize, tag: u32) -> bool
    requires { (length writes.now ≡ length reads.now) × (b < object_limit) }
    ensures { result ≡ covers (permit_of reads.now writes.now b) tag }
{
    let own = 1u32 << b;
    if own & tag == tag {
        return true;
    }
    for (s, &r) in reads.iter().enumerate() {
        let w = writes[s];
        if (w >> b) % 2 == 1 && (r | own) & tag == tag {
            return true;
        }
    }
    false
}

// Each object's permit rule covers its sources. What comes to the subjects gives them: row b of the exchanged matrix is the sources of b.
fn all_quiet(reads: &[u32], writes: &[u32], reach: &[u32], n: usize) -> bool
    requires { Closed writes.now reads.now n reach.now }
    ensures { result ≡ silent reads.now writes.now n }
{
    for b in 0..n {
        let tag = matrix::granted_row(writes, reach, b);
        if !permits(reads, writes, b, tag) {
            return false;
        }
    }
    true
}

// The same, with what comes to the subjects worked out.
fn composed_quiet(reads: &[u32], writes: &[u32], n: usize) -> bool
    requires { matrix_good reads.now writes.now n ≡ true }
    ensures { result ≡ silent reads.now writes.now n }
{
    let m = reads.len();
    // Kept: a rule of the project: no heap, so the array has room for the most that there can be.
    let mut reach = [0u32; matrix::SUBJECT_LIMIT];
    matrix::reach_flows(&writes[..m], &reads[..m], &mut reach);
    all_quiet(reads, writes, &reach[..m], n)
}

// The same. Nothing more than they read comes to the subjects if the exchanged rows lead no further.
// Two calls where one would do: one alone would be put in its place by the compiler, and each refusal would pay for its frame.
fn matrix_quiet(reads: &[u32], writes: &[u32], n: usize) -> bool
    requires { matrix_good reads.now writes.now n ≡ true }
    ensures { result ≡ silent reads.now writes.now n }
{
    if matrix::rows_closed(writes, reads) {
        return all_quiet(reads, writes, reads, n);
    }
    let m = reads.len();
    if m < matrix::SUBJECT_LIMIT {
        return composed_quiet(&reads[..m], &writes[..m], n);
    }
    composed_quiet(&reads[..m], &writes[..m], n)
}

// Whether a matrix is silent. The flows of the matrix with its rows exchanged are its own backwards, so that row b is the sources of b.
pub fn silent(reads: &[u32], writes: &[u32], objects: u32) -> Result<bool, Refusal>
    ensures { (silence_number result ≡ matrix_silence reads.now writes.now objects) × MatrixAlone result }
{
    if !matrix::matrix_good(reads, writes, objects) {
        return Err(Refusal::Matrix);
    }
    Ok(matrix_quiet(reads, writes, objects as usize))
}

// The number of an answer: 1 silent, 0 not, or the refusal's.
pub fn silence_number(silence: Result<bool, Refusal>) -> u32
    ensures { result ≡ silence_number silence }
{
    match silence {
        Ok(silent) => silent as u32,
        Err(refusal) => refusal.number(),
    }
}
