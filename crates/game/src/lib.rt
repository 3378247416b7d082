// Desk against guard: who can force the outcome of a game on an access matrix (change request No. 14).
#![tactic(auto)]

ghost use Rattle.std.specs.Prelude.{◌≡◌, true, ◌^◌, ◌≤◌, ◌<◌};
ghost use Rattle.matrix.specs.Rows.{bits_of};
ghost use Rattle.game.specs.Limits.{side_limit, right_count, move_count};
ghost use Rattle.game.specs.Positions.{legal, moved, withdrawn};
ghost use Rattle.game.specs.Games.{desk_wins, guard_loses, move_wins};
ghost use Rattle.game.specs.Outcomes.{game_good, right_in, move_at, first_winning, outcome_of, without_move, move_values, outcome_values, Answered, game_values};
ghost use Rattle.game.specs.Search.{to_first_object, adds, additions, reaches_in, Searched, Rows};

use answers::Refusal;
use matrix::matrix_good;

// The most subjects and objects, rounds and withdrawals of a game.
const SUBJECT_LIMIT: usize = 3;

const OBJECT_LIMIT: u32 = 3;

const ROUND_LIMIT: u32 = 4;

const WITHDRAWAL_LIMIT: u32 = 2;

// Rights 0 to 8 are reads, 9 to 17 writes, each by subject, then object. The move of the same number uses the right; move 18 is the pass.
const READ_COUNT: u32 = 9;

const RIGHT_COUNT: u32 = 18;

const MOVE_COUNT: u32 = 19;

// The set of all three subjects, or objects.
const ALL: u32 = 7;

// The write that has number 9, as a set.
const FIRST_WRITE: u32 = 512;

// For each set of subjects, their rights to read object 0.
const TO_FIRST_OBJECT: [u8; 8] = [0, 1, 8, 9, 64, 65, 72, 73];

// Those of all three.
const ALL_TO_FIRST_OBJECT: u32 = 73;

// The numbers of the sides as an answer, and the codes of a read and an append.
const GUARD: u32 = 0;

const DESK: u32 = 1;

const READ: u32 = 1;

const APPEND: u32 = 3;

// The rights that stand, and the subjects and objects that hold a's information, each as a set of bits.
#[derive(Clone, Copy)]
pub struct Position {
    pub rights: u32,
    pub subjects: u32,
    pub objects: u32,
}

// A move of the desk.
#[derive(Clone, Copy)]
pub enum Move {
    Read { subject: u32, object: u32 },
    Append { subject: u32, object: u32 },
    Pass,
}

// An outcome in numbers: 1 the desk, 0 the guard, or the refusal; then the move, 1 read, 3 append, 0 pass, its subject and its object.
#[derive(Clone, Copy)]
pub struct OutcomeValues {
    pub number: u32,
    pub code: u32,
    pub subject: u32,
    pub object: u32,
}

// The right of this number stands, or the move is the pass.
fn legal(p: Position, k: u32) -> bool
    requires { k < move_count }
    ensures { result ≡ legal p k }
{
    if k < RIGHT_COUNT {
        return (p.rights >> k) % 2 == 1;
    }
    true
}

// The rights of these subjects to read object 0.
fn to_first_object(subjects: u32) -> u32
    requires { subjects < 2 ^ side_limit }
    ensures { (result ≡ to_first_object subjects) × (result ≤ 73) }
{
    let i = subjects as usize;
    TO_FIRST_OBJECT[i] as u32
}

// The moves that bring the information to a holder that lacks it, as one set: reads of the objects that hold it, by each subject that does
// not, and appends to the objects that do not, by each subject that does.
fn additions(p: Position) -> u32
    requires { (p.subjects < 2 ^ side_limit) × (p.objects < 2 ^ side_limit) }
    ensures { result ≡ additions p }
{
    let reads = to_first_object(ALL - p.subjects) * p.objects;
    let appends = to_first_object(p.subjects) * (ALL - p.objects);
    p.rights & (reads + FIRST_WRITE * appends)
}

// One of the moves is an append to b.
fn reaches(moves: u32, b: u32) -> bool
    requires { b < side_limit }
    ensures { result ≡ reaches_in b moves }
{
    moves & ALL_TO_FIRST_OBJECT << (READ_COUNT + b) != 0
}

// The position after a move that brings the information to a holder that lacked it.
fn moved(p: Position, k: u32) -> Position
    requires { (k < right_count) × (adds p k ≡ true) }
    ensures { result ≡ moved p k }
{
    if k < READ_COUNT {
        return Position {
            subjects: p.subjects | 1u32 << (k / OBJECT_LIMIT),
            ..p
        };
    }
    Position {
        objects: p.objects | 1u32 << (k % OBJECT_LIMIT),
        ..p
    }
}

// The position after a withdrawal.
fn withdrawn(p: Position, k: u32) -> Position
    requires { k < right_count }
    ensures { result ≡ withdrawn p k }
{
    Position {
        rights: p.rights & !(1u32 << k),
        ..p
    }
}

// Whether the desk, whose turn it is, can force its win within so many rounds.
#[cycle(desk_guard)]
fn desk(rounds: u32, b: u32, left: u32, p: Position) -> bool
    requires { Searched rounds b p }
    ensures { result ≡ desk_wins rounds b left p }
{
    let moves = additions(p);
    if reaches(moves, b) {
        return true;
    }
    if rounds == 1 {
        return false;
    }
    for k in 0..RIGHT_COUNT {
        if (moves >> k) % 2 == 1 && guard(rounds, b, left, moved(p, k)) {
            return true;
        }
    }
    false
}

// Whether the desk can force its win whatever the guard, whose turn it is, replies.
#[cycle(desk_guard)]
fn guard(rounds: u32, b: u32, left: u32, p: Position) -> bool
    requires { Searched rounds b p }
    ensures { result ≡ guard_loses rounds b left p }
{
    if rounds == 1 {
        return false;
    }
    if !desk(rounds - 1, b, left, p) {
        return false;
    }
    if left == 0 {
        return true;
    }
    for k in 0..RIGHT_COUNT {
        if legal(p, k) && !desk(rounds - 1, b, left - 1, withdrawn(p, k)) {
            return false;
        }
    }
    true
}

// Whether this move of the desk wins. `moves` has those that bring the information to a holder that lacks it; `idle` says whether one wins that
// leaves the position as it is.
fn move_wins(rounds: u32, b: u32, left: u32, p: Position, k: u32, moves: u32, idle: bool) -> bool
    requires { Searched rounds b p × (k < move_count) × (moves ≡ additions p) × (idle ≡ guard_loses rounds b left p) }
    ensures { result ≡ move_wins rounds b left p k }
{
    if !legal(p, k) {
        return false;
    }
    if (moves >> k) % 2 == 0 {
        return idle;
    }
    let q = moved(p, k);
    if (q.objects >> b) % 2 == 1 {
        return true;
    }
    guard(rounds, b, left, q)
}

// The first move that wins, if one does.
fn first_winning(rounds: u32, b: u32, left: u32, p: Position) -> Option<Move>
    requires { Searched rounds b p }
    ensures { result ≡ outcome_of (first_winning rounds b left p) }
{
    let moves = additions(p);
    let idle = guard(rounds, b, left, p);
    for k in 0..MOVE_COUNT {
        if move_wins(rounds, b, left, p, k, moves, idle) {
            return Some(move_at(k));
        }
    }
    None
}

// The rights of a matrix, as one set.
fn rights_in(reads: &[u32], writes: &[u32]) -> u32
    requires { Rows reads.now writes.now }
    ensures { result ≡ bits_of (right_in reads.now writes.now) right_count }
{
    let mut rights = 0u32;
    for (s, &r) in reads.iter().enumerate() {
        let place = OBJECT_LIMIT * (s as u32);
        let row = r + FIRST_WRITE * writes[s];
        rights |= row << place;
    }
    rights
}

// The move of this number.
fn move_at(k: u32) -> Move
    ensures { result ≡ move_at k }
{
    let subject = k % READ_COUNT / OBJECT_LIMIT;
    let object = k % OBJECT_LIMIT;
    if k < READ_COUNT {
        return Move::Read { subject, object };
    }
    if k < RIGHT_COUNT {
        return Move::Append { subject, object };
    }
    Move::Pass
}

// Two different objects, and counts within their bounds.
fn game_good(subjects: usize, objects: u32, a: u32, b: u32, rounds: u32, withdrawals: u32) -> bool
    ensures { result ≡ game_good subjects objects a b rounds withdrawals }
{
    if SUBJECT_LIMIT < subjects {
        return false;
    }
    if OBJECT_LIMIT < objects {
        return false;
    }
    if objects <= a {
        return false;
    }
    if objects <= b {
        return false;
    }
    if a == b {
        return false;
    }
    if rounds < 1 {
        return false;
    }
    if ROUND_LIMIT < rounds {
        return false;
    }
    withdrawals <= WITHDRAWAL_LIMIT
}

// The first winning move of the desk, which is to bring object a's information into object b; none if the guard can prevent it. Row s is
// what subject s reads, or writes, bit k standing for object k.
pub fn play(
    reads: &[u32],
    writes: &[u32],
    objects: u32,
    a: u32,
    b: u32,
    rounds: u32,
    withdrawals: u32,
) -> Result<Option<Move>, Refusal>
    ensures { (outcome_values result ≡ game_values reads.now writes.now objects a b rounds withdrawals) × Answered result }
{
    if !matrix_good(reads, writes, objects) {
        return Err(Refusal::Matrix);
    }
    if !game_good(reads.len(), objects, a, b, rounds, withdrawals) {
        return Err(Refusal::GameBounds);
    }
    let p = Position {
        rights: rights_in(reads, writes),
        subjects: 0,
        objects: 1u32 << a,
    };
    Ok(first_winning(rounds, b, withdrawals, p))
}

// The values of an outcome that names no move.
fn without_move(number: u32) -> OutcomeValues
    ensures { result ≡ without_move number }
{
    OutcomeValues {
        number,
        code: 0,
        subject: 0,
        object: 0,
    }
}

// The values of an outcome in which the desk wins by this move.
fn move_values(first: Move) -> OutcomeValues
    ensures { result ≡ move_values first }
{
    match first {
        Move::Read { subject, object } => OutcomeValues {
            number: DESK,
            code: READ,
            subject,
            object,
        },
        Move::Append { subject, object } => OutcomeValues {
            number: DESK,
            code: APPEND,
            subject,
            object,
        },
        Move::Pass => without_move(DESK),
    }
}

// The numbers of each case of the answer.
pub fn outcome_values(outcome: Result<Option<Move>, Refusal>) -> OutcomeValues
    ensures { result ≡ outcome_values outcome }
{
    match outcome {
        Ok(Some(first)) => move_values(first),
        Ok(None) => without_move(GUARD),
        Err(refusal) => without_move(refusal.number()),
    }
}
