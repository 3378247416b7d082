// The functions that hosts call: include/yaslaurel.h has them as C sees them. Each only calls the library's own function.
#![tactic(auto)]

ghost use Rattle.std.specs.Prelude.{◌≡◌};
ghost use Rattle.image.specs.Image.{check_of};
ghost use Rattle.session.specs.Session.{start_answer, start_effect};
ghost use Rattle.answers.specs.Answers.{received, answer_number, received_after};
ghost use Rattle.monitor.specs.Steps.{step_answer, step_effect};
ghost use Rattle.monitor.specs.Stops.{ran, ran_effect};
ghost use Rattle.events.specs.Events.{gathered, gather_session, gather_events};
ghost use Rattle.totals.specs.Totals.{total_refusal, total_session, total_numbers, add_refusal, add_figures};
ghost use Rattle.trim.specs.Trims.{trim_answer, trim_effect};
ghost use Rattle.witness.specs.Explains.{explain_answer, explain_steps, explain_links};
ghost use Rattle.certificate.specs.Whys.{why_refusal, why_effect, why_steps, why_links};
ghost use Rattle.normaliser.specs.Normaliser.{normal_answer, normal_effect};
ghost use Rattle.matrix.specs.Verdicts.{matrix_verdict};
ghost use Rattle.matrix.specs.Flows.{matrix_of};
ghost use Rattle.silence.specs.Silent.{matrix_silence};
ghost use Rattle.game.specs.Outcomes.{game_values};
ghost use Rattle.withdrawals.specs.Judgements.{judgement_of};
ghost use Rattle.derivation.specs.Derived.{derived_answer, derived_effect};
ghost use Rattle.confinement.specs.Images.{profile_answer, profile_effect};
ghost use Rattle.composition.specs.Images.{compose_answer, compose_effect};
ghost use Rattle.capi.specs.Hosts.{stop_after, taken_after, gathered_after, written_after, kept_after, file_after, first_after, value_after, length_after, move_after};
ghost use Rattle.capi.specs.Versions.{version};

use answers::Refusal;
use image::CONTAINER_LIMIT;

// The number of a matrix that is not consistent.
const INCONSISTENT: u32 = 1;

// The greater of the numbers of the two sides of a game; those above are refusals.
const DESK: u32 = 1;

// 0.4.0: major times 65536, minor times 256, patch.
const VERSION: u32 = 1024;

// The version of the library.
#[unsafe(no_mangle)]
pub extern "C" fn yaslaurel_version() -> u32
    ensures { result ≡ version }
{
    VERSION
}

// 0 if the image is accepted, else its refusal, 1 to 6.
#[unsafe(no_mangle)]
pub extern "C" fn yaslaurel_image_check(image: &[u8]) -> u32
    ensures { result ≡ check_of image.now }
{
    answers::outcome_number(image::check(image))
}

// The length of the normal image, 18 or more, written to the front of out; else the refusal, 9 or 1 to 6, and out is as it was.
#[unsafe(no_mangle)]
pub extern "C" fn yaslaurel_image_normalise(image: &[u8], out: &mut [u8]) -> u32
    ensures { (result ≡ normal_answer image.now out.old) × (out.new ≡ normal_effect image.now out.old) }
{
    match normaliser::normalise(image, out) {
        Ok(length) => length as u32,
        Err(refusal) => refusal.number(),
    }
}

// 0 if the session was started, else the refusal, 9 or 1 to 6, and the session is as it was.
#[unsafe(no_mangle)]
pub extern "C" fn yaslaurel_session_start(image: &[u8], session: &mut [u64]) -> u32
    ensures { (result ≡ start_answer image.now session.old) × (session.new ≡ start_effect image.now session.old) }
{
    answers::outcome_number(session::start(image, session))
}

// 0 quiet, 256 alert, 257 blocked, with receiver, tag and position, which is 255 where no mixture covers the tag; else the refusal. The
// session changes in a quiet answer and in an alert alone, and in a refusal everything is as it was.
#[unsafe(no_mangle)]
pub extern "C" fn yaslaurel_step(
    session: &mut [u64],
    bytes: &[u8],
    receiver: &mut u64,
    tag: &mut u64,
    position: &mut u32,
) -> u32
    ensures { (result ≡ answer_number (step_answer session.old bytes.now))
        × (session.new ≡ step_effect session.old bytes.now)
        × (received receiver.new tag.new position.new
        ≡ received_after (step_answer session.old bytes.now) (received receiver.old tag.old position.old)) }
{
    monitor::step_into(session, bytes, receiver, tag, position)
}

// The records one behind the other, up to and with the first that is not answered quiet: 0 if each was, 256 alert or 257 blocked, with
// receiver, tag and position, or that record's refusal; taken is how many were run, that one among them. 9 comes first, and everything is
// as it was.
#[unsafe(no_mangle)]
pub extern "C" fn yaslaurel_run(
    session: &mut [u64],
    records: &[u8],
    taken: &mut usize,
    receiver: &mut u64,
    tag: &mut u64,
    position: &mut u32,
) -> u32
    ensures { (result ≡ answer_number (ran session.old records.now).answer)
        × (session.new ≡ ran_effect session.old records.now)
        × (taken.new ≡ taken_after (ran session.old records.now) taken.old)
        × (received receiver.new tag.new position.new
        ≡ stop_after (ran session.old records.now).answer (received receiver.old tag.old position.old)) }
{
    let ran = monitor::run(session, records);
    let answer = ran.answer;
    let number = answers::number(answer);
    if number == Refusal::LentLength as u32 {
        return number;
    }
    *taken = ran.taken;
    if !answers::is_forbidden(answer) {
        return number;
    }
    let received = answers::received_of(answer);
    *receiver = received.receiver as u64;
    *tag = received.tag;
    *position = received.position as u32;
    number
}

// 0 with an event for each record that is not answered quiet, at the front of `events`, how many were taken, up to where there was no room for one
// more event, and how many events there are; else 9, and everything is as it was.
#[unsafe(no_mangle)]
pub extern "C" fn yaslaurel_events(
    session: &mut [u64],
    records: &[u8],
    events: &mut [u64],
    taken: &mut usize,
    written: &mut usize,
) -> u32
    ensures { (result ≡ (gathered session.old records.now events.old).refusal)
        × (session.new ≡ gather_session session.old records.now events.old)
        × (events.new ≡ gather_events session.old records.now events.old)
        × (taken.new ≡ gathered_after (gathered session.old records.now events.old) taken.old)
        × (written.new ≡ written_after (gathered session.old records.now events.old) written.old) }
{
    match events::gather_events(session, records, events) {
        Ok(gathered) => {
            *taken = gathered.taken;
            *written = gathered.written;
            0
        }
        Err(refusal) => refusal.number(),
    }
}

// 0 with the figures of the records, run to their end; else 9, and everything is as it was.
#[unsafe(no_mangle)]
pub extern "C" fn yaslaurel_figures(session: &mut [u64], records: &[u8], figures: &mut [u64]) -> u32
    ensures { (result ≡ total_refusal session.old figures.old)
        × (session.new ≡ total_session session.old records.now figures.old)
        × (figures.new ≡ total_numbers session.old records.now figures.old) }
{
    answers::outcome_number(totals::count_trace(session, records, figures))
}

// 0 with each figure added to its like in the total; else 9, and everything is as it was.
#[unsafe(no_mangle)]
pub extern "C" fn yaslaurel_figures_add(total: &mut [u64], figures: &[u64]) -> u32
    ensures { (result ≡ add_refusal total.old figures.now)
        × (total.new ≡ add_figures total.old figures.now) }
{
    answers::outcome_number(totals::add(total, figures))
}

// 0 with the kept positions at the front of `positions`, in rising order, and how many they are behind `kept`; else the refusal, 9, 1 to 6
// or 22, and everything is as it was.
#[unsafe(no_mangle)]
pub extern "C" fn yaslaurel_trace_trim(
    image: &[u8],
    trace: &[u8],
    positions: &mut [u8],
    kept: &mut usize,
) -> u32
    ensures { (result ≡ (trim_answer image.now trace.now positions.old).refusal)
        × (positions.new ≡ trim_effect image.now trace.now positions.old)
        × (kept.new ≡ kept_after (trim_answer image.now trace.now positions.old) kept.old) }
{
    match trim::trim(image, trace, positions) {
        Ok(count) => {
            *kept = count;
            0
        }
        Err(refusal) => refusal.number(),
    }
}

// 0 with the number of the file where the chain begins, 256 if there is none, and where the numbers of its records stand in the steps, up
// to their end; else the refusal, 9, 1 to 6 or 24, and everything is as it was.
#[unsafe(no_mangle)]
pub extern "C" fn yaslaurel_explain(
    image: &[u8],
    trace: &[u8],
    container: usize,
    atom: usize,
    links: &mut [u64],
    steps: &mut [u64],
    file: &mut u64,
    first: &mut u64,
) -> u32
    ensures { (result ≡ (explain_answer image.now trace.now container atom links.old steps.old).refusal)
        × (links.new ≡ explain_links image.now trace.now container atom links.old steps.old)
        × (steps.new ≡ explain_steps image.now trace.now container atom links.old steps.old)
        × (file.new ≡ file_after (explain_answer image.now trace.now container atom links.old steps.old) file.old)
        × (first.new ≡ first_after (explain_answer image.now trace.now container atom links.old steps.old) first.old) }
{
    match witness::explain(image, trace, container, atom, links, steps) {
        Ok(found) => {
            *file = found.file.unwrap_or(CONTAINER_LIMIT) as u64;
            *first = found.first as u64;
            0
        }
        Err(refusal) => refusal.number(),
    }
}

// 0 with the reason in seventeen numbers at the front of `why`, and the records of a run rule's chain at the end of the steps; else the
// refusal, 9, 1 to 6 or 25, and everything is as it was.
#[unsafe(no_mangle)]
pub extern "C" fn yaslaurel_why(
    image: &[u8],
    trace: &[u8],
    links: &mut [u64],
    steps: &mut [u64],
    why: &mut [u64],
) -> u32
    ensures { (result ≡ why_refusal image.now trace.now links.old steps.old why.old)
        × (why.new ≡ why_effect image.now trace.now links.old steps.old why.old)
        × (steps.new ≡ why_steps image.now trace.now links.old steps.old why.old)
        × (links.new ≡ why_links image.now trace.now links.old steps.old why.old) }
{
    answers::outcome_number(certificate::why(image, trace, links, steps, why))
}

// 0 consistent, with zeros; 1 with the number of flows and the first of them; else 8, and everything is as it was.
#[unsafe(no_mangle)]
pub extern "C" fn yaslaurel_matrix_verdict(
    reads: &[u32],
    writes: &[u32],
    objects: u32,
    count: &mut u32,
    source: &mut u32,
    target: &mut u32,
) -> u32
    ensures { (result ≡ (matrix_verdict reads.now writes.now objects).number)
        × (count.new
        ≡ value_after (matrix_verdict reads.now writes.now objects).number
        (matrix_verdict reads.now writes.now objects).count count.old)
        × (source.new
        ≡ value_after (matrix_verdict reads.now writes.now objects).number
        (matrix_verdict reads.now writes.now objects).source source.old)
        × (target.new
        ≡ value_after (matrix_verdict reads.now writes.now objects).number
        (matrix_verdict reads.now writes.now objects).target target.old) }
{
    match matrix::verdict(reads, writes, objects) {
        Err(refusal) => refusal.number(),
        Ok(None) => {
            *count = 0;
            *source = 0;
            *target = 0;
            0
        }
        Ok(Some(found)) => {
            *count = found.count;
            *source = found.source;
            *target = found.target;
            INCONSISTENT
        }
    }
}

// 1 if the matrix is silent, 0 if it is not, else 8.
#[unsafe(no_mangle)]
pub extern "C" fn yaslaurel_matrix_silent(reads: &[u32], writes: &[u32], objects: u32) -> u32
    ensures { result ≡ matrix_silence reads.now writes.now objects }
{
    silence::silence_number(silence::silent(reads, writes, objects))
}

// 1 if the desk can force its win, with its first winning move: 1 read, 3 append, 0 pass, its subject and its object. 0 if the guard can
// prevent it, with zeros. Else 8, then 23, and everything is as it was.
#[unsafe(no_mangle)]
pub extern "C" fn yaslaurel_matrix_game(
    reads: &[u32],
    writes: &[u32],
    objects: u32,
    source: u32,
    target: u32,
    rounds: u32,
    withdrawals: u32,
    code: &mut u32,
    subject: &mut u32,
    object: &mut u32,
) -> u32
    ensures { (result ≡ (game_values reads.now writes.now objects source target rounds withdrawals).number)
        × (code.new
        ≡ move_after (game_values reads.now writes.now objects source target rounds withdrawals).number
        (game_values reads.now writes.now objects source target rounds withdrawals).code code.old)
        × (subject.new
        ≡ move_after (game_values reads.now writes.now objects source target rounds withdrawals).number
        (game_values reads.now writes.now objects source target rounds withdrawals).subject subject.old)
        × (object.new
        ≡ move_after (game_values reads.now writes.now objects source target rounds withdrawals).number
        (game_values reads.now writes.now objects source target rounds withdrawals).object object.old) }
{
    let outcome = game::play(reads, writes, objects, source, target, rounds, withdrawals);
    let values = game::outcome_values(outcome);
    if DESK < values.number {
        return values.number;
    }
    *code = values.code;
    *subject = values.subject;
    *object = values.object;
    values.number
}

// 0 if the proposal to withdraw rights is accepted, else the first condition that fails, 1 to 4, or 8. The old matrix, the rights that
// must stay, and the proposed matrix.
#[unsafe(no_mangle)]
pub extern "C" fn yaslaurel_matrix_judge(
    old_reads: &[u32],
    old_writes: &[u32],
    old_objects: u32,
    required_reads: &[u32],
    required_writes: &[u32],
    required_objects: u32,
    reads: &[u32],
    writes: &[u32],
    objects: u32,
) -> u32
    ensures { result ≡ judgement_of
        (matrix_of old_reads.now old_writes.now old_objects)
        (matrix_of required_reads.now required_writes.now required_objects)
        (matrix_of reads.now writes.now objects) }
{
    let judgement = withdrawals::judge(
        old_reads,
        old_writes,
        old_objects,
        required_reads,
        required_writes,
        required_objects,
        reads,
        writes,
        objects,
    );
    withdrawals::judgement_number(judgement)
}

// The length of the derived policy's image, written to the front of out; else the refusal, 9 or 8, and out is as it was.
#[unsafe(no_mangle)]
pub extern "C" fn yaslaurel_matrix_policy(
    reads: &[u32],
    writes: &[u32],
    objects: u32,
    out: &mut [u8],
) -> u32
    ensures { (result ≡ derived_answer reads.now writes.now objects out.old)
        × (out.new ≡ derived_effect reads.now writes.now objects out.old) }
{
    match derivation::derive(reads, writes, objects, out) {
        Ok(length) => length,
        Err(refusal) => refusal.number(),
    }
}

// The length of the image of the policy that a text of profiles stands for, written to the front of out; else the refusal, 9, 16 or
// 17, and out is as it was.
#[unsafe(no_mangle)]
pub extern "C" fn yaslaurel_profiles_policy(text: &[u8], out: &mut [u8]) -> u32
    ensures { (result ≡ profile_answer text.now out.old)
        × (out.new ≡ profile_effect text.now out.old) }
{
    match confinement::derive(text, out) {
        Ok(length) => length as u32,
        Err(refusal) => refusal.number(),
    }
}

// 0 if two images were composed, with the length of the image that was written to the front of out; else the refusal, 9, 1 to 6 for the
// first image and then for the second, 20 or 21, and everything is as it was.
#[unsafe(no_mangle)]
pub extern "C" fn yaslaurel_image_compose(
    first: &[u8],
    second: &[u8],
    consent: &[u8],
    out: &mut [u8],
    length: &mut usize,
) -> u32
    ensures { (result ≡ (compose_answer first.now second.now consent.now out.old).refusal)
        × (length.new ≡ length_after (compose_answer first.now second.now consent.now out.old) length.old)
        × (out.new ≡ compose_effect first.now second.now consent.now out.old) }
{
    match composition::compose(first, second, consent, out) {
        Ok(written) => {
            *length = written;
            0
        }
        Err(refusal) => refusal.number(),
    }
}
