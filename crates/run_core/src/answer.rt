//! Decides the outcome of a password or a line, and renders it as an output line. A line is rendered once, after all
//! its hashes have been computed.
ghost use Rattle.std.specs.Prelude.{◌≡◌, ℕ, List, decimal, ◌+◌, ◌*◌, ◌<◌, ◌≤◌, ◌++◌, [], length, Some, None, Ok, IfOk, OnOk, OnErr};
ghost use Rattle.arrayvec.specs.ArrayVec.{array_vec_len};
ghost use Rattle.crypt_core.specs.Crypt.{IsAfterFailedAllocation};
ghost use Rattle.crypt_core.specs.Work.{raised_by, work, work_limit};
ghost use Rattle.prims_core.specs.Meter.{HasRoom};
ghost use Rattle.prims_core.specs.Work.{IsWithin};
ghost use Rattle.run_core.specs.Answers.{Answer, is_misfit, new_hash, rendered, shows_work, work_text};
ghost use Rattle.run_core.specs.Audits.{finding_text, rounds_text};
ghost use Rattle.run_core.specs.LineAnswers.{refusal};
ghost use Rattle.run_core.specs.Lines.{name_limit};
ghost use Rattle.run_core.specs.Makers.{bytes_of, next_setting, stream_after};
ghost use Rattle.run_core.specs.Private.Answers.{Concludes, Decides, IsRaisedBelow, Renders, Settles, count_text, front_by, wanted_text};
ghost use Rattle.run_core.specs.Private.Headroom.{HasCountsForLine, answer_limit, count_limit, finding_limit, front_limit, line_work_limit, number_limit, rounds_limit};
ghost use Rattle.run_core.specs.Private.Lines.{AreSound, HasSoundParts, Represents, parts_of};
ghost use Rattle.run_core.specs.Texts.{as_line};
ghost use Rattle.crypt_core.specs.declared.stored.StoredField.TheVariants.{Hash};

use crate::audit::{audit, standing_text};
use crate::job::Job;
use crate::line::{Kind, LineFault, NAME_LIMIT, Parts, inspect};
use crate::reader::buffer::LineBuffer;
use arrayvec::ArrayVec;
use crypt_core::finding::Finding;
use crypt_core::hash::{HASH_LIMIT, HashFault, Hashed, hash};
use crypt_core::password::Password;
use crypt_core::scheme::Scheme;
use crypt_core::stored::{StoredField, StoredHash};
use crypt_core::work::cost;
use itoa::Buffer;
use prims_core::meter::{Meter, Work};
use rand_core::Rng;
use std::alloc::Global;

// The maximum length of one count: a colon and the digits of a 64-bit number.
const COUNT_LIMIT: usize = 21;

// The maximum length of an output line: a name, `:ok:`, a hash, four counts and a line feed.
const ANSWER_LIMIT: usize = NAME_LIMIT + 4 + HASH_LIMIT + 4 * COUNT_LIMIT + 1;

/// The buffer for an output line.
pub(crate) type Text = ArrayVec<u8, ANSWER_LIMIT>;

/// The outcome of a password or a line.
#[derive(Drop)]
pub(crate) enum Outcome {
    /// The hash of the password.
    Hashed(Hashed),
    /// The password matches its stored hash.
    Match,
    /// The password matches, but the stored setting is out of date. The value is the new hash.
    Rehashed(Hashed),
    /// The password does not match its stored hash.
    Misfit,
    /// The field is empty.
    NoHash,
    /// The field is locked: it begins with `!` or `*`.
    Locked,
    /// What the audit found in the field.
    Audited(Finding),
}

impl Outcome {
    /// Returns whether the password does not match its stored hash, or the audited account needs care
    /// ([`Finding::needs_care`]).
    pub(crate) fn is_misfit(&self) -> bool
        ensures { result ≡ is_misfit (Ok self.now) }
    {
        match self {
            Outcome::Misfit => true,
            Outcome::Audited(finding) => finding.needs_care(),
            Outcome::Hashed(_)
            | Outcome::Match
            | Outcome::Rehashed(_)
            | Outcome::NoHash
            | Outcome::Locked => false,
        }
    }

    // Returns whether the output line shows counts: they are wanted, and the outcome is not the finding of an audit.
    fn shows_work(&self, wanted: bool) -> bool
        ensures { result ≡ shows_work self.now wanted }
    {
        wanted && !matches!(self, Outcome::Audited(_))
    }
}

/// The answer to a line, not yet as text: the name, the outcome, and the work of the line's hashes.
#[derive(Drop)]
pub(crate) struct Answered<'a> {
    pub(crate) name: &'a [u8],
    pub(crate) outcome: Outcome,
    pub(crate) work: Work,
}

/// Returns the answer to a line, or the reason why the line is refused.
///
/// A line that breaks a rule ([`inspect`]), or that can cost more than the budget, is refused before anything is
/// hashed. A new salt takes three random numbers; for a rehash they are drawn after the password has matched. An audit
/// hashes and draws nothing, and refuses no line for its cost.
///
/// # Errors
///
/// - `OutOfMemory`: scrypt could not allocate memory for one of the line's hashes ([`hash`]).
pub(crate) fn answer_line<'a, R: Rng>(
    alloc: Global,
    kind: Kind,
    job: &Job,
    line: &'a LineBuffer,
    rng: &mut R,
    meter: &mut Meter,
) -> Result<Result<Answered<'a>, LineFault>, HashFault>
    requires { HasCountsForLine meter.old }
    ensures decides { (text : List ℕ) → Represents line.now text
        → Decides kind job.now text (R.stream rng.old) meter.old meter.new (R.stream rng.new) result }
    ensures short { IfOk result (λ answer. IfOk answer (λ answered. length answered.name.now ≤ name_limit)) }
    ensures small { IsRaisedBelow line_work_limit meter.old meter.new }
{
    let LineBuffer::Bytes(bytes) = line else {
        return Ok(Err(LineFault::LineTooLong));
    };
    let bytes = bytes.as_slice();
    if let Some(fault) = inspect(kind, bytes) {
        return Ok(Err(fault));
    }
    // `inspect` found no broken rule, so the line has all its parts.
    let parts = Parts::of(kind, bytes).unwrap();
    let before = meter.reading();
    let outcome = match outcome_of(alloc, kind, job, &parts, rng, meter)? {
        Ok(outcome) => outcome,
        Err(fault) => return Ok(Err(fault)),
    };
    Ok(Ok(Answered {
        name: parts.name,
        outcome,
        work: meter.work_since(&before),
    }))
}

// Returns the outcome of a line that breaks no rule, or `OverBudget` if it can cost too much. Since the line breaks no
// rule, its password and its field are valid.
fn outcome_of<R: Rng>(
    alloc: Global,
    kind: Kind,
    job: &Job,
    parts: &Parts<'_>,
    rng: &mut R,
    meter: &mut Meter,
) -> Result<Result<Outcome, LineFault>, HashFault>
    requires counts { HasCountsForLine meter.old }
    requires sound { AreSound kind (parts_of parts.now) }
    ensures settles { (line : List ℕ) → HasSoundParts kind line (parts_of parts.now)
        → Concludes kind job.now line parts.now.name.now (R.stream rng.old) meter.old meter.new (R.stream rng.new) result }
    ensures rises { IsWithin meter.old meter.new }
    ensures small { IsRaisedBelow line_work_limit meter.old meter.new }
{
    let Some(field) = parts.field else {
        let password = Password::new(parts.password).unwrap();
        return hash_within_budget(alloc, job, &password, rng, meter);
    };
    if kind == Kind::Audit {
        return Ok(Ok(Outcome::Audited(audit(job, field))));
    }
    match StoredField::read(field).unwrap() {
        StoredField::Empty => Ok(Ok(Outcome::NoHash)),
        StoredField::Locked => Ok(Ok(Outcome::Locked)),
        StoredField::Hash(stored) => {
            let password = Password::new(parts.password).unwrap();
            check_within_budget(alloc, job, &stored, &password, rng, meter)
        }
    }
}

// Hashes the password, or returns `OverBudget` if that can cost more than the budget.
fn hash_within_budget<R: Rng>(
    alloc: Global,
    job: &Job,
    password: &Password,
    rng: &mut R,
    meter: &mut Meter,
) -> Result<Result<Outcome, LineFault>, HashFault>
    requires counts { HasCountsForLine meter.old }
    ensures settles { Settles job.now password.now None (R.stream rng.old) meter.old meter.new (R.stream rng.new) result }
    ensures rises { IsWithin meter.old meter.new }
    ensures small { IsRaisedBelow line_work_limit meter.old meter.new }
{
    if job.is_exceeded_by(job.maker.cost(password.bytes().len())) {
        return Ok(Err(LineFault::OverBudget));
    }
    Ok(Ok(Outcome::Hashed(make_hash(alloc, job, password, rng, meter)?)))
}

// Checks the password against its stored hash, and hashes a matching password again if the job asks for rehashes and
// the setting is out of date. Returns `OverBudget` and hashes nothing if these hashes together can cost more than the
// budget.
fn check_within_budget<R: Rng>(
    alloc: Global,
    job: &Job,
    stored: &StoredHash<'_>,
    password: &Password,
    rng: &mut R,
    meter: &mut Meter,
) -> Result<Result<Outcome, LineFault>, HashFault>
    requires counts { HasCountsForLine meter.old }
    ensures settles { Settles job.now password.now (Some (Hash stored.now)) (R.stream rng.old) meter.old meter.new (R.stream rng.new) result }
    ensures rises { IsWithin meter.old meter.new }
    ensures small { IsRaisedBelow line_work_limit meter.old meter.new }
{
    let password_len = password.bytes().len();
    let is_outdated = job.is_outdated(stored);
    let new_cost = if is_outdated {
        job.maker.cost(password_len)
    } else {
        0
    };
    if job.is_exceeded_by(cost(stored.setting(), password_len) + new_cost) {
        return Ok(Err(LineFault::OverBudget));
    }
    let mut heap = alloc;
    if !stored.matches(&mut heap, password, meter)? {
        return Ok(Ok(Outcome::Misfit));
    }
    if !is_outdated {
        return Ok(Ok(Outcome::Match));
    }
    Ok(Ok(Outcome::Rehashed(make_hash(alloc, job, password, rng, meter)?)))
}

/// Hashes a password with the next setting of the job's maker.
///
/// A new salt takes three random numbers. With a given salt none is drawn.
///
/// # Errors
///
/// - `OutOfMemory`: scrypt could not allocate memory ([`hash`]). The random numbers have been drawn by then.
pub(crate) fn make_hash<R: Rng>(
    alloc: Global,
    job: &Job,
    password: &Password,
    rng: &mut R,
    meter: &mut Meter,
) -> Result<Hashed, HashFault>
    requires { HasRoom meter.old }
    ensures hash { IfOk result (λ hash. hash ≡ new_hash job.now password.now (R.stream rng.old)) }
    ensures count { OnOk result (meter.new ≡ raised_by meter.old (work password.now (next_setting job.now.maker (R.stream rng.old)))) }
    ensures refused { OnErr result (IsAfterFailedAllocation meter.old (next_setting job.now.maker (R.stream rng.old)).scheme meter.new) }
    ensures stream { R.stream rng.new ≡ stream_after job.now.maker (R.stream rng.old) }
    ensures rises { IsWithin meter.old meter.new }
    ensures small { IsRaisedBelow work_limit meter.old meter.new }
{
    let setting = job.maker.next_setting(rng);
    hash(alloc, password, &setting, meter)
}

/// Returns the message about a refused line: `mkpasswd: line NUMBER: MESSAGE` and a line feed.
pub(crate) fn render_refusal(number: u64, fault: &LineFault) -> Text
    ensures { result.items ≡ (refusal number fault.now).text }
{
    let mut text = Text::new();
    append(&mut text, b"mkpasswd: line ");
    append(&mut text, Buffer::new().format(number).as_bytes());
    append(&mut text, b": ");
    append(&mut text, fault.text().as_bytes());
    text.push(b'\n');
    text
}

/// Returns the output line of an outcome.
///
/// It consists of the name and a colon (if there is a name), the outcome, the counts of `work` if the job asks for
/// them, and a line feed. The finding of an audit shows no counts. Precondition: the name has at most [`NAME_LIMIT`]
/// bytes.
pub(crate) fn render(job: &Job, name: Option<&[u8]>, outcome: &Outcome, work: &Work) -> Text
    requires { length (front_by (bytes_of name)) ≤ front_limit }
    ensures { result.items ≡ as_line (front_by (bytes_of name.entry) ++ (rendered outcome.now ++ wanted_text (shows_work outcome.now job.now.work) work.now)) }
{
    let mut text = Text::new();
    if let Some(name) = name {
        append(&mut text, name);
        text.push(b':');
    }
    match outcome {
        Outcome::Hashed(hash) => append(&mut text, hash.text()),
        Outcome::Match => append(&mut text, b"ok"),
        Outcome::Rehashed(hash) => {
            append(&mut text, b"ok:");
            append(&mut text, hash.text());
        }
        Outcome::Misfit => append(&mut text, b"no"),
        Outcome::NoHash => append(&mut text, b"none"),
        Outcome::Locked => append(&mut text, b"locked"),
        Outcome::Audited(finding) => append_finding(&mut text, finding),
    }
    if outcome.shows_work(job.work) {
        append_counts(&mut text, work);
    }
    text.push(b'\n');
    text
}

// Appends the text of a finding.
fn append_finding(text: &mut Text, finding: &Finding)
    requires { array_vec_len text.old + finding_limit ≤ answer_limit }
    ensures text { text.new.items ≡ text.old.items ++ finding_text finding.now }
    ensures short { array_vec_len text.new ≤ array_vec_len text.old + finding_limit }
{
    match finding {
        Finding::Hash {
            scheme,
            most,
            standing,
        } => {
            append(text, scheme.method().name());
            text.push(b':');
            append_rounds(text, scheme);
            append_count(text, *most);
            text.push(b':');
            append(text, standing_text(*standing));
        }
        Finding::NoHash => append(text, b"none"),
        Finding::Locked => append(text, b"locked"),
        Finding::Other(other) => {
            append(text, other.name());
            append(text, b":unknown");
        }
        Finding::Unknown => append(text, b"unknown"),
        Finding::NoScheme => append(text, b"no scheme"),
        Finding::Malformed(fault) => {
            append(text, b"malformed:");
            append(text, fault.text().as_bytes());
        }
    }
}

// Appends the number of rounds of a scheme, or `N/r/p` for scrypt.
fn append_rounds(text: &mut Text, scheme: &Scheme)
    requires { array_vec_len text.old + rounds_limit ≤ answer_limit }
    ensures text { text.new.items ≡ text.old.items ++ rounds_text scheme.now }
    ensures short { array_vec_len text.new ≤ array_vec_len text.old + rounds_limit }
{
    match scheme {
        Scheme::Md5crypt => append(text, b"1000"),
        Scheme::Shacrypt(_, rounds) => append_number(text, rounds.count()),
        Scheme::Scrypt(params) => {
            append_number(text, params.row_count());
            text.push(b'/');
            append_number(text, params.r());
            text.push(b'/');
            append_number(text, params.p());
        }
    }
}

// Appends a number in decimal.
fn append_number(text: &mut Text, number: u32)
    requires { array_vec_len text.old + number_limit ≤ answer_limit }
    ensures text { text.new.items ≡ text.old.items ++ decimal number }
    ensures short { array_vec_len text.new ≤ array_vec_len text.old + number_limit }
{
    append(text, Buffer::new().format(number).as_bytes());
}

// Appends the counts of the work, in the form `:digests:bytes:mixes:table`.
fn append_counts(text: &mut Text, work: &Work)
    requires { array_vec_len text.old + 4 * count_limit < answer_limit }
    ensures counts { text.new.items ≡ text.old.items ++ work_text work.now }
    ensures short { array_vec_len text.new ≤ array_vec_len text.old + 4 * count_limit }
{
    append_count(text, work.digests);
    append_count(text, work.bytes);
    append_count(text, work.mixes);
    append_count(text, work.table);
}

// Appends a colon and the count in decimal.
fn append_count(text: &mut Text, count: u64)
    requires { array_vec_len text.old + count_limit ≤ answer_limit }
    ensures count { text.new.items ≡ text.old.items ++ count_text count }
    ensures few { array_vec_len text.new ≤ array_vec_len text.old + count_limit }
{
    text.push(b':');
    append(text, Buffer::new().format(count).as_bytes());
}

// Appends bytes, which must fit into the remaining capacity.
fn append(text: &mut Text, bytes: &[u8])
    requires { array_vec_len text.old + length bytes.now ≤ answer_limit }
    ensures { text.new.items ≡ text.old.items ++ bytes.now }
{
    text.try_extend_from_slice(bytes).unwrap();
}
