//! What the words of a call ask for.

ghost use Rattle.std.specs.Prelude.{◌≡◌, ◌≢◌, ◌∷◌, [], true, false, slice_index, IfErr, IfOk, IfSome, List, None, Some, codes, map, ℕ};
ghost use Rattle.std.specs.String.{string_bytes};
ghost use Rattle.shm_script.specs.Numbers.{is_numeral, leads_well};
ghost use Rattle.shm_program.specs.Givens.{is_set, job_in, number_of};
ghost use Rattle.shm_program.specs.Words.{AreMedics, IsCount, JobFits, NamesCommand, count_of, job_by, job_of, make_of, may_wait, medics_of, name_of, number_in, poll_of, replay_of, run_of};

use crate::given::{Given, read};
use std::alloc::{AllocError, Global};

/// What is written of a replay, or of a run.
#[derive(Clone, Copy, Debug, PartialEq, Eq, Drop)]
pub enum Form {
    /// The logs, the table and the sums.
    Report,
    /// The words of the closed pool.
    Image,
    /// The report without the lines of commands, of entries and of values.
    Summary,
}

/// What a call of the program is asked for.
#[derive(Clone, Copy, Debug, PartialEq, Eq, Drop)]
pub enum Job {
    /// `replay` and `replay --image`: a trace is read and replayed.
    Replay(Form),
    /// `replay --print`: a trace is read, and written as it is printed.
    Print,
    /// `run` and `run --image`: a trace is read and run by clients on threads.
    Run(Form),
    /// `run --medics K`, with `--image` or without: the same, and who dies is recovered by K threads of their own.
    Rescue { form: Form, medics: u8 },
    /// `audit`: an image is read, and the verdict on it is written.
    Audit,
    /// `migrate`: an image of format 1 is read, and that of its pool in format 2 is written.
    Migrate,
    /// `make START SIZE`: the trace that is drawn from START, with SIZE commands, 1 to 4,000, for each client, is replayed.
    Make { start: u64, size: u32 },
    /// `make START SIZE --print`: that trace is written.
    Draw { start: u64, size: u32 },
    /// `poll Q [--limit P]`: a trace is read and run by clients that are polled, each poll with Q turns of one identity, at most P polls.
    Poll { turns: u32, limit: Option<u32> },
    /// `tree`: a script for versions of an ordered map is read and run.
    Tree,
}

/// The commands that the first word names.
#[derive(Clone, Copy, Debug, PartialEq, Eq, Drop)]
pub enum Name {
    Replay,
    Run,
    Audit,
    Make,
    Migrate,
    Poll,
    Tree,
}

impl Job {
    /// Whether it may wait: for threads, or for a future that is polled.
    pub fn may_wait(&self) -> bool
        ensures { result ≡ may_wait self.now }
    {
        matches!(self, Job::Run(_) | Job::Rescue { .. } | Job::Poll { .. })
    }
}

/// What the words ask for, and nothing where they aren't accepted.
///
/// The first word names a command, and the words behind it are read by that command. Want of memory comes only in such a reading.
pub fn job_of(alloc: Global, words: &[String]) -> Result<Option<Job>, AllocError>
    ensures job { IfOk result (λ job. job ≡ job_of (map string_bytes words.now)) }
    ensures fits { IfOk result (λ job. IfSome job JobFits) }
    ensures memory { IfErr result (λ _. NamesCommand (map string_bytes words.now)) }
{
    match words {
        [first, ..] => match name_of(first.as_str()) {
            Some(name) => job_by(alloc, name, words),
            None => Ok(None),
        },
        [] => Ok(None),
    }
}

/// The command that a word names.
fn name_of(word: &str) -> Option<Name>
    ensures { result ≡ name_of word.now }
{
    if word == "replay" {
        Some(Name::Replay)
    } else if word == "run" {
        Some(Name::Run)
    } else if word == "audit" {
        Some(Name::Audit)
    } else if word == "make" {
        Some(Name::Make)
    } else if word == "migrate" {
        Some(Name::Migrate)
    } else if word == "poll" {
        Some(Name::Poll)
    } else if word == "tree" {
        Some(Name::Tree)
    } else {
        None
    }
}

/// What the words of a command ask for.
fn job_by(alloc: Global, name: Name, words: &[String]) -> Result<Option<Job>, AllocError>
    ensures job { IfOk result (λ job. job ≡ job_by name (map string_bytes words.now)) }
    ensures fits { IfOk result (λ job. IfSome job JobFits) }
{
    match read(alloc, name, words)? {
        Some(given) => Ok(job_in(name, given)),
        None => Ok(None),
    }
}

/// What a command is asked for by its arguments.
fn job_in(name: Name, given: Given<'_>) -> Option<Job>
    ensures job { result ≡ job_in name given.entry }
    ensures fits { IfSome result JobFits }
{
    match name {
        Name::Replay => replay_of(is_set(given.image), is_set(given.print)),
        Name::Run => run_of(
            is_set(given.image),
            given.medics.is_some(),
            number_of(given.medics),
        ),
        Name::Audit => Some(Job::Audit),
        Name::Make => make_of(
            is_set(given.print),
            number_of(given.start),
            number_of(given.size),
        ),
        Name::Migrate => Some(Job::Migrate),
        Name::Poll => poll_of(
            number_of(given.turns),
            given.limit.is_some(),
            number_of(given.limit),
        ),
        Name::Tree => Some(Job::Tree),
    }
}

/// What `replay` is asked for by its flags, of which one at most may be set.
fn replay_of(image: bool, print: bool) -> Option<Job>
    ensures job { result ≡ replay_of image print }
    ensures fits { IfSome result JobFits }
{
    match (image, print) {
        (false, false) => Some(Job::Replay(Form::Report)),
        (true, false) => Some(Job::Replay(Form::Image)),
        (false, true) => Some(Job::Print),
        (true, true) => None,
    }
}

/// What `run` is asked for by its flag and its number, which may be missing.
fn run_of(image: bool, rescued: bool, medics: Option<u64>) -> Option<Job>
    ensures job { result ≡ run_of image rescued medics }
    ensures fits { IfSome result JobFits }
{
    let form = if image { Form::Image } else { Form::Report };
    if !rescued {
        return Some(Job::Run(form));
    }
    let medics = medics_of(medics)?;
    Some(Job::Rescue { form, medics })
}

/// A number of threads that recover.
fn medics_of(number: Option<u64>) -> Option<u8>
    ensures medics { result ≡ medics_of number }
    ensures fits { IfSome result AreMedics }
{
    let number = number?;
    if number < 1 || 4 < number {
        return None;
    }
    Some(number as u8)
}

/// What `make` is asked for by its flag and its numbers.
fn make_of(print: bool, start: Option<u64>, size: Option<u64>) -> Option<Job>
    ensures job { result ≡ make_of print start size }
    ensures fits { IfSome result JobFits }
{
    let (start, size) = (start?, size?);
    if size < 1 || 4000 < size {
        return None;
    }
    let size = size as u32;
    if print {
        Some(Job::Draw { start, size })
    } else {
        Some(Job::Make { start, size })
    }
}

/// What `poll` is asked for by its two numbers, of which the second one may be missing.
fn poll_of(turns: Option<u64>, limited: bool, limit: Option<u64>) -> Option<Job>
    ensures job { result ≡ poll_of turns limited limit }
    ensures fits { IfSome result JobFits }
{
    let turns = count_of(turns)?;
    if !limited {
        return Some(Job::Poll { turns, limit: None });
    }
    let limit = count_of(limit)?;
    Some(Job::Poll {
        turns,
        limit: Some(limit),
    })
}

/// A number of turns or of polls.
fn count_of(number: Option<u64>) -> Option<u32>
    ensures count { result ≡ count_of number }
    ensures fits { IfSome result IsCount }
{
    let number = number?;
    if number < 1 || 1_000_000 < number {
        return None;
    }
    Some(number as u32)
}

/// Whether a flag with this text is set.
fn is_set(text: Option<&str>) -> bool
    ensures { result ≡ is_set text.entry }
{
    text == Some("true")
}

/// The number that the text of an argument spells.
fn number_of(text: Option<&str>) -> Option<u64>
    ensures { result ≡ number_of text.entry }
{
    match text {
        Some(text) => number(text),
        None => None,
    }
}

/// The number below 2^64 that a word spells in decimal without a leading zero.
fn number(word: &str) -> Option<u64>
    ensures { result ≡ number_in word.now }
{
    if leads_well(word.as_bytes()) {
        word.parse().ok()
    } else {
        None
    }
}

/// Whether a word is `0`, or begins with another digit.
fn leads_well(word: &[u8]) -> bool
    ensures yes { result ≡ true → (leads_well word.now ≡ true) × (slice_index word.now 0 ≢ 43) }
    ensures no { result ≡ false → is_numeral word.now ≡ false }
{
    matches!(word, [b'0'] | [b'1'..=b'9', ..])
}

/// Words that are written out: what they ask for.
pub fn words_of_jobs()
    ensures report { job_of (codes "replay" ∷ []) ≡ Some (Job.Replay Form.Report) }
    ensures image { job_of (codes "replay" ∷ codes "--image" ∷ []) ≡ Some (Job.Replay Form.Image) }
    ensures print { job_of (codes "replay" ∷ codes "--print" ∷ []) ≡ Some Job.Print }
    ensures both { job_of (codes "replay" ∷ codes "--image" ∷ codes "--print" ∷ []) ≡ None }
    ensures twice { job_of (codes "replay" ∷ codes "--print" ∷ codes "--print" ∷ []) ≡ None }
    ensures help { job_of (codes "replay" ∷ codes "--help" ∷ []) ≡ None }
    ensures more { job_of (codes "replay" ∷ codes "replay" ∷ []) ≡ None }
    ensures run { job_of (codes "run" ∷ []) ≡ Some (Job.Run Form.Report) }
    ensures run_image { job_of (codes "run" ∷ codes "--image" ∷ []) ≡ Some (Job.Run Form.Image) }
    ensures run_medics { job_of (codes "run" ∷ codes "--medics" ∷ codes "2" ∷ []) ≡ Some (Job.Rescue Form.Report 2) }
    ensures run_rescued { job_of (codes "run" ∷ codes "--image" ∷ codes "--medics" ∷ codes "4" ∷ []) ≡ Some (Job.Rescue Form.Image 4) }
    ensures run_equals { job_of (codes "run" ∷ codes "--medics=3" ∷ []) ≡ Some (Job.Rescue Form.Report 3) }
    ensures run_none { job_of (codes "run" ∷ codes "--medics" ∷ codes "0" ∷ []) ≡ None }
    ensures run_many { job_of (codes "run" ∷ codes "--medics" ∷ codes "5" ∷ []) ≡ None }
    ensures run_print { job_of (codes "run" ∷ codes "--print" ∷ []) ≡ None }
    ensures audit { job_of (codes "audit" ∷ []) ≡ Some Job.Audit }
    ensures audit_more { job_of (codes "audit" ∷ codes "--print" ∷ []) ≡ None }
    ensures migrate { job_of (codes "migrate" ∷ []) ≡ Some Job.Migrate }
    ensures migrate_more { job_of (codes "migrate" ∷ codes "--image" ∷ []) ≡ None }
    ensures make { job_of (codes "make" ∷ codes "0" ∷ codes "4000" ∷ []) ≡ Some (Job.Make 0 4000) }
    ensures draw { job_of (codes "make" ∷ codes "--print" ∷ codes "7" ∷ codes "1" ∷ []) ≡ Some (Job.Draw 7 1) }
    ensures few { job_of (codes "make" ∷ codes "0" ∷ []) ≡ None }
    ensures zero { job_of (codes "make" ∷ codes "0" ∷ codes "0" ∷ []) ≡ None }
    ensures many { job_of (codes "make" ∷ codes "0" ∷ codes "4001" ∷ []) ≡ None }
    ensures leading { job_of (codes "make" ∷ codes "00" ∷ codes "1" ∷ []) ≡ None }
    ensures poll { job_of (codes "poll" ∷ codes "7" ∷ []) ≡ Some (Job.Poll 7 None) }
    ensures poll_limit { job_of (codes "poll" ∷ codes "8" ∷ codes "--limit" ∷ codes "11" ∷ []) ≡ Some (Job.Poll 8 (Some 11)) }
    ensures poll_none { job_of (codes "poll" ∷ []) ≡ None }
    ensures poll_zero { job_of (codes "poll" ∷ codes "0" ∷ []) ≡ None }
    ensures poll_many { job_of (codes "poll" ∷ codes "1000001" ∷ []) ≡ None }
    ensures poll_no_limit { job_of (codes "poll" ∷ codes "7" ∷ codes "--limit" ∷ codes "0" ∷ []) ≡ None }
    ensures tree { job_of (codes "tree" ∷ []) ≡ Some Job.Tree }
    ensures tree_more { job_of (codes "tree" ∷ codes "--print" ∷ []) ≡ None }
    ensures other { (rest : List (List ℕ)) → job_of (codes "Replay" ∷ rest) ≡ None }
    ensures none { job_of [] ≡ None }
{}
