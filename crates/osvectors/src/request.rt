//! What the words ask for.

ghost use Rattle.std.specs.Prelude.{◌≤◌, IfSome};
ghost use Rattle.osvectors.specs.Requests.{IsLawful};

/// How many cases are run side by side at most.
const MOST_JOBS: u32 = 64;

/// How many are, where nothing is said.
const DEFAULT_JOBS: u32 = 4;

/// How a report is written.
#[derive(Clone, Copy, Debug)]
pub(crate) enum Form {
    Tap,
    Junit,
}

/// A report that is written to a file.
#[derive(Clone, Copy, Debug)]
pub(crate) struct ReportFile<'a> {
    pub(crate) form: Form,
    pub(crate) name: &'a str,
}

/// The cases of a file that are to be run.
#[derive(Clone, Copy, Debug)]
pub(crate) struct Asked<'a> {
    /// The file's name.
    pub(crate) file: &'a str,
    /// How many cases are run side by side, 1 to 64.
    pub(crate) jobs: u32,
    pub(crate) report: Option<ReportFile<'a>>,
}

/// What is to be done.
#[derive(Clone, Copy, Debug)]
pub(crate) enum Request<'a> {
    Run(Asked<'a>),
    Help,
    Version,
}

/// What was given so far.
#[derive(Clone, Copy, Debug)]
struct Given<'a> {
    file: Option<&'a str>,
    jobs: Option<u32>,
    report: Option<ReportFile<'a>>,
}

/// The number of jobs that a word is.
fn jobs_in(word: &str) -> Option<u32>
    ensures some { IfSome result (λ jobs. 1 ≤ jobs) }
    ensures few { IfSome result (λ jobs. jobs ≤ 64) }
{
    match word.parse::<u32>() {
        Ok(jobs) if 1 <= jobs && jobs <= MOST_JOBS => Some(jobs),
        _ => None,
    }
}

impl<'a> Given<'a> {
    /// What was given with an option and its value, which wasn't given before.
    fn with(self, name: &str, value: &'a str) -> Option<Given<'a>> {
        match name {
            "--jobs" if self.jobs.is_none() => Some(Given {
                jobs: Some(jobs_in(value)?),
                ..self
            }),
            "--tap" => self.with_report(Form::Tap, value),
            "--junit" => self.with_report(Form::Junit, value),
            _ => None,
        }
    }

    /// What was given with a report; there is one at most.
    fn with_report(self, form: Form, name: &'a str) -> Option<Given<'a>> {
        if self.report.is_some() {
            return None;
        }
        Some(Given {
            report: Some(ReportFile { form, name }),
            ..self
        })
    }

    /// What was given with a file, the only one.
    fn with_file(self, file: &'a str) -> Option<Given<'a>> {
        if self.file.is_some() || file.starts_with('-') {
            return None;
        }
        Some(Given {
            file: Some(file),
            ..self
        })
    }
}

/// The cases that words ask to run.
fn asked_of(words: &[String]) -> Option<Asked<'_>>
    ensures { IfSome result (λ asked. (1 ≤ asked.jobs) × (asked.jobs ≤ 64)) }
{
    let mut given = Given {
        file: None,
        jobs: None,
        report: None,
    };
    let mut next = 0;
    while next < words.len() {
        let word = words[next].as_str();
        if word.starts_with("--") {
            let value = words.get(next + 1)?;
            given = given.with(word, value.as_str())?;
            next += 2;
        } else {
            given = given.with_file(word)?;
            next += 1;
        }
    }
    let jobs = given.jobs.unwrap_or(DEFAULT_JOBS).clamp(1, MOST_JOBS);
    Some(Asked {
        file: given.file?,
        jobs,
        report: given.report,
    })
}

/// What the words ask for, if they do.
pub(crate) fn request_of(words: &[String]) -> Option<Request<'_>>
    ensures { IfSome result IsLawful }
{
    if words.len() == 1 {
        match words[0].as_str() {
            "--help" => return Some(Request::Help),
            "--version" => return Some(Request::Version),
            _ => {}
        }
    }
    asked_of(words).map(Request::Run)
}
