//! What a run that judges is asked for.

/// Tells what a text is judged as.
#[derive(Clone, Copy, Debug, PartialEq, Eq)]
pub enum Subject {
    /// It is a proof of the check.
    Proof,
    /// It is a model of the check.
    Model,
}

/// Holds the names of the two texts.
#[derive(Clone, Copy)]
pub struct Names<'a> {
    /// The script's name.
    pub script: &'a str,
    /// The name of the text that is judged.
    pub text: &'a str,
}

/// Holds what is asked for: which text is judged as what, and against which check of which script.
#[derive(Clone, Copy)]
pub struct JudgeRequest<'a> {
    /// What the text is judged as.
    pub subject: Subject,
    /// The names of the two texts.
    pub names: Names<'a>,
    /// Which of the script's checks is meant, from 1.
    pub at: u64,
}
