//! What a call did, as lines.
use crate::answers::Answer;
use std::alloc::AllocError;
use std::io;
use std::test::Fail;

/// What a call did.
#[derive(Drop)]
pub struct Outcome {
    /// What was lent for writing, before the call and after it; None, if nothing was.
    pub lent: Option<(String, String)>,
    /// The ids that the filter was asked, in order; None, if the call takes no filter.
    pub asked: Option<Vec<u32>>,
    /// What was returned.
    pub answer: Answer,
}

impl Outcome {
    /// The outcome of a call to which nothing is lent for writing.
    pub fn of(answer: Result<Answer, AllocError>) -> Result<Outcome, Fail> {
        Ok(Outcome {
            lent: None,
            asked: None,
            answer: answer?,
        })
    }

    /// The outcome of a call to which something is lent.
    pub fn lending(
        before: Result<String, AllocError>,
        after: Result<String, AllocError>,
        answer: Result<Answer, AllocError>,
    ) -> Result<Outcome, Fail> {
        Ok(Outcome {
            lent: Some((before?, after?)),
            asked: None,
            answer: answer?,
        })
    }

    /// The outcome of a call whose filter was asked these ids.
    pub fn asking(outcome: Result<Outcome, Fail>, asked: Vec<u32>) -> Result<Outcome, Fail> {
        let mut outcome = outcome?;
        outcome.asked = Some(asked);
        Ok(outcome)
    }
}

/// Prints the lines of an outcome.
pub fn print(rt: &HostRuntime, outcome: &Outcome) -> io::Result<()> {
    if let Some((before, after)) = &outcome.lent {
        println!(rt; "  before: {before}")?;
        println!(rt; "  after: {after}")?;
    }
    if let Some(ids) = &outcome.asked {
        println!(rt; "  asked: {}", ids.len())?;
        println!(rt; "  ids: {ids:?}")?;
    }
    match &outcome.answer {
        Answer::Done(text) => println!(rt; "  done: {text}"),
        Answer::Failed(text) => println!(rt; "  failed: {text}"),
    }
}
