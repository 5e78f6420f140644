// What is said on standard error where an input is refused.
use anyhow::{Error, anyhow};
use protocol::refusal::Refusal;

/// Measures of a cluster outside their limits.
pub fn cluster_refused(refusal: Refusal, what: &'static str) -> Error {
    let number = refusal.number();
    anyhow!("CLUSTER {number:02}: {what}")
}

/// A number of words that no memory has.
pub fn words_refused(refusal: Refusal) -> Error {
    let number = refusal.number();
    anyhow!("WORDS {number:02}: not a multiple of 4, or over 4194304")
}

/// More dead blocks than a list takes.
pub fn dead_refused(refusal: Refusal) -> Error {
    let number = refusal.number();
    anyhow!("DEAD {number:02}: over 16 dead blocks")
}

/// An input that is no trace, and the rule that it breaks.
pub fn trace_refused(refusal: Refusal, what: &'static str) -> Error {
    let number = refusal.number();
    match refusal {
        Refusal::Record(index) => anyhow!("TRACE {number:02} {index:07}: {what}"),
        _ => anyhow!("TRACE {number:02}: {what}"),
    }
}

/// A text that is no trace's.
pub fn text_refused(line: usize) -> Error {
    anyhow!("TEXT line {line}: not a line of a trace's text")
}

/// Draws, words or processors of a recipe outside their limits.
pub fn recipe_refused(refusal: Refusal, what: &'static str) -> Error {
    let number = refusal.number();
    anyhow!("RECIPE {number:02}: {what}")
}
