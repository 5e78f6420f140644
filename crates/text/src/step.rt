// What a run tells: each step, and at its end what it came to.
use protocol::answer::Answer;
use protocol::command::Request;
use protocol::refusal::Refusal;

/// One step of a run: a record's request, and what it was answered.
#[derive(Clone, Copy)]
pub struct Step {
    /// The step's number, from 1.
    pub number: u32,
    pub request: Request,
    /// The answer, done or WAIT, or why the request was refused.
    pub answer: Result<Answer, Refusal>,
}

/// What a run came to.
#[derive(Clone, Copy)]
pub struct Summary {
    /// The number of steps.
    pub steps: u32,
    /// The bus cycles of all steps.
    pub cycles: u64,
    /// The number of records that are not finished.
    pub left: u32,
}
