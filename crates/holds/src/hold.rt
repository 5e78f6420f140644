// A hold: a lock that program code has taken and cannot forget.
ghost use Rattle.std.specs.Prelude.{◌≡◌};
ghost use Rattle.cluster.specs.Board.{board_of};
ghost use Rattle.law.specs.Accounts.{left_along};
ghost use Rattle.law.specs.Along.{LawAlong};
ghost use Rattle.holds.specs.Holding.{hold_at, taken, ends, released, answer_of, take_rule, send_rule, taking, releasing};

use cluster::cluster::Cluster;
use memory::memory::Memory;
use protocol::answer::{Answer, Completion};
use protocol::command::{Command, Request};
use protocol::line::Line;
use protocol::lock::LockEntry;
use protocol::refusal::Refusal;

/// A lock that a processor holds at a word address: a token that is neither copied nor dropped, and
/// made by taking a lock alone. So a program that has one must release it or lay it down.
pub struct Hold {
    processor: u8,
    address: u32,
}

/// What taking a lock gives: the hold with the answer if that is done, else the answer alone.
pub enum Taken {
    Held(Hold, Completion),
    NotHeld(Result<Answer, Refusal>),
}

/// What a release gives. Done, or refused with 8, it ends the hold; with every other answer it
/// gives the hold back.
pub enum Released {
    Ended(Result<Answer, Refusal>),
    Back(Hold, Result<Answer, Refusal>),
}

impl Released {
    /// The answer alone. A hold that came back is laid down: its lock stays.
    pub fn into_answer(self) -> Result<Answer, Refusal>
        ensures { result ≡ answer_of self }
    {
        match self {
            Released::Ended(answer) => answer,
            Released::Back(hold, answer) => {
                hold.lay_down();
                answer
            }
        }
    }
}

// Whether the answer of a release ends the hold: the lock is free, or was not there.
fn ends(answer: &Result<Answer, Refusal>) -> bool
    ensures { result ≡ ends answer.now }
{
    matches!(answer, Ok(Answer::Done(_)) | Err(Refusal::NoLock))
}

impl Hold {
    /// Takes a lock at a word address for a processor: issues LR. Refuses as that command does, 2
    /// before all others; the call is that command, so what holds of commands holds of it.
    pub fn take<M: Memory>(
        cluster: &mut Cluster,
        lines: &mut [Line],
        locks: &mut [LockEntry],
        memory: &mut M,
        processor: u8,
        address: u32,
    ) -> Taken
        ensures answer { let before = board_of cluster.old
            lines.old locks.old (M.model memory.old) in
            let outcome = take_rule cluster.old.geometry.measures processor address before in
            result ≡ taken (hold_at processor address) outcome.answer }
        ensures board { let before = board_of cluster.old
            lines.old locks.old (M.model memory.old) in
            board_of cluster.new lines.new locks.new (M.model memory.new)
            ≡ (take_rule cluster.old.geometry.measures processor address before).board }
        ensures geometry { cluster.new.geometry ≡ cluster.old.geometry }
        ensures kept { M.standing memory.new ≡ M.standing memory.old }
        ensures commands { let before = board_of cluster.old
            lines.old locks.old (M.model memory.old) in
            board_of cluster.new lines.new locks.new (M.model memory.new)
            ≡ left_along cluster.old.geometry.measures before (taking processor address) }
        ensures law { let before = board_of cluster.old lines.old locks.old (M.model memory.old) in
            LawAlong cluster.old.geometry before (taking processor address) }
    {
        let request = Request {
            processor,
            command: Command::LR,
            address,
        };
        match cluster.issue(lines, locks, memory, request) {
            Ok(Answer::Done(done)) => Taken::Held(Hold { processor, address }, done),
            answer => Taken::NotHeld(answer),
        }
    }

    // Issues the command that releases the lock.
    fn send<M: Memory>(
        self,
        cluster: &mut Cluster,
        lines: &mut [Line],
        locks: &mut [LockEntry],
        memory: &mut M,
        command: Command,
    ) -> Released
        ensures answer { let before = board_of cluster.old
            lines.old locks.old (M.model memory.old) in
            let outcome = send_rule cluster.old.geometry.measures self command before in
            result ≡ released self outcome.answer }
        ensures board { let before = board_of cluster.old
            lines.old locks.old (M.model memory.old) in
            board_of cluster.new lines.new locks.new (M.model memory.new)
            ≡ (send_rule cluster.old.geometry.measures self command before).board }
        ensures geometry { cluster.new.geometry ≡ cluster.old.geometry }
        ensures kept { M.standing memory.new ≡ M.standing memory.old }
    {
        let request = Request {
            processor: self.processor,
            command,
            address: self.address,
        };
        let answer = cluster.issue(lines, locks, memory, request);
        if ends(&answer) {
            self.lay_down();
            Released::Ended(answer)
        } else {
            Released::Back(self, answer)
        }
    }

    /// Gives the lock back: issues U. Refuses as that command does; the call is that command, so
    /// what holds of commands holds of it.
    pub fn release<M: Memory>(
        self,
        cluster: &mut Cluster,
        lines: &mut [Line],
        locks: &mut [LockEntry],
        memory: &mut M,
    ) -> Released
        ensures answer { let before = board_of cluster.old
            lines.old locks.old (M.model memory.old) in
            let outcome = send_rule cluster.old.geometry.measures self Command.U before in
            result ≡ released self outcome.answer }
        ensures board { let before = board_of cluster.old
            lines.old locks.old (M.model memory.old) in
            board_of cluster.new lines.new locks.new (M.model memory.new)
            ≡ (send_rule cluster.old.geometry.measures self Command.U before).board }
        ensures geometry { cluster.new.geometry ≡ cluster.old.geometry }
        ensures kept { M.standing memory.new ≡ M.standing memory.old }
        ensures commands { let before = board_of cluster.old
            lines.old locks.old (M.model memory.old) in
            board_of cluster.new lines.new locks.new (M.model memory.new)
            ≡ left_along cluster.old.geometry.measures before (releasing self Command.U) }
        ensures law { let before = board_of cluster.old lines.old locks.old (M.model memory.old) in
            LawAlong cluster.old.geometry before (releasing self Command.U) }
    {
        self.send(cluster, lines, locks, memory, Command::U)
    }

    /// Writes a word and gives the lock back: issues UW. Refuses as that command does; the call is
    /// that command, so what holds of commands holds of it.
    pub fn release_with<M: Memory>(
        self,
        cluster: &mut Cluster,
        lines: &mut [Line],
        locks: &mut [LockEntry],
        memory: &mut M,
        word: u32,
    ) -> Released
        ensures answer { let before = board_of cluster.old
            lines.old locks.old (M.model memory.old) in
            let outcome = send_rule cluster.old.geometry.measures self (Command.UW word) before in
            result ≡ released self outcome.answer }
        ensures board { let before = board_of cluster.old
            lines.old locks.old (M.model memory.old) in
            board_of cluster.new lines.new locks.new (M.model memory.new)
            ≡ (send_rule cluster.old.geometry.measures self (Command.UW word) before).board }
        ensures geometry { cluster.new.geometry ≡ cluster.old.geometry }
        ensures kept { M.standing memory.new ≡ M.standing memory.old }
        ensures commands { let before = board_of cluster.old
            lines.old locks.old (M.model memory.old) in
            board_of cluster.new lines.new locks.new (M.model memory.new)
            ≡ left_along cluster.old.geometry.measures before (releasing self (Command.UW word)) }
        ensures law { let before = board_of cluster.old lines.old locks.old (M.model memory.old) in
            LawAlong cluster.old.geometry before (releasing self (Command.UW word)) }
    {
        self.send(cluster, lines, locks, memory, Command::UW(word))
    }

    /// Gives up the hold and leaves the lock: it can be released by a command with these two
    /// numbers, processor and word address.
    pub fn lay_down(self) -> (u8, u32)
        ensures processor { result.0 ≡ self.processor }
        ensures address { result.1 ≡ self.address }
    {
        let Hold { processor, address } = self;
        (processor, address)
    }

    /// The processor that holds the lock.
    pub fn processor(&self) -> u8
        ensures { result ≡ self.now.processor }
    {
        self.processor
    }

    /// The word address of the lock.
    pub fn address(&self) -> u32
        ensures { result ≡ self.now.address }
    {
        self.address
    }
}
