// How many lines of each processor are in each state.
ghost use Rattle.std.specs.Prelude.{◌≡◌, ◌≤◌, List, length};
ghost use Rattle.std.specs.Result.{result_map_both, result_unwrap_or};
ghost use Rattle.protocol.specs.declared.lock.LockEntry.{LockEntry};
ghost use Rattle.protocol.specs.Places.{line_count};
ghost use Rattle.memory.specs.Meaning.{Mem};
ghost use Rattle.cluster.specs.Board.{board_of};
ghost use Rattle.upkeep.specs.Counting.{count_in, row_of, row_at, census_of, census_rule};

use cluster::cluster::Cluster;
use protocol::geometry::Geometry;
use protocol::line::Line;
use protocol::refusal::Refusal;
use protocol::state::State;

// By `filter` and `count` the whole census took four times as long.
#[tactic(auto, unfolding(crate::specs::Counting::count_in))]
fn count(lines: &[Line], state: State) -> u32
    requires { length lines.now ≤ 8192 }
    ensures { result ≡ count_in state lines.now }
{
    let mut n = 0;
    for line in lines {
        if line.state == state {
            n += 1;
        }
    }
    n
}

// 8192 lines are the most that a geometry has.
fn row(lines: &[Line]) -> [u32; 5]
    requires { length lines.now ≤ 8192 }
    ensures { result ≡ row_of lines.now }
{
    [State::EM, State::EC, State::SM, State::S, State::I].map(
        |state|
            requires { length lines.now ≤ 8192 }
            ensures { result ≡ count_in state lines.entry.now }
        { count(lines, state) },
    )
}

// A processor that the geometry does not have has a row of zeros.
#[tactic(auto, unfolding(crate::specs::Counting::row_at))]
fn row_of(geometry: &Geometry, lines: &[Line], processor: u8) -> [u32; 5]
    requires { length lines.now ≡ line_count geometry.now.measures }
    ensures { result ≡ row_at geometry.now.measures lines.now processor }
{
    if processor >= geometry.processors() {
        return [0; 5];
    }
    let start = geometry.window(processor, 0).from;
    let end = geometry.window(processor + 1, 0).from;
    row(&lines[start..end])
}

fn table(geometry: &Geometry, lines: &[Line]) -> [[u32; 5]; 8]
    requires { length lines.now ≡ line_count geometry.now.measures }
    ensures { result ≡ census_of geometry.now.measures lines.now }
{
    [0, 1, 2, 3, 4, 5, 6, 7].map(
        |processor|
            requires { length lines.now ≡ line_count geometry.now.measures }
            ensures { result ≡ row_at geometry.entry.now.measures lines.entry.now processor }
        { row_of(geometry, lines, processor) },
    )
}

/// Counts the lines of each processor by state: a row for each of eight processors, with its lines
/// in EM, EC, SM, S and I; rows of processors that the geometry does not have are 0. Lock table and
/// memory are not lent: they may be any. Refuses a line table of wrong length with 2; then the rows
/// stay as they were.
pub fn census(cluster: &Cluster, lines: &[Line], rows: &mut [[u32; 5]; 8]) -> Result<(), Refusal>
    ensures answer { (locks : List LockEntry) (mem : Mem) →
        let board = board_of cluster.now lines.now locks mem in
        let counted = census_rule cluster.now.geometry.measures board in
        result ≡ result_map_both (λ _. tt) (λ refusal. refusal) counted }
    ensures rows { (locks : List LockEntry) (mem : Mem) →
        let board = board_of cluster.now lines.now locks mem in
        let counted = census_rule cluster.now.geometry.measures board in
        rows.new ≡ result_unwrap_or counted rows.old }
{
    cluster.check_lines(lines)?;
    let counted = table(&cluster.geometry(), lines);
    *rows = counted;
    Ok(())
}
