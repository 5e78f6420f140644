// The command line: subcommands, their arguments and options.
use clap::{Arg, ArgAction, Command, value_parser};
use std::alloc::{AllocError, Global};

// An option of the cluster that takes a number: its name, the number's name, its default, its help.
struct NumberOption {
    name: &'static str,
    value: &'static str,
    default: &'static str,
    help: &'static str,
}

const CLUSTER: [NumberOption; 9] = [
    NumberOption {
        name: "columns",
        value: "COLUMNS",
        default: "16",
        help: "Columns of each cache, a power of two from 1 to 256",
    },
    NumberOption {
        name: "ways",
        value: "WAYS",
        default: "4",
        help: "Lines of each column, 1 to 4",
    },
    NumberOption {
        name: "lock-entries",
        value: "ENTRIES",
        default: "2",
        help: "Lock entries of each processor, 1 to 4",
    },
    NumberOption {
        name: "swap-in",
        value: "CYCLES",
        default: "13",
        help: "Bus cycles where memory supplies a block, 0 to 1000",
    },
    NumberOption {
        name: "transfer",
        value: "CYCLES",
        default: "7",
        help: "Bus cycles where another cache supplies a block, 0 to 1000",
    },
    NumberOption {
        name: "invalidation",
        value: "CYCLES",
        default: "2",
        help: "Bus cycles of the bus command I, 0 to 1000",
    },
    NumberOption {
        name: "swap-out",
        value: "CYCLES",
        default: "5",
        help: "Bus cycles of a block written back, 0 to 1000",
    },
    NumberOption {
        name: "lock-signal",
        value: "CYCLES",
        default: "2",
        help: "Bus cycles of WAIT and UL, 0 to 1000",
    },
    NumberOption {
        name: "words",
        value: "WORDS",
        default: "1024",
        help: "Words of the memory, all 0 at first: a multiple of 4 up to 4194304",
    },
];

fn number_option<'a>(heap: Global, option: &NumberOption) -> Arg<'a> {
    Arg::new(heap, option.name)
        .long(option.name)
        .value_name(option.value)
        .value_parser(value_parser!(u32))
        .default_value(option.default)
        .help(option.help)
}

// A subcommand that runs a trace on a cluster takes its measures and its memory.
fn with_cluster<'a>(heap: Global, mut command: Command<'a>) -> Result<Command<'a>, AllocError> {
    for option in &CLUSTER {
        command = command.arg(number_option(heap, option))?;
    }
    let dead = Arg::new(heap, "dead")
        .long("dead")
        .value_name("BLOCK,..")
        .value_parser(value_parser!(u32))
        .value_delimiter(',')
        .help("Numbers of dead blocks, which memory refuses; at most 16");
    command.arg(dead)
}

fn file<'a>(heap: Global, name: &'static str, help: &'static str) -> Arg<'a> {
    Arg::new(heap, name).value_name(name).help(help)
}

fn flag<'a>(heap: Global, name: &'static str, help: &'static str) -> Arg<'a> {
    Arg::new(heap, name)
        .long(name)
        .action(ArgAction::SetTrue)
        .help(help)
}

fn with_trace<'a>(
    heap: Global,
    name: &'static str,
    about: &'static str,
) -> Result<Command<'a>, AllocError> {
    Command::new(heap, name).about(about).arg(file(
        heap,
        "TRACE",
        "The trace; standard input if no file is named",
    ))
}

fn run<'a>(heap: Global) -> Result<Command<'a>, AllocError> {
    let json = flag(heap, "json", "Write the numbers as one JSON object").conflicts_with("csv")?;
    let csv = flag(
        heap,
        "csv",
        "Write the numbers as rows of comma-separated values",
    );
    let command = with_trace(heap, "run", "Run a trace and write its statistics")?
        .arg(json)?
        .arg(csv)?;
    with_cluster(heap, command)
}

fn trace_of_text<'a>(heap: Global) -> Result<Command<'a>, AllocError> {
    Command::new(heap, "trace")
        .about("Write the trace of a text")
        .arg(file(heap, "TEXT", "The text; standard input if no file is named"))
}

fn judge<'a>(heap: Global) -> Result<Command<'a>, AllocError> {
    let command = Command::new(heap, "judge")
        .about("Compare the listing of a board with the model's")
        .arg(file(heap, "TRACE", "The trace that the board ran").required(true))?
        .arg(file(heap, "LISTING", "The listing that the board's bench wrote").required(true))?;
    with_cluster(heap, command)
}

// An option of a recipe: its name, and its help.
const RECIPE: [(&str, &str); 4] = [
    (
        "start",
        "The number that the draws begin behind, 0 to 4294967295",
    ),
    (
        "draws",
        "How many draws, 1 to 2000; each makes one record or two",
    ),
    (
        "words",
        "Words of the memory that the records are for, 1 to 4194304",
    ),
    ("processors", "Processors that the records are for, 1 to 8"),
];

fn recipe<'a>(heap: Global) -> Result<Command<'a>, AllocError> {
    let mut command = Command::new(heap, "recipe").about("Write the trace that a recipe draws");
    for (name, help) in &RECIPE {
        let option = Arg::new(heap, name)
            .long(name)
            .value_name("NUMBER")
            .value_parser(value_parser!(u32))
            .required(true)
            .help(help);
        command = command.arg(option)?;
    }
    Ok(command)
}

/// The command line of `pim`.
pub fn command<'a>(heap: Global) -> Result<Command<'a>, AllocError> {
    let list = with_trace(heap, "list", "Run a trace and list every step")?;
    let census = with_trace(
        heap,
        "census",
        "Run a trace, count the cache lines, drain them",
    )?;
    Command::new(heap, "pim")
        .about("A model of a five-state cache cluster: traces, their runs and listings")
        .subcommand_required(true)
        .arg_required_else_help(true)
        .subcommand(with_cluster(heap, list)?)?
        .subcommand(run(heap)?)?
        .subcommand(with_cluster(heap, census)?)?
        .subcommand(with_trace(heap, "text", "Write a trace as text")?)?
        .subcommand(trace_of_text(heap)?)?
        .subcommand(recipe(heap)?)?
        .subcommand(judge(heap)?)?
        .subcommand(with_trace(
            heap,
            "check",
            "Tell what a trace is, or which rule it breaks",
        )?)
}
