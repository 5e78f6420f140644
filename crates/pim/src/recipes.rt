// The trace of the recipe that the options name.
use crate::failure::recipe_refused;
use anyhow::Result;
use clap::ArgMatches;
use recipe::recipe::{load_recipe, most_bytes};
use std::alloc::Global;

// Every option of a recipe is required, so it is there.
fn number(options: &ArgMatches, name: &str) -> u32 {
    options.get_one::<u32>(name).unwrap_or(0)
}

// Which of them lies outside its limits; said only where they are refused.
fn outside(draws: u32, words: u32) -> &'static str {
    if draws < 1 || draws > 2_000 {
        "draws not 1 to 2000"
    } else if words < 1 || words > 4_194_304 {
        "words not 1 to 4194304"
    } else {
        "processors not 1 to 8"
    }
}

/// The bytes of the recipe's trace.
pub fn trace_of_recipe(heap: Global, options: &ArgMatches) -> Result<Vec<u8>> {
    let start = number(options, "start");
    let draws = number(options, "draws");
    let words = number(options, "words");
    // A number that no u8 has is as much outside the limits as 0 is.
    let processors = u8::try_from(number(options, "processors")).unwrap_or(0);
    let mut output = vec![in heap; 0u8; most_bytes()]?;
    let long = load_recipe(&mut output, start, draws, words, processors).map_err(
        |refusal| recipe_refused(refusal, outside(draws, words)),
    )?;
    output.truncate(long);
    Ok(output)
}
