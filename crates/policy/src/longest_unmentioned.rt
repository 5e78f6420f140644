// An age for each line, by which the way that was unmentioned longest is named.
ghost use Rattle.std.specs.Prelude.{◌≡◌, ◌+◌, ◌*◌, ◌<◌, ◌≤◌, length, [], ◌∷◌, fold, max, position, ◌==◌};
ghost use Rattle.protocol.specs.Places.{line_count};
ghost use Rattle.policy.specs.Ages.{ageing, new_ageing, new_extent, new_ages, aged, mentioned, highest_way, column_start, ages_told};
ghost use Rattle.policy.specs.Lawful.{lawful_ageing};
ghost use Rattle.policy.specs.Meaning.{told};
ghost use Rattle.policy.specs.Mentions.{NamesLongest};

use crate::extent::Extent;
use crate::policy::{Policy, Telling};
use protocol::geometry::Geometry;

// No age is raised past this.
const OLDEST: u8 = 3;

/// The policy that names the way unmentioned longest, by ages up to 3 in a lent table of bytes: one
/// for each line, ordered as the lines are.
///
/// Over a table of wrong length it is a policy for no processors, columns and ways.
#[derive(Drop)]
pub struct LongestUnmentioned<'a> {
    extent: Extent,
    ages: &'a mut [u8],
    ghost room: { extent.processors * extent.columns * extent.ways ≤ length ages.now },
    ghost some_ways: { 0 < extent.processors → 1 ≤ extent.ways },
    ghost few_processors: { extent.processors ≤ 8 },
    ghost few_columns: { extent.columns ≤ 256 },
    ghost few_ways: { extent.ways ≤ 4 },
}

// The age once a line of age `limit` is mentioned.
fn aged(limit: u8, age: u8) -> u8
    ensures { result ≡ aged limit age }
{
    if age < OLDEST && age <= limit {
        age + 1
    } else {
        age
    }
}

// Raises each age below 3 that is not above the way's, and makes the way's 0.
fn mention(ages: &mut [u8], way: usize)
    requires { way < length ages.old }
    ensures { ages.new ≡ mentioned way ages.old }
{
    let limit = ages[way];
    for age in ages.iter_mut() {
        *age = aged(limit, *age);
    }
    ages[way] = 0;
}

// The highest age.
fn highest(ages: &[u8]) -> u8
    ensures { result ≡ fold max 0 ages.now }
{
    ages.iter().fold(0, |highest, age| highest.max(*age))
}

// The lowest way of this age.
fn first_of(ages: &[u8], sought: u8) -> Option<usize>
    ensures { result ≡ position (λ age. age == sought) ages.now }
{
    ages.iter().position(|age| *age == sought)
}

// The lowest way of the highest age.
fn highest_way(ages: &[u8]) -> usize
    ensures { result ≡ highest_way ages.now }
{
    first_of(ages, highest(ages)).unwrap_or(0)
}

impl<'a> LongestUnmentioned<'a> {
    /// The policy for a geometry over a table of ages, one byte for each line. It clears a table of
    /// that length, and leaves any other as it is.
    pub fn new(geometry: &Geometry, ages: &'a mut [u8]) -> LongestUnmentioned<'a>
        ensures meaning { ⟦<LongestUnmentioned<'a> as Policy>⟧.model result
            ≡ new_ageing geometry.now.measures ages.old }
        ensures extent { result.extent ≡ new_extent geometry.now.measures ages.old }
        ensures ages { result.ages.now ≡ new_ages geometry.now.measures ages.old }
        ensures lender { result.ages.ghost_name ≡ ages.entry.ghost_name }
        ensures longest { let measures = geometry.now.measures in
            length ages.old ≡ line_count measures
            → NamesLongest measures (⟦<LongestUnmentioned<'a> as Policy>⟧.model result) }
    {
        if ages.len() != geometry.line_count() {
            return LongestUnmentioned {
                extent: Extent::NONE,
                ages,
            };
        }
        ages.fill(0);
        LongestUnmentioned {
            extent: Extent::of(geometry),
            ages,
        }
    }

    // The place of the column's first age in the table.
    fn start(&self, processor: u8, column: usize) -> usize
        requires processor { processor < self.now.extent.processors }
        requires column { column < self.now.extent.columns }
        ensures value { result ≡ column_start self.now.extent processor column }
        ensures within { result + self.now.extent.ways ≤ length self.now.ages.now }
    {
        (processor as usize * self.extent.columns + column) * self.extent.ways
    }
}

impl<'a> Policy for LongestUnmentioned<'a> {
    type Fixed = Extent;

    ghost model = { λ s. ageing s.extent s.ages.now };

    ghost lawful = { λ s. lawful_ageing s.extent s.ages.now s.room s.some_ways };

    ghost standing = { λ s. s.ages.ghost_name ∷ [] };

    ghost fixed = { λ s. s.extent };

    fn processors(&self) -> u8 {
        self.extent.processors
    }

    fn columns(&self) -> usize {
        self.extent.columns
    }

    fn ways(&self) -> usize {
        self.extent.ways
    }

    fn victim_way(&self, processor: u8, column: usize) -> usize {
        if !self.extent.has_column(processor, column) {
            return 0;
        }
        let start = self.start(processor, column);
        highest_way(&self.ages[start..start + self.extent.ways])
    }

    // The trait's clauses, and what becomes of the table, also of one that does not fit.
    fn tell(&mut self, telling: Telling)
        ensures after { ageing self.new.extent self.new.ages.now
            ≡ told telling (ageing self.old.extent self.old.ages.now) }
        ensures kept { self.new.ages.ghost_name ∷ [] ≡ self.old.ages.ghost_name ∷ [] }
        ensures fixed { self.new.extent ≡ self.old.extent }
        ensures ages { self.new.ages.now ≡ ages_told self.old.extent self.old.ages.now telling }
    {
        if !self.extent.has(telling) {
            return;
        }
        let start = self.start(telling.processor, telling.column);
        let end = start + self.extent.ways;
        mention(&mut self.ages[start..end], telling.way);
    }
}
