// Code over every policy, and what the lender of a table of ages finds in it afterwards.
ghost use Rattle.std.specs.Prelude.{◌≡◌, []};
ghost use Rattle.policy.specs.Ages.{ageing, new_ageing, new_extent};
ghost use Rattle.test_policies.specs.Telling.{told_all};

use policy::longest_unmentioned::LongestUnmentioned;
use policy::policy::{Policy, Telling};
use protocol::geometry::Geometry;

/// Tells a policy these things, in their order.
pub fn tell_all<P: Policy>(policy: &mut P, tellings: &[Telling])
    ensures after { P.Policy.model policy.new
        ≡ told_all (P.Policy.model policy.old) tellings.now }
    ensures kept { P.Policy.standing policy.new ≡ P.Policy.standing policy.old }
    ensures fixed { P.Policy.fixed policy.new ≡ P.Policy.fixed policy.old }
{
    for telling in tellings {
        policy.tell(*telling);
    }
}

/// The way that a policy names once it was told these things. It may be lent: `P` may be `&mut Q`.
pub fn named_after<P: Policy + Drop>(
    mut policy: P,
    tellings: &[Telling],
    processor: u8,
    column: usize,
) -> usize
    ensures { result ≡ (P.Policy.model policy).names tellings.now processor column }
{
    tell_all(&mut policy, tellings);
    policy.victim_way(processor, column)
}

/// Makes a policy over a lent table of ages and tells it these things.
///
/// The contract speaks of what the lender finds in the table afterwards.
pub fn tell_in_table(geometry: &Geometry, ages: &mut [u8], tellings: &[Telling])
    ensures { let measures = geometry.now.measures in
        ageing (new_extent measures ages.old) ages.new
        ≡ told_all (new_ageing measures ages.old) tellings.now }
{
    let mut policy = LongestUnmentioned::new(geometry, ages);
    tell_all(&mut policy, tellings);
}
