// Policies on values worked out by hand.
use crate::counting::Counting;
use crate::lending::{named_after, tell_all, tell_in_table};
use policy::longest_unmentioned::LongestUnmentioned;
use policy::policy::{Policy, Telling};
use policy::running_turn::RunningTurn;
use protocol::geometry::Geometry;
use protocol::measures::Measures;
use std::test::Fail;

// A geometry of these numbers.
fn geometry(processors: u8, columns: usize, ways: usize) -> Result<Geometry, Fail> {
    let measures = Measures {
        processors,
        columns,
        ways,
        ..Measures::STANDARD
    };
    let geometry = Geometry::new(measures).ok().ok_or("geometry")?;
    Ok(geometry)
}

fn told(processor: u8, column: usize, way: usize, named: bool) -> Telling {
    Telling {
        processor,
        column,
        way,
        named,
    }
}

// The numbers of a policy.
fn numbers<P: Policy>(policy: &P) -> (u8, usize, usize) {
    (policy.processors(), policy.columns(), policy.ways())
}

#[test]
fn a_turn_for_each_processor(rt: HostRuntime) -> Result<(), Fail> {
    let three = geometry(3, 2, 3)?;
    let mut policy = RunningTurn::new(&three);
    assert_eq!(rt; numbers(&policy), (3, 2, 3));
    assert_eq!(rt; policy.victim_way(0, 0), 0);
    assert_eq!(rt; policy.victim_way(2, 1), 0);

    // The turn of processor 0 rises in every column; those of the others stay.
    policy.tell(told(0, 0, 0, true));
    assert_eq!(rt; policy.victim_way(0, 0), 1);
    assert_eq!(rt; policy.victim_way(0, 1), 1);
    assert_eq!(rt; policy.victim_way(1, 0), 0);
    assert_eq!(rt; policy.victim_way(2, 0), 0);

    // A way that it had not named.
    policy.tell(told(0, 1, 1, false));
    assert_eq!(rt; policy.victim_way(0, 1), 1);

    // Past the last way it begins again.
    tell_all(
        &mut policy,
        &[
            told(0, 1, 1, true),
            told(1, 0, 0, true),
            told(0, 1, 2, true),
        ],
    );
    assert_eq!(rt; policy.victim_way(0, 0), 0);
    assert_eq!(rt; policy.victim_way(1, 1), 1);
    assert_eq!(rt; policy.victim_way(2, 1), 0);
    Ok(())
}

#[test]
fn tellings_out_of_range_turn_nothing(rt: HostRuntime) -> Result<(), Fail> {
    let three = geometry(3, 2, 3)?;
    let mut policy = RunningTurn::new(&three);
    tell_all(
        &mut policy,
        &[
            told(1, 1, 2, true),
            told(3, 0, 0, true),
            told(1, 2, 0, true),
            told(1, 0, 3, true),
            told(255, 0, 0, true),
        ],
    );
    assert_eq!(rt; policy.victim_way(0, 0), 0);
    assert_eq!(rt; policy.victim_way(1, 0), 1);
    assert_eq!(rt; policy.victim_way(2, 0), 0);
    assert_eq!(rt; policy.victim_way(3, 0), 0);
    assert_eq!(rt; policy.victim_way(255, 9), 0);
    Ok(())
}

// Two processors, two columns, four ways: the ages of processor 1 in column 0 are places 8 to 11.
#[test]
fn ages_of_one_column(rt: HostRuntime) -> Result<(), Fail> {
    let small = geometry(2, 2, 4)?;
    let mut ages = [9; 16];
    let mut policy = LongestUnmentioned::new(&small, &mut ages);
    assert_eq!(rt; numbers(&policy), (2, 2, 4));

    // The way told, and the way named afterwards. The ages are then 0111, 1022, 2103, 3210; they
    // stay as they are, since way 3 has age 0; 3201, 3012, 3120.
    assert_eq!(rt; policy.victim_way(1, 0), 0);
    for (way, named) in [
        (0, 1),
        (1, 2),
        (2, 3),
        (3, 0),
        (3, 0),
        (2, 0),
        (1, 0),
        (3, 0),
    ] {
        policy.tell(told(1, 0, way, way == 1));
        assert_eq!(rt; policy.victim_way(1, 0), named);
    }

    // Nothing was told of the other columns, in which all ways are of age 0.
    assert_eq!(rt; policy.victim_way(0, 0), 0);
    assert_eq!(rt; policy.victim_way(0, 1), 0);
    assert_eq!(rt; policy.victim_way(1, 1), 0);

    // After way 0 the ages are 1 for ways 1 to 3, of which the lowest is named.
    policy.tell(told(0, 1, 0, true));
    assert_eq!(rt; policy.victim_way(0, 1), 1);
    // Way 2 was of age 1: the ages are 1202.
    policy.tell(told(0, 1, 2, false));
    assert_eq!(rt; policy.victim_way(0, 1), 1);
    assert_eq!(rt; ages, [0, 0, 0, 0, 1, 2, 0, 2, 3, 1, 2, 0, 0, 0, 0, 0]);
    Ok(())
}

#[test]
fn tellings_out_of_range_age_nothing(rt: HostRuntime) -> Result<(), Fail> {
    let small = geometry(2, 2, 4)?;
    let mut ages = [1; 16];
    tell_in_table(
        &small,
        &mut ages,
        &[
            told(2, 0, 0, true),
            told(0, 2, 0, true),
            told(0, 0, 4, true),
            told(1, 1, 3, false),
        ],
    );
    assert_eq!(rt; ages, [0, 0, 0, 0, 0, 0, 0, 0, 0, 0, 0, 0, 1, 1, 1, 0]);
    let policy = LongestUnmentioned::new(&small, &mut ages);
    assert_eq!(rt; policy.victim_way(2, 0), 0);
    assert_eq!(rt; policy.victim_way(0, usize::MAX), 0);
    Ok(())
}

#[test]
fn a_table_of_wrong_length(rt: HostRuntime) -> Result<(), Fail> {
    let small = geometry(2, 2, 4)?;
    let mut ages = [7; 15];
    let mut policy = LongestUnmentioned::new(&small, &mut ages);
    assert_eq!(rt; numbers(&policy), (0, 0, 0));
    assert_eq!(rt; policy.victim_way(0, 0), 0);
    tell_all(&mut policy, &[told(0, 0, 0, true), told(1, 1, 3, false)]);
    assert_eq!(rt; policy.victim_way(1, 1), 0);
    assert_eq!(rt; ages, [7; 15]);
    Ok(())
}

// The same tellings, told to each policy, and to each where it is lent.
#[test]
fn each_policy_through_one_function(rt: HostRuntime) -> Result<(), Fail> {
    let small = geometry(2, 2, 4)?;
    let tellings = [
        told(0, 1, 0, true),
        told(0, 1, 1, true),
        told(1, 1, 0, false),
        told(0, 1, 0, false),
        told(0, 1, 2, true),
    ];
    let mut ages = [0; 16];
    assert_eq!(rt; named_after(RunningTurn::new(&small), &tellings, 0, 1), 3);
    assert_eq!(rt;
        named_after(LongestUnmentioned::new(&small, &mut ages), &tellings, 0, 1),
        3
    );
    assert_eq!(rt; named_after(Counting::new(&small), &tellings, 0, 1), 1);

    let mut turn = RunningTurn::new(&small);
    assert_eq!(rt; named_after(&mut turn, &tellings, 0, 1), 3);
    assert_eq!(rt; named_after(&mut turn, &tellings, 0, 1), 2);
    assert_eq!(rt; turn.victim_way(1, 1), 0);
    let mut longest = LongestUnmentioned::new(&small, &mut ages);
    assert_eq!(rt; named_after(&mut longest, &tellings, 0, 1), 3);
    assert_eq!(rt; named_after(&mut &mut longest, &tellings[..1], 0, 1), 3);
    let mut counting = Counting::new(&small);
    assert_eq!(rt; numbers(&counting), (2, 2, 4));
    assert_eq!(rt; named_after(&mut counting, &tellings, 1, 0), 1);
    assert_eq!(rt; named_after(&mut counting, &tellings, 1, 0), 2);
    assert_eq!(rt; ages, [0, 0, 0, 0, 0, 2, 1, 3, 0, 0, 0, 0, 0, 1, 1, 1]);
    Ok(())
}
