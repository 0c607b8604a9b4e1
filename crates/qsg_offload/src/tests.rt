//! The rules at their edges, and at the limits of their numbers.

use super::*;
use qsg_num::Rules;
use std::test::Fail;

const USUAL: Rules = Rules {
    threshold: [70, 80, 90],
    size_k: [32, 4, 0],
};

const SWITCHED_OFF: Rules = Rules {
    threshold: [0, 0, 0],
    size_k: [64, 64, 64],
};

const NEVER_AS_FULL: Rules = Rules {
    threshold: [255, 255, 255],
    size_k: [0, 0, 0],
};

const LAST_ONE: Rules = Rules {
    threshold: [100, 100, 100],
    size_k: [64, 64, 63],
};

#[test]
fn bodies_go_by_the_first_rule_that_fires(rt: HostRuntime) -> Result<(), Fail> {
    let rows: [(u32, u32, u32, Rules, Placed); 18] = [
        (0, 100, 100, USUAL, Placed::Inside),
        (1, 89, 100, USUAL, Placed::Inside),
        (1, 90, 100, USUAL, Placed::Rule3),
        (4_096, 80, 100, USUAL, Placed::Inside),
        (4_097, 80, 100, USUAL, Placed::Rule2),
        (4_097, 79, 100, USUAL, Placed::Inside),
        (4_097, 100, 100, USUAL, Placed::Rule2),
        (32_768, 70, 100, USUAL, Placed::Inside),
        (32_769, 70, 100, USUAL, Placed::Rule1),
        (32_769, 69, 100, USUAL, Placed::Inside),
        (32_769, 100, 100, USUAL, Placed::Rule1),
        (64_512, 0, 100, USUAL, Placed::Inside),
        (64_513, 0, 100, USUAL, Placed::Always),
        (64_513, 0, 100, SWITCHED_OFF, Placed::Always),
        (64_512, u32::MAX, u32::MAX, SWITCHED_OFF, Placed::Inside),
        (64_512, u32::MAX, u32::MAX, NEVER_AS_FULL, Placed::Inside),
        (64_512, u32::MAX, u32::MAX, LAST_ONE, Placed::Inside),
        (64_512, u32::MAX, u32::MAX, USUAL, Placed::Rule1),
    ];
    for (length, used, capacity, rules, want) in rows {
        assert_eq!(rt;
            place(length, used, capacity, &rules),
            want,
            "{length} bytes at {used}"
        );
    }
    Ok(())
}
