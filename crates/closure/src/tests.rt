//! Examples of the search over a real graph: the silent arcs among 256 stages.

use crate::silent_arcs::{SilentArcs, reached};
use search::breadth_first::{SearchFault, search};
use sets::small_set::SmallSet;
use std::test::Fail;

/// Two ways to stage 255, of which the shorter counts; a circle; and arcs that no start leads to.
fn arcs() -> SilentArcs {
    let mut arcs = SilentArcs::new();
    arcs.insert(0, 1);
    arcs.insert(1, 2);
    arcs.insert(2, 0);
    arcs.insert(2, 255);
    arcs.insert(1, 255);
    arcs.insert(7, 8);
    arcs
}

#[test]
fn fewest_steps(rt: HostRuntime) -> Result<(), Fail> {
    let arcs = arcs();
    let steps = arcs.steps_from(&[0])?;
    assert_eq!(rt; steps[0], Some(0));
    assert_eq!(rt; steps[255], Some(2));
    assert_eq!(rt; steps[7], None);
    assert_eq!(rt; steps[8], None);
    assert_eq!(rt; reached(&steps).count(), 4);
    let none = arcs.steps_from(&[])?;
    assert_eq!(rt; reached(&none).count(), 0);
    assert_eq!(rt; arcs.steps_from(&[0, 256]).is_err(), true);
    Ok(())
}

/// Places beyond the nodes stay; memory that is one place short, or a start past the nodes, is declined.
#[test]
fn lent_memory(rt: HostRuntime) -> Result<(), Fail> {
    let arcs = arcs();
    let mut distance = [9; 258];
    let mut work = [9; 256];
    search(&arcs, &[7, 2], &mut distance, &mut work)?;
    assert_eq!(rt; distance[8], 1);
    assert_eq!(rt; distance[255], 1);
    assert_eq!(rt; distance[256], 9);
    assert_eq!(rt; distance[257], 9);
    let mut short = [9; 255];
    let mut whole = [9; 256];
    assert_eq!(rt;
        search(&arcs, &[0], &mut short, &mut whole),
        Err(SearchFault::Unfit)
    );
    assert_eq!(rt;
        search(&arcs, &[0], &mut whole, &mut short),
        Err(SearchFault::Unfit)
    );
    assert_eq!(rt;
        search(&arcs, &[256], &mut whole, &mut work),
        Err(SearchFault::Unfit)
    );
    assert_eq!(rt; SearchFault::Unfit.number(), 5);
    assert_eq!(rt; whole[0], 9);
    assert_eq!(rt; short[0], 9);
    Ok(())
}
