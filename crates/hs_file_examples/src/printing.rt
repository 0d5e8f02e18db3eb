//! Faults as they are printed.

use crate::seeing::see;
use hs_flow::FlowFault;
use hs_scheme::{OutOfMemory, PointsFault};
use hs_sorts::SortFault;
use std::mem::forget;
use std::test::Fail;

#[test]
fn faults_are_printed(rt: HostRuntime) -> Result<(), Fail> {
    let text = format!(in rt.alloc();
        "{}, {}; {}, {}; {}; {}, {}, {}, {}, {}",
        FlowFault::FlowLimit,
        FlowFault::OutOfMemory,
        PointsFault::TooMany,
        PointsFault::OutOfMemory,
        OutOfMemory,
        SortFault::IllSorted { rule: 0 },
        SortFault::TerminalNotFirstOrder { terminal: 7 },
        SortFault::SortTooLarge { rule: 20 },
        SortFault::RuleTooLong { rule: 3 },
        SortFault::OutOfMemory,
    )?;
    see(
        &rt,
        text.as_str(),
        "too many flow pairs, out of memory; \
         more than 500000 points, out of memory; \
         out of memory; \
         rule 0 counted from 0: ill-sorted, terminal 7 counted from 0: not first order, \
         rule 20 counted from 0: sort too large, rule 3 counted from 0: too long, \
         out of memory",
        "faults",
    );
    forget(text);
    Ok(())
}
