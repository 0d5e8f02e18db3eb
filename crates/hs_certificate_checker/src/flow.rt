//! The check of the flow.

ghost use Rattle.std.specs.Prelude.{◌≡◌, IfErr, OnOk};
ghost use Rattle.hs_verdict.specs.Premises.{HasClosedFlow};
ghost use Rattle.hs_certificate_checker.specs.Faults.{fault_of, IsFlowFault};

use crate::fault::CertificateFault;
use hs_flow_checker::{HeadPairs, first_gap};
use hs_scheme::{Pair, Problem};
use std::alloc::Global;

/// The fault of a flow that lacks the pair.
fn open(pair: Pair) -> CertificateFault
    ensures { result ≡ fault_of pair }
{
    match pair {
        Pair::OfFlow(f) => CertificateFault::FlowOpen {
            rule: f.rule,
            param: f.param,
            point: f.point,
        },
        Pair::OfHead(h) => CertificateFault::HeadOpen {
            point: h.point,
            rule: h.rule,
            given: h.given,
        },
    }
}

/// Whether the flow is closed.
pub(crate) fn check_flow(alloc: Global, problem: &Problem) -> Result<(), CertificateFault>
    ensures closed { OnOk result (HasClosedFlow problem.now) }
    ensures fault { IfErr result (IsFlowFault problem.now) }
{
    let heads = HeadPairs::of(alloc, problem)?;
    let gap = first_gap(problem, &heads, &[]);
    drop(heads);
    match gap {
        Some(pair) => Err(open(pair)),
        None => Ok(()),
    }
}
