//! Checks that a call makes one after the other: what refuses is the first that fails.
#![tactic(auto)]

ghost use Rattle.checks.specs.Laws.{InOrder};

/// Carries the law of ordered checks, for refusals of any type: a call's answer is a check's refusal
/// exactly if that check fails and all before it pass, and there is none exactly if all pass.
/// It does nothing when it runs.
#[tactic(auto, using(crate::proofs::Ordered::in_order))]
pub fn in_order<R>()
    ensures { InOrder R }
{}
