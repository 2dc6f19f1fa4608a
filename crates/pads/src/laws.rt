// The laws of labels, on a call that any program can make.
ghost use Rattle.pads.specs.Laws.{Naming, Labelling};

/// Carries the laws of labels: by its bytes a label is told from every other, and each row of a
/// key's part has one label and each such label one row. It does nothing when it runs.
#[tactic(auto, using(crate::proofs::Named::naming, crate::proofs::Rising::labelling))]
pub fn labels_hold()
    ensures bytes { Naming }
    ensures rows { Labelling }
{}
