// A source of one of two kinds, so that trustees with unlike sources stand in one slice.
ghost use Rattle.either.specs.Either.{either};
ghost use Rattle.either.specs.declared.Either.TheVariants.{Left, Right};

use crate::interface::Pads;
use crate::label::Label;
use either::{Either, for_both};
use rows::Row;

impl<A: Pads, B: Pads> Pads for Either<A, B> {
    ghost source = { either A.source B.source };

    ghost pads_are_rows = { elim [ Left a ↦ A.pads_are_rows a | Right b ↦ B.pads_are_rows b ] };

    ghost check_pads_are_rows = { elim [ Left a ↦ A.check_pads_are_rows a | Right b ↦ B.check_pads_are_rows b ] };

    fn holds(&self, key: u32) -> bool {
        for_both!(self, pads => pads.holds(key))
    }

    fn pad(&self, label: Label) -> Row {
        for_both!(self, pads => pads.pad(label))
    }

    fn check_pad(&self, key: u32, prefix: &Row) -> Row {
        for_both!(self, pads => pads.check_pad(key, prefix))
    }

    fn pads(&self, labels: &[Label; 8]) -> [Row; 8] {
        for_both!(self, pads => pads.pads(labels))
    }
}
