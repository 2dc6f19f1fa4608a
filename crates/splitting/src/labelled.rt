// The labels of the rows of a key's part.
ghost use Rattle.std.specs.Prelude.{◌≡◌, ℕ, ◌+◌, ◌/◌, ◌%◌, ◌<◌, length, slice_index_or};
ghost use Rattle.sizes.specs.Sizes.{bits};
ghost use Rattle.plan.specs.Members.{members};
ghost use Rattle.plan.specs.View.{view};
ghost use Rattle.pads.specs.Source.{nothing};
ghost use Rattle.lms.specs.Scheme.{positions};
ghost use Rattle.pads.specs.Labelled.{label_at, chain_label};
ghost use Rattle.splitting.specs.KeyParts.{label_in};

use crate::key_part::KeyPart;
use lms::scheme;
use pads::Label;
use plan::{Group, Plan};
use std::array::from_fn;

impl KeyPart {
    // The part of a key of a plan's group.
    pub(crate) fn of(plan: &Plan, group: &Group, key: u32) -> KeyPart
        ensures { (n : ℕ) → label_in result n ≡ label_at
            (length (members group.now.mask)) (view plan.now).height (view plan.now).width key n }
    {
        KeyPart {
            height: plan.height(),
            width: plan.width(),
            members: group.size(),
            key,
        }
    }

    // The label of row n.
    fn label(&self, n: usize) -> Label
        requires { n < 65536 }
        ensures { result ≡ label_in self.now n }
    {
        let path = 1 + self.members;
        let components = path + self.height.levels();
        if n < 1 {
            Label::prefix(self.key)
        } else if n < path {
            Label::check_row(self.key, (n - 1) as u16)
        } else if n < components {
            Label::path(self.key, (n - path) as u16)
        } else {
            self.component(n - components)
        }
    }

    // The label of row n of the components.
    fn component(&self, n: usize) -> Label
        requires { n < 65536 }
        ensures { let each = positions (bits self.now.width) in
            result ≡ chain_label self.now.key (n / each) (n % each) }
    {
        let positions = scheme::positions(self.width);
        Label::chain(self.key, (n / positions) as u16, (n % positions) as u8)
    }

    // The labels of eight rows from row `first` on.
    pub(crate) fn labels(&self, first: usize) -> [Label; 8]
        requires { first < 65528 }
        ensures { (l : ℕ) → l < 8 →
            slice_index_or result l nothing ≡ label_in self.now (first + l) }
    {
        from_fn(|l| self.label(first + l))
    }
}
